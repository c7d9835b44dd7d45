//! Whether a document is valid.
ghost use Rattle.std.specs.Prelude.{IfOk};
ghost use Rattle.answers.specs.Answers.{Answers, IsRefusedAt, OfBytes, TellsErrors};
ghost use Rattle.answers.specs.declared.reports.Verdict.TheVariants.{Unreadable};

use crate::bytes::not_utf8;
use crate::choices::Choices;
use crate::errors::errors_of;
use crate::reports::{Answer, Verdict, answer_of_errors, refusal};
use crate::rules::AnswerRules;
use graphql_reader::{ReadError, SourceScalar, SyntaxError, read_document};
use language::error::OutOfMemory;
use schema::model::SchemaType;
use std::alloc::Global;
use std::str;
use validation::Definition;

/// Validates the document of a text.
///
/// # Errors
///
/// Out of memory.
pub fn answer(
    alloc: Global,
    schema: &SchemaType<SourceScalar>,
    query: &[u8],
    choices: Choices,
) -> Result<Answer, OutOfMemory>
    ensures { IfOk result
        (OfBytes (Answers ⟦<SourceScalar as AnswerRules>⟧.rules choices schema.now query.now) query.now) }
{
    match str::from_utf8(query) {
        Ok(text) => answer_of_text(alloc, schema, text, choices),
        Err(error) => not_utf8(alloc, query, error),
    }
}

fn answer_of_text(
    alloc: Global,
    schema: &SchemaType<SourceScalar>,
    text: &str,
    choices: Choices,
) -> Result<Answer, OutOfMemory>
    ensures { IfOk result (Answers ⟦<SourceScalar as AnswerRules>⟧.rules choices schema.now text.now) }
{
    match read_document(alloc, text) {
        Ok(document) => answer_of_document(alloc, schema, text, document.as_slice(), choices),
        Err(ReadError::Syntax(error)) => unreadable(alloc, text, error),
        Err(ReadError::OutOfMemory) => Err(OutOfMemory),
    }
}

/// The answer to a text that is not a document.
///
/// # Errors
///
/// Out of memory.
pub fn unreadable(alloc: Global, text: &str, error: SyntaxError<'_>) -> Result<Answer, OutOfMemory>
    ensures { IfOk result (IsRefusedAt Unreadable text.now error.entry.position) }
{
    let report = refusal(alloc, text, error.position, &error)?;
    Ok(Answer {
        verdict: Verdict::Unreadable,
        report,
    })
}

// Validates a document that was read.
fn answer_of_document(
    alloc: Global,
    schema: &SchemaType<SourceScalar>,
    text: &str,
    document: &[Definition<'_, SourceScalar>],
    choices: Choices,
) -> Result<Answer, OutOfMemory>
    ensures { IfOk result
        (TellsErrors ⟦<SourceScalar as AnswerRules>⟧.rules choices schema.now text.now document.now) }
{
    let errors = errors_of(alloc, schema, document, choices)?;
    answer_of_errors(alloc, text, errors.as_slice())
}
