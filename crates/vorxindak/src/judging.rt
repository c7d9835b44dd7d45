//! Judges documents by the schema of a handle.
ghost use Rattle.std.specs.Prelude.{string_bytes};
ghost use Rattle.answers.specs.Answers.{Answers, AnswersValues, OfBytes};
ghost use Rattle.vorxindak.specs.Calls.{Keeps, TellsHeld};

use crate::statuses::{CLOSED, OUT_OF_MEMORY, status_of};
use answers::{Answer, AnswerRules, Choices, answer, answer_with_values};
use graphql_reader::SourceScalar;
use language_types::error::OutOfMemory;
use schema_handle::Held;
use std::alloc::Global;

/// Judges a document, and keeps the report.
pub fn judge(alloc: Global, held: &mut Held, query: &[u8], choices: Choices) -> u32
    ensures { TellsHeld (λ schema. OfBytes (Answers ⟦<SourceScalar as AnswerRules>⟧.rules choices schema
        query.now) query.now) result held.old held.new }
{
    let Some(schema) = &held.schema else {
        return CLOSED;
    };
    let answered = answer(alloc, schema, query, choices);
    keep(alloc, &mut held.report, answered)
}

/// Judges a document and the values of its variables, and keeps the report.
pub fn judge_values(
    alloc: Global,
    held: &mut Held,
    query: &[u8],
    values: &[u8],
    choices: Choices,
) -> u32
    ensures { TellsHeld (λ schema. OfBytes (OfBytes (AnswersValues ⟦<SourceScalar as AnswerRules>⟧.rules choices
        schema query.now values.now) values.now) query.now) result held.old held.new }
{
    let Some(schema) = &held.schema else {
        return CLOSED;
    };
    let answered = answer_with_values(alloc, schema, query, values, choices);
    keep(alloc, &mut held.report, answered)
}

// Keeps the report of an answer, or an empty one where memory ran out.
fn keep(alloc: Global, report: &mut String, answered: Result<Answer, OutOfMemory>) -> u32
    ensures { Keeps answered result (string_bytes report.new) }
{
    match answered {
        Ok(answer) => {
            *report = answer.report;
            status_of(answer.verdict)
        }
        Err(_) => {
            *report = String::new(alloc);
            OUT_OF_MEMORY
        }
    }
}
