//! Whether a document is valid, and whether the values of its variables are.
ghost use Rattle.std.specs.Prelude.{IfOk};
ghost use Rattle.answers.specs.Answers.{AnswersValues, FaultsAt, FaultsIn, HasKnownTypes, IsRefused, IsValidDocument};
ghost use Rattle.answers.specs.Answers.{OfBytes, TellsFaults, TellsFaultsOf, TellsValues};
ghost use Rattle.answers.specs.declared.reports.Verdict.TheVariants.{NoValues};

use crate::bytes::not_utf8;
use crate::choices::Choices;
use crate::documents::unreadable;
use crate::errors::errors_of;
use crate::reports::{Answer, Verdict, answer_of_errors, refusal};
use crate::rules::AnswerRules;
use graphql_reader::{ReadError, SourceScalar, read_document};
use language::error::OutOfMemory;
use lint_sources::json_text::JsonError;
use lint_sources::variables::read_variables;
use schema::model::SchemaType;
use std::alloc::Global;
use std::str;
use validation::dialects::clean_by_each_dialect;
use validation::{Definition, Variables, validate_input_values};
use walk::RuleError;

/// Validates the document of a text, and if it is valid the values of its variables, which are a JSON object. The
/// values are checked for each operation.
///
/// # Errors
///
/// Out of memory.
pub fn answer_with_values(
    alloc: Global,
    schema: &SchemaType<SourceScalar>,
    query: &[u8],
    values: &[u8],
    choices: Choices,
) -> Result<Answer, OutOfMemory>
    ensures { IfOk result (OfBytes (OfBytes (AnswersValues ⟦<SourceScalar as AnswerRules>⟧.rules choices schema.now
        query.now values.now) values.now) query.now) }
{
    match str::from_utf8(query) {
        Ok(text) => answer_of_query(alloc, schema, text, values, choices),
        Err(error) => not_utf8(alloc, query, error),
    }
}

fn answer_of_query(
    alloc: Global,
    schema: &SchemaType<SourceScalar>,
    text: &str,
    values: &[u8],
    choices: Choices,
) -> Result<Answer, OutOfMemory>
    ensures { IfOk result (OfBytes (AnswersValues ⟦<SourceScalar as AnswerRules>⟧.rules choices schema.now
        text.now values.now) values.now) }
{
    match str::from_utf8(values) {
        Ok(given) => answer_of_texts(alloc, schema, text, given, choices),
        Err(error) => not_utf8(alloc, values, error),
    }
}

fn answer_of_texts(
    alloc: Global,
    schema: &SchemaType<SourceScalar>,
    text: &str,
    given: &str,
    choices: Choices,
) -> Result<Answer, OutOfMemory>
    ensures { IfOk result
        (AnswersValues ⟦<SourceScalar as AnswerRules>⟧.rules choices schema.now text.now given.now) }
{
    match read_document(alloc, text) {
        Ok(document) => answer_of_both(alloc, schema, text, document.as_slice(), given, choices),
        Err(ReadError::Syntax(error)) => unreadable(alloc, text, error),
        Err(ReadError::OutOfMemory) => Err(OutOfMemory),
    }
}

// Validates a document, and if it is valid the values.
fn answer_of_both(
    alloc: Global,
    schema: &SchemaType<SourceScalar>,
    text: &str,
    document: &[Definition<'_, SourceScalar>],
    given: &str,
    choices: Choices,
) -> Result<Answer, OutOfMemory>
    ensures { IfOk result
        (TellsValues ⟦<SourceScalar as AnswerRules>⟧.rules choices schema.now text.now given.now document.now) }
{
    let found = errors_of(alloc, schema, document, choices)?;
    let errors = found.as_slice();
    if !errors.is_empty() {
        return answer_of_errors(alloc, text, errors);
    }
    answer_of_values(alloc, schema, text, document, given, choices)
}

// Checks the values for a valid document.
fn answer_of_values(
    alloc: Global,
    schema: &SchemaType<SourceScalar>,
    text: &str,
    document: &[Definition<'_, SourceScalar>],
    given: &str,
    choices: Choices,
) -> Result<Answer, OutOfMemory>
    requires { IsValidDocument ⟦<SourceScalar as AnswerRules>⟧.rules choices schema.now document.now }
    ensures { IfOk result (TellsFaults schema.now text.now given.now document.now) }
{
    match read_variables(alloc, given) {
        Ok(values) => answer_of_faults(alloc, schema, text, document, &values, choices),
        Err(error) => no_values(alloc, given, error),
    }
}

// The answer to a text that is not an object of values.
fn no_values(alloc: Global, given: &str, error: JsonError) -> Result<Answer, OutOfMemory>
    ensures { IfOk result (IsRefused NoValues given.now) }
{
    let Some(position) = error.position() else {
        return Err(OutOfMemory);
    };
    let report = refusal(alloc, given, position, &error)?;
    Ok(Answer {
        verdict: Verdict::NoValues,
        report,
    })
}

fn answer_of_faults(
    alloc: Global,
    schema: &SchemaType<SourceScalar>,
    text: &str,
    document: &[Definition<'_, SourceScalar>],
    values: &Variables<SourceScalar>,
    choices: Choices,
) -> Result<Answer, OutOfMemory>
    requires { IsValidDocument ⟦<SourceScalar as AnswerRules>⟧.rules choices schema.now document.now }
    ensures { IfOk result (TellsFaultsOf schema.now values.now text.now document.now) }
{
    let faults = faults_in(alloc, schema, values, document, choices)?;
    answer_of_errors(alloc, text, faults.as_slice())
}

// The faults of the values for each definition in turn.
fn faults_in(
    alloc: Global,
    schema: &SchemaType<SourceScalar>,
    values: &Variables<SourceScalar>,
    document: &[Definition<'_, SourceScalar>],
    choices: Choices,
) -> Result<Vec<RuleError>, OutOfMemory>
    requires { IsValidDocument ⟦<SourceScalar as AnswerRules>⟧.rules choices schema.now document.now }
    ensures { IfOk result (λ faults. FaultsIn schema.now values.now document.now faults.items) }
{
    // The variables of a valid document have input types, which are known.
    clean_by_each_dialect::<SourceScalar>();
    let mut faults = Vec::new(alloc);
    for definition in document {
        let mut found = faults_at(alloc, schema, values, definition)?;
        faults.append(&mut found)?;
    }
    Ok(faults)
}

// The faults of the values for the variables of a definition.
fn faults_at(
    alloc: Global,
    schema: &SchemaType<SourceScalar>,
    values: &Variables<SourceScalar>,
    definition: &Definition<'_, SourceScalar>,
) -> Result<Vec<RuleError>, OutOfMemory>
    requires { HasKnownTypes schema.now definition.now }
    ensures { IfOk result (λ faults. FaultsAt schema.now values.now definition.now faults.items) }
{
    match definition {
        Definition::Operation(operation) => validate_input_values(alloc, values, operation, schema),
        Definition::Fragment(_) => Ok(Vec::new(alloc)),
    }
}
