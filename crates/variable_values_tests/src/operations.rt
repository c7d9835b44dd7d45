//! Operations, and what is said of values for them.

use language::error::OutOfMemory;
use language::position::Spanning;
use language::tree::{Definition, Operation};
use language::value::{DefaultScalarValue, Variables};
use schema::model::SchemaType;
use std::alloc::Global;
use std::process::Abort;
use variable_values::{has_input_types, validate_input_values};
use walk::RuleError;

type Schema = SchemaType<DefaultScalarValue>;

// The errors, a line each.
fn lines(alloc: Global, errors: &[RuleError]) -> Result<String, OutOfMemory> {
    let mut told = String::new(alloc);
    for error in errors {
        writeln!(told, "{error}")?;
    }
    Ok(told)
}

// What is said of values for an operation.
fn said_of_operation(
    alloc: Global,
    schema: &Schema,
    values: &Variables,
    operation: &Spanning<Operation<'_, DefaultScalarValue>>,
) -> Result<String, OutOfMemory> {
    if has_input_types(schema, &operation.item) {
        let errors = validate_input_values(alloc, values, operation, schema)?;
        lines(alloc, errors.as_slice())
    } else {
        Ok(String::from_str(alloc, "no input types")?)
    }
}

/// What is said of values for the first definition of a document.
pub fn said(
    alloc: Global,
    schema: &Schema,
    values: &Variables,
    document: &[Definition<'_, DefaultScalarValue>],
) -> Result<String, OutOfMemory> {
    match document.first() {
        Some(Definition::Operation(operation)) => {
            said_of_operation(alloc, schema, values, operation)
        }
        _ => Ok(String::from_str(alloc, "no operation")?),
    }
}

/// What is said of values for the first definition of a document is the text.
pub fn says(
    rt: &impl Abort,
    alloc: Global,
    schema: &Schema,
    values: &Variables,
    document: &[Definition<'_, DefaultScalarValue>],
    want: &str,
) {
    let said = said(alloc, schema, values, document).expect(rt, "memory");
    if said.as_str() != want {
        rt.panic(said);
    }
}
