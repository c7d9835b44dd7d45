//! Values against the input object `O` of a schema.
use crate::shown::SourceSchema;
use graphql_reader::read_constant;
use introspection::schema_text;
use language::types::BorrowedType;
use literals::validate_written_value;
use sdl_reader::read_schema;
use std::alloc::{AllocError, Global};

/// Appends the first fault of each value against the schema's type `O`, a line each. The values stand after a line
/// `---`, and before it the schema's definitions, or an introspection result.
///
/// # Errors
///
/// Out of memory.
pub fn tell_inputs(
    alloc: Global,
    is_result: bool,
    text: &str,
    came: &mut String,
) -> Result<(), AllocError> {
    let (text, values) = text.split_once("\n---\n").unwrap_or((text, ""));
    if !is_result {
        return tell_by_text(alloc, text, values, came);
    }
    match schema_text(alloc, text) {
        Ok(text) => tell_by_text(alloc, text.as_str(), values, came),
        Err(error) => writeln!(came, "{error}"),
    }
}

fn tell_by_text(
    alloc: Global,
    text: &str,
    values: &str,
    came: &mut String,
) -> Result<(), AllocError> {
    match read_schema(alloc, text) {
        Ok(schema) => tell_faults(alloc, &schema, values, came),
        Err(error) => writeln!(came, "{error}"),
    }
}

fn tell_faults(
    alloc: Global,
    schema: &SourceSchema,
    values: &str,
    came: &mut String,
) -> Result<(), AllocError> {
    for value in values.lines() {
        write!(came, "{value}: ")?;
        tell_fault(alloc, schema, value, came)?;
    }
    Ok(())
}

fn tell_fault(
    alloc: Global,
    schema: &SourceSchema,
    text: &str,
    came: &mut String,
) -> Result<(), AllocError> {
    let Ok(value) = read_constant(alloc, text) else {
        return came.push_str("no value\n");
    };
    match validate_written_value(alloc, schema, BorrowedType::nullable("O"), &value.item) {
        Ok(Some(fault)) => writeln!(came, "{fault}"),
        Ok(None) => came.push_str("none\n"),
        Err(_) => came.push_str("out of memory\n"),
    }
}
