//! The values of scalars: strings and block strings, and numbers, which stay as written.
use graphql_reader::{ReadError, SourceScalar, read_document};
use language::tree::{Definition, Selection};
use language::value::InputValue;
use std::alloc::{AllocError, Global};

/// Appends the value of a literal, or its syntax error.
///
/// # Errors
///
/// Out of memory.
pub fn tell_value(alloc: Global, literal: &str, came: &mut String) -> Result<(), AllocError> {
    let text = format!(in alloc; "{{ a(x: {literal}) }}")?;
    match read_document(alloc, text.as_str()) {
        Ok(document) => tell(first_scalar(document.as_slice()), came),
        Err(ReadError::Syntax(error)) => writeln!(came, "{error}"),
        Err(ReadError::OutOfMemory) => came.push_str("out of memory\n"),
    }
}

// The scalar that is the first argument of the first field.
fn first_scalar<'d>(document: &'d [Definition<'_, SourceScalar>]) -> Option<&'d SourceScalar> {
    let Definition::Operation(operation) = document.first()? else {
        return None;
    };
    let Selection::Field(field) = operation.item.selection_set.as_slice().first()? else {
        return None;
    };
    let arguments = field.item.arguments.as_ref()?;
    match &arguments.item.get("x")?.item {
        InputValue::Scalar(scalar) => Some(scalar),
        _ => None,
    }
}

fn tell(scalar: Option<&SourceScalar>, came: &mut String) -> Result<(), AllocError> {
    match scalar {
        Some(SourceScalar::Int(digits)) => writeln!(came, "integer {digits}"),
        Some(SourceScalar::Float(number)) => writeln!(came, "float {number}"),
        Some(SourceScalar::Boolean(truth)) => writeln!(came, "{truth}"),
        Some(SourceScalar::String(text)) => writeln!(came, "{text}"),
        None => came.push_str("no scalar\n"),
    }
}
