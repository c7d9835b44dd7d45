//! What a schema says of itself, or the faults of its text.
use crate::shown::{SourceSchema, show_directive, show_type};
use language::value::InputValue;
use meta::kinds::MetaTypeOf;
use sdl_reader::{PlacedFault, SchemaReadError, SourceScalar, read_schema};
use sdl_scalars::check::{SourceCheck, accepts};
use std::alloc::{AllocError, Global};

/// Appends what the schema of a text answers to the questions that stand after a line `---`, a line each. Or else
/// appends each fault of the text, with its place: line, column and index.
///
/// # Errors
///
/// Out of memory.
pub fn tell_schema(alloc: Global, text: &str, came: &mut String) -> Result<(), AllocError> {
    let (text, questions) = text.split_once("\n---\n").unwrap_or((text, ""));
    match read_schema(alloc, text) {
        Ok(schema) => tell_answers(alloc, &schema, questions, came),
        Err(SchemaReadError::Faults(faults)) => tell_faults(faults.as_slice(), came),
        Err(SchemaReadError::Syntax(error)) => {
            let (position, index) = (error.position, error.position.index());
            writeln!(came, "syntax {position} {index} {error}")
        }
        Err(SchemaReadError::OutOfMemory) => came.push_str("out of memory\n"),
    }
}

fn tell_faults(faults: &[PlacedFault<'_>], came: &mut String) -> Result<(), AllocError> {
    for placed in faults {
        let (position, index) = (placed.position, placed.position.index());
        writeln!(came, "fault {position} {index} {}", placed.fault)?;
    }
    Ok(())
}

fn tell_answers(
    alloc: Global,
    schema: &SourceSchema,
    questions: &str,
    came: &mut String,
) -> Result<(), AllocError> {
    for question in questions.lines() {
        let (asked, name) = question.split_once(' ').unwrap_or((question, ""));
        write!(came, "{question}: ")?;
        match asked {
            "type" => show_type(schema, name, came)?,
            "directive" => show_directive(schema, name, came)?,
            "description" => came.push_str(description(schema, name).unwrap_or("none"))?,
            "roots" => show_roots(schema, came)?,
            _ => show_taken(alloc, schema, asked, name, came)?,
        }
        came.push('\n')?;
    }
    Ok(())
}

// The description of the schema, of the type of a name, or of its field, as `Dog.name`.
fn description<'s>(schema: &'s SourceSchema, name: &str) -> Option<&'s str> {
    if name.is_empty() {
        return schema.description();
    }
    let (name, field) = name.split_once('.').unwrap_or((name, ""));
    let meta = schema.concrete_type_by_name(name)?;
    if field.is_empty() {
        return meta.description();
    }
    match &meta.field_by_name(field)?.description {
        Some(text) => Some(text.as_str()),
        None => None,
    }
}

// The names of the roots.
fn show_roots(schema: &SourceSchema, came: &mut String) -> Result<(), AllocError> {
    let query = name_of(Some(schema.concrete_query_type()));
    let mutation = name_of(schema.concrete_mutation_type());
    let subscription = name_of(schema.concrete_subscription_type());
    write!(came, "{query} {mutation} {subscription}")
}

fn name_of(meta: Option<&MetaTypeOf<SourceScalar, SourceCheck>>) -> &str {
    match meta {
        Some(meta) => meta.name().unwrap_or("none"),
        None => "none",
    }
}

// Whether the type of the name takes the number or the enum value, as in `takes 1` after its name.
fn show_taken(
    alloc: Global,
    schema: &SourceSchema,
    name: &str,
    told: &str,
    came: &mut String,
) -> Result<(), AllocError> {
    let word = String::from_str(alloc, told.strip_prefix("takes ").unwrap_or(""))?;
    let is_number = word.as_bytes().first().is_some_and(u8::is_ascii_digit);
    let value = if is_number {
        InputValue::Scalar(SourceScalar::Int(word))
    } else {
        InputValue::Enum(word)
    };
    let takes = takes(schema, name, &value);
    write!(came, "{takes}")
}

fn takes(schema: &SourceSchema, name: &str, value: &InputValue<SourceScalar>) -> bool {
    match schema.concrete_type_by_name(name) {
        Some(meta) => match meta.input_value_parse_fn() {
            Some(check) => accepts(check, value),
            None => false,
        },
        None => false,
    }
}
