//! Members of types: fields with their arguments, input fields and enum values (GraphQL, October 2021, sections 3.6 to
//! 3.10).
use crate::descriptions::{write_deprecation, write_description};
use crate::error::IntrospectionError;
use crate::lists::{Entry, Frame, write_list};
use crate::places::Place;
use crate::references::write_reference;
use graphql_reader::{ReadError, read_constant};

// Arguments, all on one line.
const ARGUMENT_LIST: Frame = Frame {
    open: "(",
    between: ", ",
    close: ")",
};

// The separator after a description on a line of its own.
const LINE: &str = "\n  ";

/// Fields of an object or an interface.
#[derive(Clone, Copy)]
pub struct Fields;

impl Entry for Fields {
    fn write(&self, text: &mut String, field: &Place<'_>) -> Result<(), IntrospectionError> {
        let name = field.member("name")?.name()?;
        write_description(text, field, LINE)?;
        text.push_str(name)?;
        write_arguments(text, field)?;
        text.push_str(": ")?;
        write_reference(text, &field.member("type")?)?;
        write_deprecation(text, field)
    }
}

/// Writes the arguments of a field or a directive.
///
/// # Errors
///
/// An argument has another shape, or out of memory; `text` may be partly written.
pub fn write_arguments(text: &mut String, owner: &Place<'_>) -> Result<(), IntrospectionError> {
    let arguments = owner.member("args")?;
    write_list(text, &arguments, &ARGUMENT_LIST, &Arguments)
}

// Arguments of a field or a directive.
#[derive(Clone, Copy)]
struct Arguments;

impl Entry for Arguments {
    fn write(&self, text: &mut String, argument: &Place<'_>) -> Result<(), IntrospectionError> {
        write_input_value(text, argument, " ")
    }
}

/// Fields of an input object.
#[derive(Clone, Copy)]
pub struct InputFields;

impl Entry for InputFields {
    fn write(&self, text: &mut String, field: &Place<'_>) -> Result<(), IntrospectionError> {
        write_input_value(text, field, LINE)
    }
}

fn write_input_value(
    text: &mut String,
    value: &Place<'_>,
    after_description: &str,
) -> Result<(), IntrospectionError> {
    let name = value.member("name")?.name()?;
    write_description(text, value, after_description)?;
    text.push_str(name)?;
    text.push_str(": ")?;
    write_reference(text, &value.member("type")?)?;
    write_default(text, value)?;
    write_deprecation(text, value)
}

// A default value is written as it is, so it must be exactly one value.
fn write_default(text: &mut String, value: &Place<'_>) -> Result<(), IntrospectionError> {
    let Some(default) = value.optional("defaultValue") else {
        return Ok(());
    };
    let literal = constant(&default)?;
    text.push_str(" = ")?;
    text.push_str(literal)?;
    if literal.contains('#') {
        // A comment would swallow what follows.
        text.push('\n')?;
    }
    Ok(())
}

// The text of a value without variables (section 2.9).
fn constant<'v>(place: &Place<'v>) -> Result<&'v str, IntrospectionError> {
    let literal = place.text()?;
    match read_constant(place.alloc(), literal) {
        Ok(_) => Ok(literal),
        Err(ReadError::Syntax(_)) => Err(place.unexpected("a value without variables")),
        Err(ReadError::OutOfMemory) => Err(IntrospectionError::OutOfMemory),
    }
}

/// Values of an enum.
#[derive(Clone, Copy)]
pub struct EnumValues;

impl Entry for EnumValues {
    fn write(&self, text: &mut String, value: &Place<'_>) -> Result<(), IntrospectionError> {
        let name = value.member("name")?;
        write_description(text, value, LINE)?;
        text.push_str(enum_value(&name)?)?;
        write_deprecation(text, value)
    }
}

// A name that is not another literal (section 2.9.6).
fn enum_value<'v>(place: &Place<'v>) -> Result<&'v str, IntrospectionError> {
    match place.name()? {
        "true" | "false" | "null" => Err(place.unexpected("an enum value")),
        name => Ok(name),
    }
}
