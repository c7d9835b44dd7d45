//! Metadata of fields, arguments, input fields and enum values.
use graphql_reader::SourceScalar;
use graphql_reader::type_system::{
    Description, EnumValueDefinition, FieldDefinition, InputValueDefinition,
};
use language_types::error::OutOfMemory;
use language_types::position::Spanning;
use language_values::value::InputValue;
use meta::arguments::Argument;
use meta::enum_values::EnumValue;
use meta::fields::Field;
use sdl_index::applied::deprecation;
use std::alloc::Global;

/// A copy of the description, if there is one.
///
/// # Errors
///
/// Out of memory.
pub fn copied(alloc: Global, description: &Description) -> Result<Option<String>, OutOfMemory> {
    match description {
        Some(text) => Ok(Some(String::from_str(alloc, text.item.as_str())?)),
        None => Ok(None),
    }
}

/// Appends fields.
///
/// # Errors
///
/// Out of memory; some of the fields are appended then.
pub fn add_fields(
    alloc: Global,
    defined: &[FieldDefinition<'_>],
    fields: &mut Vec<Field<SourceScalar>>,
) -> Result<(), OutOfMemory> {
    for field in defined {
        fields.push(field_of(alloc, field)?)?;
    }
    Ok(())
}

// A field without arguments gets an empty list, so that every argument is unknown there (section 5.4.1).
fn field_of(
    alloc: Global,
    defined: &FieldDefinition<'_>,
) -> Result<Field<SourceScalar>, OutOfMemory> {
    let arguments = arguments_of(alloc, defined.arguments.as_slice())?;
    Ok(Field {
        name: String::from_str(alloc, defined.name.item)?,
        description: copied(alloc, &defined.description)?,
        arguments: Some(arguments),
        field_type: defined.field_type.item.clone()?,
        deprecation_status: deprecation(alloc, &defined.directives)?,
    })
}

/// The arguments of a field or a directive.
///
/// # Errors
///
/// Out of memory.
pub fn arguments_of(
    alloc: Global,
    defined: &[InputValueDefinition<'_>],
) -> Result<Vec<Argument<SourceScalar>>, OutOfMemory> {
    let mut arguments = Vec::new(alloc);
    add_arguments(alloc, defined, &mut arguments)?;
    Ok(arguments)
}

/// Appends arguments or input fields.
///
/// # Errors
///
/// Out of memory; some of them are appended then.
pub fn add_arguments(
    alloc: Global,
    defined: &[InputValueDefinition<'_>],
    arguments: &mut Vec<Argument<SourceScalar>>,
) -> Result<(), OutOfMemory> {
    for argument in defined {
        arguments.push(argument_of(alloc, argument)?)?;
    }
    Ok(())
}

fn argument_of(
    alloc: Global,
    defined: &InputValueDefinition<'_>,
) -> Result<Argument<SourceScalar>, OutOfMemory> {
    Ok(Argument {
        name: String::from_str(alloc, defined.name.item)?,
        description: copied(alloc, &defined.description)?,
        arg_type: defined.value_type.item.clone()?,
        default_value: default_of(&defined.default_value)?,
        deprecation_status: deprecation(alloc, &defined.directives)?,
    })
}

fn default_of(
    value: &Option<Spanning<InputValue<SourceScalar>>>,
) -> Result<Option<InputValue<SourceScalar>>, OutOfMemory> {
    match value {
        Some(value) => Ok(Some(value.item.clone()?)),
        None => Ok(None),
    }
}

/// Appends enum values, and copies of their names.
///
/// # Errors
///
/// Out of memory; some of the values are appended then.
pub fn add_values(
    alloc: Global,
    defined: &[EnumValueDefinition<'_>],
    names: &mut Vec<String>,
    values: &mut Vec<EnumValue>,
) -> Result<(), OutOfMemory> {
    for value in defined {
        names.push(String::from_str(alloc, value.name.item)?)?;
        values.push(value_of(alloc, value)?)?;
    }
    Ok(())
}

/// Appends copies of names.
///
/// # Errors
///
/// Out of memory; some of the names are appended then.
pub fn add_names(
    alloc: Global,
    listed: &[Spanning<&str>],
    names: &mut Vec<String>,
) -> Result<(), OutOfMemory> {
    for name in listed {
        names.push(String::from_str(alloc, name.item)?)?;
    }
    Ok(())
}

fn value_of(alloc: Global, defined: &EnumValueDefinition<'_>) -> Result<EnumValue, OutOfMemory> {
    Ok(EnumValue {
        name: String::from_str(alloc, defined.name.item)?,
        description: copied(alloc, &defined.description)?,
        deprecation_status: deprecation(alloc, &defined.directives)?,
    })
}
