//! Types as rows of tables; the types of their fields are written as in a document.
use crate::build::{ArgumentMeta, FieldMeta, interface, object, own_fields, union_of};
use language::error::OutOfMemory;
use language::types::Type;
use language::value::{DefaultScalarValue, InputValue};
use meta::default_check::DefaultCheck;
use meta::{Argument, Field, InputObjectMetaOf, MetaType};
use std::alloc::Global;

/// An argument or an input field: its name and its type, which ` = 0` may follow.
pub type ArgumentRow = (&'static str, &'static str);

/// A field: its name, its type and its arguments.
pub type FieldRow = (&'static str, &'static str, &'static [ArgumentRow]);

/// An object: its name, its interfaces, and its fields after `__typename`.
pub type ObjectRow = (&'static str, &'static [&'static str], &'static [FieldRow]);

/// An interface: its name, and its fields after `__typename`.
pub type InterfaceRow = (&'static str, &'static [FieldRow]);

/// A union: its name and its members.
pub type UnionRow = (&'static str, &'static [&'static str]);

fn named(alloc: Global, text: &str) -> Result<Type, OutOfMemory> {
    match text.strip_suffix("!") {
        Some(name) => Type::non_null(alloc, name),
        None => Type::nullable(alloc, text),
    }
}

/// The type that this text denotes, with one list at most.
///
/// # Errors
///
/// Out of memory.
pub fn written(alloc: Global, text: &str) -> Result<Type, OutOfMemory> {
    let Some(rest) = text.strip_prefix("[") else {
        return named(alloc, text);
    };
    match rest.strip_suffix("]!") {
        Some(item) => named(alloc, item)?.wrap_list(None)?.wrap_non_null(),
        None => named(alloc, rest.strip_suffix("]").unwrap_or(rest))?.wrap_list(None),
    }
}

fn zero() -> InputValue<DefaultScalarValue> {
    InputValue::Scalar(DefaultScalarValue::Int(0))
}

fn argument(alloc: Global, name: &str, text: &str) -> Result<ArgumentMeta, OutOfMemory> {
    match text.strip_suffix(" = 0") {
        Some(of) => Ok(Argument::new(alloc, name, written(alloc, of)?)?.default_value(zero())),
        None => Argument::new(alloc, name, written(alloc, text)?),
    }
}

/// Arguments or input fields.
fn arguments(alloc: Global, rows: &[ArgumentRow]) -> Result<Vec<ArgumentMeta>, OutOfMemory> {
    let mut arguments = Vec::new(alloc);
    for (name, text) in rows {
        arguments.push(argument(alloc, name, text)?)?;
    }
    Ok(arguments)
}

/// A field with its arguments.
///
/// # Errors
///
/// Out of memory.
pub fn field(alloc: Global, row: &FieldRow) -> Result<FieldMeta, OutOfMemory> {
    let mut field = Field::new(alloc, row.0, written(alloc, row.1)?)?;
    if !row.2.is_empty() {
        field.arguments = Some(arguments(alloc, row.2)?);
    }
    Ok(field)
}

fn fields(alloc: Global, rows: &[FieldRow]) -> Result<Vec<FieldMeta>, OutOfMemory> {
    let mut fields = own_fields(alloc)?;
    for row in rows {
        fields.push(field(alloc, row)?)?;
    }
    Ok(fields)
}

/// Appends objects.
///
/// # Errors
///
/// Out of memory.
pub fn add_objects(
    alloc: Global,
    types: &mut Vec<MetaType>,
    rows: &[ObjectRow],
) -> Result<(), OutOfMemory> {
    for row in rows {
        types.push(object(alloc, row.0, row.1, fields(alloc, row.2)?)?)?;
    }
    Ok(())
}

/// Appends interfaces.
///
/// # Errors
///
/// Out of memory.
pub fn add_interfaces(
    alloc: Global,
    types: &mut Vec<MetaType>,
    rows: &[InterfaceRow],
) -> Result<(), OutOfMemory> {
    for row in rows {
        types.push(interface(alloc, row.0, fields(alloc, row.1)?)?)?;
    }
    Ok(())
}

/// Appends unions.
///
/// # Errors
///
/// Out of memory.
pub fn add_unions(
    alloc: Global,
    types: &mut Vec<MetaType>,
    rows: &[UnionRow],
) -> Result<(), OutOfMemory> {
    for row in rows {
        types.push(union_of(alloc, row.0, row.1)?)?;
    }
    Ok(())
}

/// An input object with these fields.
///
/// # Errors
///
/// Out of memory.
pub fn input_object(
    alloc: Global,
    name: &str,
    rows: &[ArgumentRow],
    check: DefaultCheck,
) -> Result<MetaType, OutOfMemory> {
    Ok(InputObjectMetaOf::with_check(alloc, name, arguments(alloc, rows)?, check)?.into_meta())
}
