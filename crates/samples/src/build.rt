//! Helpers that build the sample lists.
use crate::rows::{ObjectRow, add_objects};
use language::error::OutOfMemory;
use language::types::Type;
use language::value::DefaultScalarValue;
use meta::default_check::DefaultCheck;
use meta::{Argument, Field, InterfaceMeta, MetaType, ObjectMeta, ScalarMetaOf, UnionMeta};
use std::alloc::Global;

/// The check of each scalar, enum and input object of the lists.
#[derive(Drop)]
pub struct Checks {
    pub int: DefaultCheck,
    pub string: DefaultCheck,
    pub boolean: DefaultCheck,
    pub id: DefaultCheck,
    pub dog_command: DefaultCheck,
    pub complex_input: DefaultCheck,
    pub pair_input: DefaultCheck,
}

/// The two introspection types.
const INTROSPECTED: [ObjectRow; 2] = [
    ("__Schema", &[], &[("queryType", "__Type!", &[])]),
    ("__Type", &[], &[("name", "String", &[])]),
];

pub type FieldMeta = Field<DefaultScalarValue>;

pub type ArgumentMeta = Argument<DefaultScalarValue>;

/// A scalar with this check.
///
/// # Errors
///
/// Out of memory.
pub fn scalar(alloc: Global, name: &str, check: DefaultCheck) -> Result<MetaType, OutOfMemory> {
    Ok(ScalarMetaOf::with_check(alloc, name, check)?.into_meta())
}

/// An object that implements these interfaces.
///
/// # Errors
///
/// Out of memory.
pub fn object(
    alloc: Global,
    name: &str,
    interfaces: &[&str],
    fields: Vec<FieldMeta>,
) -> Result<MetaType, OutOfMemory> {
    let interfaces = types(alloc, interfaces)?;
    Ok(
        ObjectMeta::new(alloc, name, fields)?
            .interfaces(interfaces)?
            .into_meta(),
    )
}

/// An interface with these fields.
///
/// # Errors
///
/// Out of memory.
pub fn interface(
    alloc: Global,
    name: &str,
    fields: Vec<FieldMeta>,
) -> Result<MetaType, OutOfMemory> {
    Ok(InterfaceMeta::new(alloc, name, fields)?.into_meta())
}

/// A union of these members.
///
/// # Errors
///
/// Out of memory.
pub fn union_of(alloc: Global, name: &str, members: &[&str]) -> Result<MetaType, OutOfMemory> {
    Ok(UnionMeta::new(alloc, name, types(alloc, members)?)?.into_meta())
}

// The nullable types of these names.
fn types(alloc: Global, names: &[&str]) -> Result<Vec<Type>, OutOfMemory> {
    let mut types = Vec::new(alloc);
    for name in names {
        types.push(Type::nullable(alloc, name)?)?;
    }
    Ok(types)
}

/// The field `__typename: String!`, which comes first in each object and interface.
///
/// # Errors
///
/// Out of memory.
pub fn own_fields(alloc: Global) -> Result<Vec<FieldMeta>, OutOfMemory> {
    let mut fields = Vec::new(alloc);
    fields.push(Field::new(alloc, "__typename", Type::non_null(alloc, "String")?)?)?;
    Ok(fields)
}

/// The field `__typename: String!`, then fields of these names and nullable types.
///
/// # Errors
///
/// Out of memory.
pub fn plain_fields(alloc: Global, listed: &[(&str, &str)]) -> Result<Vec<FieldMeta>, OutOfMemory> {
    let mut fields = own_fields(alloc)?;
    add_fields(alloc, &mut fields, listed)?;
    Ok(fields)
}

/// Appends fields of these names and nullable types.
///
/// # Errors
///
/// Out of memory.
pub fn add_fields(
    alloc: Global,
    fields: &mut Vec<FieldMeta>,
    listed: &[(&str, &str)],
) -> Result<(), OutOfMemory> {
    for (name, type_name) in listed {
        fields.push(field(alloc, name, type_name)?)?;
    }
    Ok(())
}

/// A field of a nullable type.
///
/// # Errors
///
/// Out of memory.
pub fn field(alloc: Global, name: &str, type_name: &str) -> Result<FieldMeta, OutOfMemory> {
    Field::new(alloc, name, Type::nullable(alloc, type_name)?)
}

/// An argument or input field of a nullable type.
///
/// # Errors
///
/// Out of memory.
pub fn argument(alloc: Global, name: &str, type_name: &str) -> Result<ArgumentMeta, OutOfMemory> {
    Argument::new(alloc, name, Type::nullable(alloc, type_name)?)
}

/// An argument or input field of a non-null type.
///
/// # Errors
///
/// Out of memory.
pub fn required(alloc: Global, name: &str, type_name: &str) -> Result<ArgumentMeta, OutOfMemory> {
    Argument::new(alloc, name, Type::non_null(alloc, type_name)?)
}

/// The types with which every list begins: `String`, `Boolean`, `__Schema` and `__Type`.
///
/// # Errors
///
/// Out of memory.
pub fn common(
    alloc: Global,
    string: DefaultCheck,
    boolean: DefaultCheck,
) -> Result<Vec<MetaType>, OutOfMemory> {
    let mut types = Vec::new(alloc);
    types.push(scalar(alloc, "String", string)?)?;
    types.push(scalar(alloc, "Boolean", boolean)?)?;
    add_objects(alloc, &mut types, &INTROSPECTED)?;
    Ok(types)
}

/// The same with `Int`.
///
/// # Errors
///
/// Out of memory.
pub fn with_int(
    alloc: Global,
    string: DefaultCheck,
    boolean: DefaultCheck,
    int: DefaultCheck,
) -> Result<Vec<MetaType>, OutOfMemory> {
    let mut types = common(alloc, string, boolean)?;
    types.push(scalar(alloc, "Int", int)?)?;
    Ok(types)
}
