//! Each allocation failing in turn, from metadata to calls of a schema.
use crate::schemas::{Schema, demo_types, schema_of_queries};
use language_types::error::OutOfMemory;
use language_types::types::Type;
use language_values::value::DefaultScalarValue;
use meta::MetaType;
use samples::rows::add_unions;
use schema::error::SchemaError;
use schema::model::{DirectiveType, TypeType};
use std::alloc::{AllocError, Global};
use std::process::Abort;

/// The number of types, of directives, and of possible types of the union, and the length of a printed copy
/// of `[Dog!]`.
type Counts = (usize, usize, usize, usize);

/// The number of possible types of the union.
fn count_of_members(alloc: Global, schema: &Schema) -> Result<usize, OutOfMemory> {
    match schema.concrete_type_by_name("Pets") {
        Some(meta) if meta.is_abstract() => Ok(schema.possible_types(alloc, meta)?.len()),
        _ => Ok(0),
    }
}

fn length(alloc: Global, made: &TypeType<'_, DefaultScalarValue>) -> Result<usize, AllocError> {
    Ok(made.to_string(alloc)?.len())
}

fn length_of_copy(
    alloc: Global,
    made: &TypeType<'_, DefaultScalarValue>,
) -> Result<usize, AllocError> {
    length(alloc, &made.clone()?)
}

/// The length of a printed copy of the type.
fn length_of_made(alloc: Global, schema: &Schema, named: &Type) -> Result<usize, OutOfMemory> {
    if !schema.is_known(named.innermost_name()) {
        return Ok(0);
    }
    let made = schema.make_type(alloc, named.as_borrowed())?;
    Ok(length_of_copy(alloc, &made)?)
}

/// `[Dog!]`
fn dogs(alloc: Global) -> Result<Type, OutOfMemory> {
    Type::non_null(alloc, "Dog")?.wrap_list(None)
}

fn count_of_types(alloc: Global, schema: &Schema) -> Result<usize, OutOfMemory> {
    Ok(schema.type_list(alloc)?.len())
}

fn count_of_directives(alloc: Global, schema: &Schema) -> Result<usize, OutOfMemory> {
    Ok(schema.directive_list(alloc)?.len())
}

/// The results of the calls of a schema that allocate.
fn counts(alloc: Global, schema: &Schema) -> Result<Counts, OutOfMemory> {
    let types = count_of_types(alloc, schema)?;
    let directives = count_of_directives(alloc, schema)?;
    let members = count_of_members(alloc, schema)?;
    let made = length_of_made(alloc, schema, &dogs(alloc)?)?;
    Ok((types, directives, members, made))
}

/// Adds a directive `flag`.
fn add_flag(alloc: Global, schema: &mut Schema) -> Result<(), SchemaError> {
    let flag = DirectiveType::new(alloc, "flag", Vec::new(alloc), Vec::new(alloc), false);
    schema.add_directive(flag?)
}

/// The same with the directive `flag` and a description added. If the directive is refused, the schema
/// gives the same results as before.
fn counts_of_changed(
    rt: &impl Abort,
    alloc: Global,
    schema: &mut Schema,
) -> Result<Counts, SchemaError> {
    match add_flag(alloc, schema) {
        Ok(()) => {
            schema.set_description("animals")?;
            Ok(counts(alloc, schema)?)
        }
        Err(refused) => {
            assert!(rt; counts(alloc, schema) == Ok((7, 4, 1, 6)));
            Err(refused)
        }
    }
}

/// The list with a union of `Dog`.
fn with_dogs(alloc: Global, mut types: Vec<MetaType>) -> Result<Vec<MetaType>, OutOfMemory> {
    add_unions(alloc, &mut types, &[("Pets", &["Dog"])])?;
    Ok(types)
}

fn schema_with_dogs(alloc: Global) -> Result<Schema, SchemaError> {
    schema_of_queries(alloc, with_dogs(alloc, demo_types(alloc)?)?)
}

fn counts_with_dogs(rt: &impl Abort, alloc: Global) -> Result<Counts, SchemaError> {
    let mut schema = schema_with_dogs(alloc)?;
    counts_of_changed(rt, alloc, &mut schema)
}

/// Run with each allocation failing in turn: the result is the same, or out of memory.
#[test]
fn a_refused_request_changes_no_answer(rt: HostRuntime) {
    match counts_with_dogs(&rt, rt.alloc()) {
        Ok(said) => assert_eq!(rt; said, (7, 5, 1, 6)),
        Err(refused) => assert_eq!(rt; refused, SchemaError::OutOfMemory),
    }
}
