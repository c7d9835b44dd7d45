//! From a text to a schema.
use crate::directives::{SourceSchema, add_directives};
use crate::standard::STANDARD_TYPES;
use crate::types::types_of;
use graphql_reader::read_type_system;
use graphql_reader::type_system::TypeSystemDefinition;
use language_types::error::OutOfMemory;
use language_types::position::SourcePosition;
use schema::error::SchemaError;
use schema::model::SchemaTypeOf;
use sdl_index::error::{Faults, SchemaFault, SchemaReadError};
use sdl_index::faults::roots_and_faults;
use sdl_index::parts::{Parts, first_named, parts_of};
use sdl_index::roots::{Root, Roots};
use std::alloc::Global;

/// The schema of a type system document.
///
/// # Errors
///
/// A syntax error, or all faults of the definitions, each with its position (0-based index, line and column, in bytes).
/// Or out of memory.
pub fn read_schema<'a>(alloc: Global, text: &'a str) -> Result<SourceSchema, SchemaReadError<'a>> {
    let document = read_type_system(alloc, text)?;
    schema_of_document(alloc, document.as_slice())
}

/// The schema of a type system document that was read, as by `graphql_reader::read_type_system`.
///
/// # Errors
///
/// All faults of the definitions, each with its position in the text that was read (0-based index, line and column, in
/// bytes), and never a syntax error. Or out of memory.
pub fn schema_of_document<'a>(
    alloc: Global,
    document: &[TypeSystemDefinition<'a>],
) -> Result<SourceSchema, SchemaReadError<'a>> {
    let standard = read_type_system(alloc, STANDARD_TYPES)?;
    let parts = parts_of(alloc, document, standard.as_slice())?;
    let (roots, faults) = roots_and_faults(alloc, &parts)?;
    match (Faults::of_list(faults), roots.query) {
        (Some(faults), _) => Err(SchemaReadError::Faults(faults)),
        (None, Some(query)) => schema_of(alloc, &parts, &roots, query),
        (None, None) => Err(SchemaReadError::of_fault(
            alloc,
            roots.position,
            SchemaFault::NoQueryRoot,
        )),
    }
}

fn schema_of<'a>(
    alloc: Global,
    parts: &Parts<'_, 'a>,
    roots: &Roots<'a>,
    query: Root<'a>,
) -> Result<SourceSchema, SchemaReadError<'a>> {
    let mut schema = plain_schema(alloc, parts, roots, query)?;
    describe(&mut schema, parts)?;
    add_directives(alloc, &mut schema, parts.directives.as_slice())?;
    Ok(schema)
}

// The schema of the types and the root types, without descriptions and directives.
fn plain_schema<'a>(
    alloc: Global,
    parts: &Parts<'_, 'a>,
    roots: &Roots<'a>,
    query: Root<'a>,
) -> Result<SourceSchema, SchemaReadError<'a>> {
    let types = types_of(alloc, parts)?;
    let (mutation, subscription) = (roots.mutation_name(), roots.subscription_name());
    match SchemaTypeOf::new(alloc, types, query.name, mutation, subscription) {
        Ok(schema) => Ok(schema),
        Err(error) => Err(refusal_of(alloc, parts, error)),
    }
}

fn describe(schema: &mut SourceSchema, parts: &Parts<'_, '_>) -> Result<(), OutOfMemory> {
    for defined in parts.schemas.as_slice() {
        let item = defined.item;
        if let Some(text) = &item.item.description {
            schema.set_description(text.item.as_str())?;
        }
    }
    Ok(())
}

// A type that the document defines does not fit a standard type, which refers to its name.
fn refusal_of<'a>(alloc: Global, parts: &Parts<'_, 'a>, error: SchemaError) -> SchemaReadError<'a> {
    let position = match &error {
        SchemaError::OutOfMemory => return SchemaReadError::OutOfMemory,
        SchemaError::NotInputType(name) => place_of(parts, name.as_str()),
        _ => SourcePosition::new(0, 0, 0),
    };
    SchemaReadError::of_fault(alloc, position, SchemaFault::Refused(error))
}

// The place where a type is defined.
fn place_of(parts: &Parts<'_, '_>, name: &str) -> SourcePosition {
    match first_named(parts.types.as_slice(), name) {
        Some(defined) => {
            let item = defined.item;
            item.name.span.start
        }
        None => SourcePosition::new(0, 0, 0),
    }
}
