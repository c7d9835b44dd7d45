//! References to types that are not defined, or that do not fit their place.
use crate::error::{PlacedFault, SchemaFault};
use crate::kinds::{KnownTypes, TypeKind};
use crate::parts::{DefinedType, Parts};
use crate::repeats::add_repeats_of_arguments;
use graphql_reader::type_system::{FieldDefinition, InputValueDefinition, TypeBody};
use language::error::OutOfMemory;
use language::position::{SourcePosition, Spanning};
use language::types::Type;
use schema::error::SchemaError;
use std::alloc::Global;

// Which types may stand at a place.
#[derive(Clone, Copy, Debug)]
enum Wanted {
    Any,
    // A member of a union (section 3.8).
    Object,
    // The type of an argument or an input field (section 3.4.2).
    Input,
}

impl Wanted {
    fn takes(self, kind: TypeKind) -> bool {
        match self {
            Wanted::Any => true,
            Wanted::Object => kind == TypeKind::Object,
            Wanted::Input => kind.is_input(),
        }
    }

    // The refusal of a known type.
    fn refusal(self, name: String) -> SchemaError {
        match self {
            Wanted::Object => SchemaError::UnionMemberNotObject(name),
            _ => SchemaError::NotInputType(name),
        }
    }
}

/// Appends a fault for each reference to an unknown or unfit type, and for each argument that is defined twice.
///
/// # Errors
///
/// Out of memory.
pub fn add_reference_faults<'a>(
    alloc: Global,
    known: &KnownTypes<'a>,
    parts: &Parts<'_, 'a>,
    faults: &mut Vec<PlacedFault<'a>>,
) -> Result<(), OutOfMemory> {
    check_types(alloc, known, parts.types.as_slice(), faults)?;
    check_types(alloc, known, parts.extensions.as_slice(), faults)?;
    for directive in parts.directives.as_slice() {
        let item = directive.item;
        check_arguments(alloc, known, item.arguments.as_slice(), faults)?;
    }
    Ok(())
}

fn check_types<'a>(
    alloc: Global,
    known: &KnownTypes<'a>,
    types: &[DefinedType<'_, 'a>],
    faults: &mut Vec<PlacedFault<'a>>,
) -> Result<(), OutOfMemory> {
    for part in types {
        let item = part.item;
        check_names(
            alloc,
            known,
            Wanted::Any,
            item.interfaces.as_slice(),
            faults,
        )?;
        check_body(alloc, known, &item.body, faults)?;
    }
    Ok(())
}

fn check_body<'a>(
    alloc: Global,
    known: &KnownTypes<'a>,
    body: &TypeBody<'a>,
    faults: &mut Vec<PlacedFault<'a>>,
) -> Result<(), OutOfMemory> {
    match body {
        TypeBody::Object(fields) | TypeBody::Interface(fields) => {
            check_fields(alloc, known, fields.as_slice(), faults)
        }
        TypeBody::Union(members) => {
            check_names(alloc, known, Wanted::Object, members.as_slice(), faults)
        }
        TypeBody::InputObject(fields) => check_inputs(alloc, known, fields.as_slice(), faults),
        TypeBody::Scalar | TypeBody::Enum(_) => Ok(()),
    }
}

fn check_fields<'a>(
    alloc: Global,
    known: &KnownTypes<'a>,
    fields: &[FieldDefinition<'a>],
    faults: &mut Vec<PlacedFault<'a>>,
) -> Result<(), OutOfMemory> {
    for field in fields {
        check_arguments(alloc, known, field.arguments.as_slice(), faults)?;
        check_type(alloc, known, Wanted::Any, &field.field_type, faults)?;
    }
    Ok(())
}

fn check_arguments<'a>(
    alloc: Global,
    known: &KnownTypes<'a>,
    arguments: &[InputValueDefinition<'a>],
    faults: &mut Vec<PlacedFault<'a>>,
) -> Result<(), OutOfMemory> {
    add_repeats_of_arguments(alloc, arguments, faults)?;
    check_inputs(alloc, known, arguments, faults)
}

fn check_inputs<'a>(
    alloc: Global,
    known: &KnownTypes<'a>,
    inputs: &[InputValueDefinition<'a>],
    faults: &mut Vec<PlacedFault<'a>>,
) -> Result<(), OutOfMemory> {
    for input in inputs {
        check_type(alloc, known, Wanted::Input, &input.value_type, faults)?;
    }
    Ok(())
}

fn check_names<'a>(
    alloc: Global,
    known: &KnownTypes<'a>,
    wanted: Wanted,
    names: &[Spanning<&'a str>],
    faults: &mut Vec<PlacedFault<'a>>,
) -> Result<(), OutOfMemory> {
    for name in names {
        check_name(alloc, known, wanted, name.item, name.span.start, faults)?;
    }
    Ok(())
}

fn check_type<'a>(
    alloc: Global,
    known: &KnownTypes<'a>,
    wanted: Wanted,
    written: &Spanning<Type>,
    faults: &mut Vec<PlacedFault<'a>>,
) -> Result<(), OutOfMemory> {
    let name = written.item.innermost_name();
    check_name(alloc, known, wanted, name, written.span.start, faults)
}

fn check_name<'a>(
    alloc: Global,
    known: &KnownTypes<'a>,
    wanted: Wanted,
    name: &str,
    position: SourcePosition,
    faults: &mut Vec<PlacedFault<'a>>,
) -> Result<(), OutOfMemory> {
    let error = match known.kind(name) {
        None => SchemaError::UnknownType(String::from_str(alloc, name)?),
        Some(kind) if wanted.takes(kind) => return Ok(()),
        Some(_) => wanted.refusal(String::from_str(alloc, name)?),
    };
    faults.push(PlacedFault {
        position,
        fault: SchemaFault::Refused(error),
    })?;
    Ok(())
}
