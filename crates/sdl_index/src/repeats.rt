//! Names that are defined twice.
use crate::error::{Defined, PlacedFault};
use crate::kinds::TypeKind;
use crate::names::Names;
use crate::parts::{DefinedDirective, DefinedType, Parts};
use graphql_reader::type_system::{
    FieldDefinition, InputValueDefinition, TypeBody, TypeDefinition,
};
use language::error::OutOfMemory;
use std::alloc::Global;

/// Appends a fault for each name that its list has already.
///
/// # Errors
///
/// Out of memory.
pub fn add_repeats<'a>(
    alloc: Global,
    parts: &Parts<'_, 'a>,
    faults: &mut Vec<PlacedFault<'a>>,
) -> Result<(), OutOfMemory> {
    let mut types = Names::new(alloc, Defined::Type);
    for defined in parts.types.as_slice() {
        let item = defined.item;
        let is_first = types.add(&item.name, faults)?;
        let extensions = parts.extensions_of(item.name.item);
        // They extend the first type of their name.
        let count = if is_first { extensions.len() } else { 0 };
        add_repeats_of_type(alloc, item, &extensions[..count], faults)?;
    }
    add_repeats_of_directives(alloc, parts.directives.as_slice(), faults)?;
    add_repeats_of_standard(alloc, parts, faults)
}

// Extensions may list again what a standard type lists.
fn add_repeats_of_standard<'a>(
    alloc: Global,
    parts: &Parts<'_, 'a>,
    faults: &mut Vec<PlacedFault<'a>>,
) -> Result<(), OutOfMemory> {
    for defined in parts.standard.as_slice() {
        add_repeats_of_type(
            alloc,
            defined.item,
            parts.extensions_of(defined.name()),
            faults,
        )?;
    }
    Ok(())
}

// The names of a type and of its extensions. An extension as another kind is a fault by itself.
fn add_repeats_of_type<'a>(
    alloc: Global,
    defined: &TypeDefinition<'a>,
    extensions: &[DefinedType<'_, 'a>],
    faults: &mut Vec<PlacedFault<'a>>,
) -> Result<(), OutOfMemory> {
    let kind = TypeKind::of(&defined.body);
    let mut names = Names::new(alloc, kind.lists());
    add_names(defined, &mut names, faults)?;
    for part in extensions {
        let item = part.item;
        if TypeKind::of(&item.body) == kind {
            add_names(item, &mut names, faults)?;
        }
    }
    Ok(())
}

// Adds what a definition or an extension lists.
fn add_names<'a>(
    part: &TypeDefinition<'a>,
    names: &mut Names<'a>,
    faults: &mut Vec<PlacedFault<'a>>,
) -> Result<(), OutOfMemory> {
    match &part.body {
        TypeBody::Scalar | TypeBody::Union(_) => Ok(()),
        TypeBody::Object(fields) | TypeBody::Interface(fields) => {
            add_names_of_fields(fields.as_slice(), names, faults)
        }
        TypeBody::Enum(values) => {
            for value in values {
                names.add(&value.name, faults)?;
            }
            Ok(())
        }
        TypeBody::InputObject(fields) => add_names_of_inputs(fields.as_slice(), names, faults),
    }
}

fn add_names_of_fields<'a>(
    fields: &[FieldDefinition<'a>],
    names: &mut Names<'a>,
    faults: &mut Vec<PlacedFault<'a>>,
) -> Result<(), OutOfMemory> {
    for field in fields {
        names.add(&field.name, faults)?;
    }
    Ok(())
}

fn add_names_of_inputs<'a>(
    inputs: &[InputValueDefinition<'a>],
    names: &mut Names<'a>,
    faults: &mut Vec<PlacedFault<'a>>,
) -> Result<(), OutOfMemory> {
    for input in inputs {
        names.add(&input.name, faults)?;
    }
    Ok(())
}

/// Appends a fault for each argument that is defined twice in this list.
///
/// # Errors
///
/// Out of memory.
pub fn add_repeats_of_arguments<'a>(
    alloc: Global,
    arguments: &[InputValueDefinition<'a>],
    faults: &mut Vec<PlacedFault<'a>>,
) -> Result<(), OutOfMemory> {
    let mut names = Names::new(alloc, Defined::Argument);
    add_names_of_inputs(arguments, &mut names, faults)
}

fn add_repeats_of_directives<'a>(
    alloc: Global,
    directives: &[DefinedDirective<'_, 'a>],
    faults: &mut Vec<PlacedFault<'a>>,
) -> Result<(), OutOfMemory> {
    let mut names = Names::new(alloc, Defined::Directive);
    for defined in directives {
        let item = defined.item;
        names.add(&item.name, faults)?;
    }
    Ok(())
}
