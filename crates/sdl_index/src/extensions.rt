//! Extensions of types (GraphQL, October 2021, section 3.4.3).
use crate::error::{PlacedFault, SchemaFault};
use crate::kinds::{KnownTypes, TypeKind};
use crate::parts::DefinedType;
use graphql_reader::type_system::TypeDefinition;
use language::error::OutOfMemory;

/// Appends a fault for each extension of a type that is not defined, or of another kind.
///
/// # Errors
///
/// Out of memory.
pub fn add_extension_faults<'a>(
    known: &KnownTypes<'a>,
    extensions: &[DefinedType<'_, 'a>],
    faults: &mut Vec<PlacedFault<'a>>,
) -> Result<(), OutOfMemory> {
    for extension in extensions {
        let item = extension.item;
        if let Some(fault) = fault_of(known, item) {
            let position = item.name.span.start;
            faults.push(PlacedFault { position, fault })?;
        }
    }
    Ok(())
}

fn fault_of<'a>(known: &KnownTypes<'a>, extension: &TypeDefinition<'a>) -> Option<SchemaFault<'a>> {
    let name = extension.name.item;
    match known.kind(name) {
        None => Some(SchemaFault::UnknownExtended(name)),
        Some(kind) if kind != TypeKind::of(&extension.body) => {
            Some(SchemaFault::OtherKindExtended(name))
        }
        Some(_) => None,
    }
}
