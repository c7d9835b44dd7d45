//! The places of directives and types in a document.
ghost use Rattle.std.specs.Prelude.{◌≡◌, IfOk, OnOk};
ghost use Rattle.name_tables.specs.Maps.{value_of};
ghost use Rattle.sdl_directive_circles.specs.Graph.{HasPlaces, IsNoted, place_by, place_of};
ghost use Rattle.sdl_directive_circles.specs.Uses.{defined_name, name_value};

use crate::names::{Name, NameOf, defined_name};
use graphql_reader::type_system::TypeSystemDefinition;
use language::error::OutOfMemory;
use name_tables::map::NameMap;
use std::alloc::Global;

/// The directives and the types of a document, each with the index of its first definition or extension.
#[derive(Drop)]
pub(crate) struct Places<'d> {
    directives: NameMap<'d, usize>,
    types: NameMap<'d, usize>,
}

/// The places of the directives and the types of a document.
///
/// # Errors
///
/// Out of memory.
pub(crate) fn places_of<'d, 't>(
    alloc: Global,
    document: &'d [TypeSystemDefinition<'t>],
) -> Result<Places<'d>, OutOfMemory>
    ensures { IfOk result (HasPlaces document.now) }
{
    let mut places = Places {
        directives: NameMap::with_slots(alloc, document.len())?,
        types: NameMap::with_slots(alloc, document.len())?,
    };
    for (place, definition) in document.iter().enumerate() {
        note_definition(definition, place, &mut places)?;
    }
    Ok(places)
}

// Notes the place of what is defined or extended, unless it has one.
fn note_definition<'d, 't>(
    definition: &'d TypeSystemDefinition<'t>,
    place: usize,
    places: &mut Places<'d>,
) -> Result<(), OutOfMemory>
    ensures { OnOk result (IsNoted (defined_name definition.now) place places.old places.new) }
{
    match defined_name(definition) {
        Some(NameOf::Directive(name)) => {
            places.directives.note(name, place)?;
        }
        Some(NameOf::Type(name)) => {
            places.types.note(name, place)?;
        }
        None => {}
    }
    Ok(())
}

/// The place of a directive or a type, if the document has it.
pub(crate) fn place_of(places: &Places<'_>, name: Name<'_>) -> Option<usize>
    ensures { result ≡ place_of places.now (name_value name.entry) }
{
    match name {
        NameOf::Directive(name) => value_of(&places.directives, name),
        NameOf::Type(name) => value_of(&places.types, name),
    }
}

fn value_of(places: &NameMap<'_, usize>, name: &str) -> Option<usize>
    ensures { result ≡ value_of places.now name.now }
{
    let index = places.index(name)?;
    match places.entry(index) {
        Some((_, place)) => Some(place),
        None => None,
    }
}

/// The place of what is defined or extended.
pub(crate) fn place_by(places: &Places<'_>, definition: &TypeSystemDefinition<'_>) -> Option<usize>
    ensures { result ≡ place_by places.now (defined_name definition.now) }
{
    match defined_name(definition) {
        Some(name) => place_of(places, name),
        None => None,
    }
}
