//! The places of input objects in a list of types.
ghost use Rattle.std.specs.Prelude.{◌≡◌, IfOk, OnOk};
ghost use Rattle.language_types.specs.References.{list_copied};
ghost use Rattle.name_tables.specs.Maps.{value_of};
ghost use Rattle.type_system_inputs.specs.Graph.{HasPlaces, IsNoted};

use language_types::error::OutOfMemory;
use name_tables::map::NameMap;
use schema::meta::MetaTypeOf;
use std::alloc::Global;

/// The input objects of a list of types, by their names, with their places.
pub(crate) fn input_places<'a, S, C>(
    alloc: Global,
    types: &[&'a MetaTypeOf<S, C>],
) -> Result<NameMap<'a, usize>, OutOfMemory>
    ensures { IfOk result (HasPlaces (list_copied types.now)) }
{
    let mut places = NameMap::with_slots(alloc, types.len())?;
    for (place, meta) in types.iter().enumerate() {
        note_input(*meta, place, &mut places)?;
    }
    Ok(places)
}

// Notes the place of a type that is an input object, unless its name has one.
fn note_input<'a, S, C>(
    meta: &'a MetaTypeOf<S, C>,
    place: usize,
    places: &mut NameMap<'a, usize>,
) -> Result<(), OutOfMemory>
    ensures { OnOk result (IsNoted meta.now place places.old places.new) }
{
    if let MetaTypeOf::InputObject(input) = meta {
        places.note(input.name.as_str(), place)?;
    }
    Ok(())
}

/// The place of the input object of a name, if there is one.
pub(crate) fn place_of(places: &NameMap<'_, usize>, name: &str) -> Option<usize>
    ensures { result ≡ value_of places.now name.now }
{
    let index = places.index(name)?;
    match places.entry(index) {
        Some((_, place)) => Some(place),
        None => None,
    }
}
