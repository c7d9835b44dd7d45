//! The places of the fields of a circle.
ghost use Rattle.std.specs.Prelude.{◌≡◌, ◌++◌, IfOk, OnOk};
ghost use Rattle.std.specs.List.{flat_map};
ghost use Rattle.sdl_faults.specs.Told.{field_place, field_places};

use graphql_reader::type_system::TypeSystemDefinition;
use language_types::error::OutOfMemory;
use language_types::position::SourcePosition;
use sdl_places::place_of;
use std::alloc::Global;
use type_system_inputs::RequiredField;

/// The position of the name of a field in a document, if it has the field.
pub(crate) fn place_of_field(
    document: &[TypeSystemDefinition<'_>],
    field: RequiredField<'_>,
) -> Option<SourcePosition>
    ensures { result ≡ field_place document.now field.entry }
{
    place_of(document, field.coordinate())
}

/// The positions of the names of these fields in a document, of those that it has.
pub(crate) fn places_of(
    alloc: Global,
    document: &[TypeSystemDefinition<'_>],
    fields: &[RequiredField<'_>],
) -> Result<Vec<SourcePosition>, OutOfMemory>
    ensures { IfOk result (λ v. v.items ≡ flat_map (field_places document.now) fields.now) }
{
    let mut places = Vec::new(alloc);
    for field in fields {
        add_place(document, *field, &mut places)?;
    }
    Ok(places)
}

fn add_place(
    document: &[TypeSystemDefinition<'_>],
    field: RequiredField<'_>,
    places: &mut Vec<SourcePosition>,
) -> Result<(), OutOfMemory>
    ensures { OnOk result (places.new.items ≡ places.old.items ++ field_places document.now field.entry) }
{
    if let Some(position) = place_of_field(document, field) {
        places.push(position)?;
    }
    Ok(())
}
