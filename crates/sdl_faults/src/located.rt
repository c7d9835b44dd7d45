//! Faults with their places.
ghost use Rattle.std.specs.Prelude.{◌≡◌, [], OnOk, Some};
ghost use Rattle.type_system_report.specs.Fault.{coordinate_value};
ghost use Rattle.sdl_faults.specs.Told.{Tells, place_index};
ghost use Rattle.sdl_places.specs.Places.{place_in};

use graphql_reader::type_system::TypeSystemDefinition;
use language_types::error::OutOfMemory;
use language_types::position::SourcePosition;
use sdl_places::place_of;
use std::alloc::Global;
use std::fmt;
use type_system_report::Coordinate;

/// What is wrong with a schema, and where.
#[derive(Debug, Drop)]
pub struct LocatedFault {
    /// The position of the name at the fault's coordinate, unless the text has no such name; of a directive where it
    /// starts, and of its argument the name or the value.
    pub position: Option<SourcePosition>,
    /// Further places: of a circle of input objects, the names of its other fields.
    pub others: Vec<SourcePosition>,
    /// What is wrong, in a sentence without a period.
    pub message: String,
}

impl LocatedFault {
    // The index of the position. A fault without one comes first.
    pub(crate) fn index(&self) -> usize
        ensures { result ≡ place_index self.now }
    {
        match self.position {
            Some(position) => position.index(),
            None => 0,
        }
    }
}

/// Appends a fault at a coordinate.
pub(crate) fn tell_at<M: fmt::Display>(
    alloc: Global,
    document: &[TypeSystemDefinition<'_>],
    at: Coordinate<'_>,
    message: &M,
    told: &mut Vec<LocatedFault>,
) -> Result<(), OutOfMemory>
    ensures { OnOk result (Tells (place_in document.now (coordinate_value at.entry)) [] (M.output message.now)
        told.old.items told.new.items) }
{
    let position = place_of(document, at);
    tell(alloc, position, Vec::new(alloc), message, told)
}

/// Appends a fault at a place.
pub(crate) fn tell_there<M: fmt::Display>(
    alloc: Global,
    position: SourcePosition,
    message: &M,
    told: &mut Vec<LocatedFault>,
) -> Result<(), OutOfMemory>
    ensures { OnOk result (Tells (Some position) [] (M.output message.now) told.old.items told.new.items) }
{
    tell(alloc, Some(position), Vec::new(alloc), message, told)
}

/// Appends a fault at these places.
pub(crate) fn tell<M: fmt::Display>(
    alloc: Global,
    position: Option<SourcePosition>,
    others: Vec<SourcePosition>,
    message: &M,
    told: &mut Vec<LocatedFault>,
) -> Result<(), OutOfMemory>
    ensures { OnOk result (Tells position others.items (M.output message.now) told.old.items told.new.items) }
{
    let message = format!(in alloc; "{message}")?;
    told.push(LocatedFault {
        position,
        others,
        message,
    })?;
    Ok(())
}
