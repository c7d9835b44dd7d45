//! Faults of a schema's files.
ghost use Rattle.std.specs.Prelude.{◌≡◌, [], IfOk, None, OnOk};
ghost use Rattle.lint_sources.specs.Faults.{IsFault};
ghost use Rattle.lint_schema.specs.Told.{AddsFault, AddsFaults, AddsFaultsOf, HasFurther, IsInLine, IsToldAt};
ghost use Rattle.lint_schema.specs.Told.{IsToldInLine};

use language_types::error::OutOfMemory;
use language_types::position::SourcePosition;
use lint_sources::faults::Fault;
use lint_sources::json_text::is_object_text;
use lint_sources::sources::{Joined, Place, Source, path_of, text_of};
use lint_sources::text_places::line_of;
use sdl_reader::{PlacedFault, SchemaReadError};
use std::alloc::Global;
use std::fmt;

/// Adds a fault of a file as a whole.
///
/// # Errors
///
/// Out of memory; nothing is added then.
pub fn add_file_fault<M: fmt::Display>(
    alloc: Global,
    path: &str,
    message: &M,
    faults: &mut Vec<Fault>,
) -> Result<(), OutOfMemory>
    ensures { OnOk result
        (AddsFault (IsFault path.now [] None (M.output message.now)) faults.old.items faults.new.items) }
{
    faults.push(Fault::new(alloc, path, "", None, message)?)?;
    Ok(())
}

/// Adds why the definitions of several files, joined to one text, are no schema.
///
/// # Errors
///
/// Out of memory; some of the faults may be added then.
pub fn add_schema_faults(
    alloc: Global,
    sources: &[Source],
    joined: &Joined,
    error: &SchemaReadError<'_>,
    faults: &mut Vec<Fault>,
) -> Result<(), OutOfMemory>
    ensures { OnOk result
        (AddsFaultsOf sources.now joined.now error.now faults.old.items faults.new.items) }
{
    match error {
        SchemaReadError::Syntax(error) => {
            let place = joined.place_of(error.position);
            add_placed(alloc, sources, place, error, faults)
        }
        SchemaReadError::Faults(found) => {
            add_all(alloc, sources, joined, found.as_slice(), faults)
        }
        SchemaReadError::OutOfMemory => Err(OutOfMemory),
    }
}

// Adds each fault that was found, in order.
fn add_all(
    alloc: Global,
    sources: &[Source],
    joined: &Joined,
    found: &[PlacedFault<'_>],
    faults: &mut Vec<Fault>,
) -> Result<(), OutOfMemory>
    ensures { OnOk result (AddsFaults sources.now joined.now found.now faults.old.items faults.new.items) }
{
    for placed in found {
        let place = joined.place_of(placed.position);
        add_placed(alloc, sources, place, &placed.fault, faults)?;
    }
    Ok(())
}

// Adds a fault of the definitions.
fn add_placed<M: fmt::Display>(
    alloc: Global,
    sources: &[Source],
    place: Place,
    message: &M,
    faults: &mut Vec<Fault>,
) -> Result<(), OutOfMemory>
    ensures { OnOk result
        (AddsFault (IsToldAt sources.now place (M.output message.now)) faults.old.items faults.new.items) }
{
    faults.push(placed_fault(alloc, sources, place, message)?)?;
    Ok(())
}

/// A fault of the definitions. Those of an introspection result are not its text, so they have no places in it.
pub(crate) fn placed_fault<M: fmt::Display>(
    alloc: Global,
    sources: &[Source],
    place: Place,
    message: &M,
) -> Result<Fault, OutOfMemory>
    ensures { IfOk result (IsToldAt sources.now place (M.output message.now)) }
{
    if is_object_text(text_of(sources, place.file)) {
        return Fault::new(alloc, path_of(sources, place.file), "", None, message);
    }
    fault_in_line(alloc, sources, place, message)
}

// A fault with its line alone, since a long file may have many.
fn fault_in_line<M: fmt::Display>(
    alloc: Global,
    sources: &[Source],
    place: Place,
    message: &M,
) -> Result<Fault, OutOfMemory>
    ensures { IfOk result (IsToldInLine sources.now place (M.output message.now)) }
{
    let (path, text) = (path_of(sources, place.file), text_of(sources, place.file));
    let line = line_of(text, place.position);
    Fault::new(alloc, path, line, Some(in_line(place.position)), message)
}

/// Adds a further place to a fault of the definitions, with its line alone, unless they are an introspection result.
///
/// # Errors
///
/// Out of memory.
pub(crate) fn add_further(
    alloc: Global,
    sources: &[Source],
    place: Place,
    fault: &mut Fault,
) -> Result<(), OutOfMemory>
    ensures { OnOk result (HasFurther sources.now place fault.old fault.new) }
{
    let (path, text) = (path_of(sources, place.file), text_of(sources, place.file));
    if is_object_text(text) {
        return Ok(());
    }
    let line = line_of(text, place.position);
    fault.add_place(alloc, path, line, in_line(place.position))
}

// A position in its line alone.
fn in_line(position: SourcePosition) -> SourcePosition
    ensures { IsInLine position result }
{
    let column = position.column();
    SourcePosition::new(column, position.line(), column)
}
