//! What is wrong with a schema as a type system (GraphQL, October 2021, section 3).
ghost use Rattle.std.specs.Prelude.{◌≡◌, IfOk, OnOk, Some, string_bytes};
ghost use Rattle.lint_schema.specs.Judged.{AddsLocated, AddsMendedFaults, AddsPlainFaults, AddsTypeSystemFaults};
ghost use Rattle.lint_schema.specs.Judged.{IsToldIn, IsToldLocated};
ghost use Rattle.lint_schema.specs.Told.{AddsFault, HasAllFurther};

use crate::faults::{add_further, placed_fault};
use graphql_reader::SourceScalar;
use graphql_reader::type_system::TypeSystemDefinition;
use language_types::error::OutOfMemory;
use language_types::position::SourcePosition;
use lint_sources::faults::Fault;
use lint_sources::sources::{Joined, Source, path_of};
use schema::model::SchemaType;
use sdl_faults::{LocatedFault, plain_text_faults, rest_of_text_faults, text_faults};
use sdl_mending::Mended;
use std::alloc::Global;

/// Adds the faults of a schema, in the order of the text from which it was read: the definitions of several files,
/// joined to one text. Each is told in its file and at its place there. `standard` defines the directives that each
/// schema may use.
///
/// # Errors
///
/// Out of memory, also in a check; some of the faults may be added then.
pub fn add_type_system_faults<'d, 't>(
    alloc: Global,
    sources: &[Source],
    joined: &Joined,
    document: &'d [TypeSystemDefinition<'t>],
    standard: &'d [TypeSystemDefinition<'t>],
    schema: &SchemaType<SourceScalar>,
    faults: &mut Vec<Fault>,
) -> Result<(), OutOfMemory>
    ensures { OnOk result (AddsTypeSystemFaults sources.now joined.now document.now standard.now schema.now
        faults.old.items faults.new.items) }
{
    let found = text_faults(alloc, document, standard, schema)?;
    add_located(alloc, sources, joined, found.as_slice(), faults)?;
    Ok(())
}

/// Adds the faults of these definitions for which no schema is needed, where they make none.
///
/// # Errors
///
/// Out of memory; some of the faults may be added then.
pub fn add_plain_faults<'d, 't>(
    alloc: Global,
    sources: &[Source],
    joined: &Joined,
    document: &'d [TypeSystemDefinition<'t>],
    standard: &'d [TypeSystemDefinition<'t>],
    faults: &mut Vec<Fault>,
) -> Result<(), OutOfMemory>
    ensures { OnOk result (AddsPlainFaults sources.now joined.now document.now standard.now
        faults.old.items faults.new.items) }
{
    let found = plain_text_faults(alloc, document, standard)?;
    add_located(alloc, sources, joined, found.as_slice(), faults)?;
    Ok(())
}

/// Adds these, and the faults of what is left of the definitions where that is left out which makes them no schema.
///
/// # Errors
///
/// Out of memory, also in a check; some of the faults may be added then.
pub fn add_mended_faults<'d, 't>(
    alloc: Global,
    sources: &[Source],
    joined: &Joined,
    document: &'d [TypeSystemDefinition<'t>],
    standard: &'d [TypeSystemDefinition<'t>],
    mended: &'d Mended<'t>,
    faults: &mut Vec<Fault>,
) -> Result<(), OutOfMemory>
    ensures { OnOk result (AddsMendedFaults sources.now joined.now document.now standard.now mended.now
        faults.old.items faults.new.items) }
{
    let found = rest_of_text_faults(alloc, document, standard, mended)?;
    add_located(alloc, sources, joined, found.as_slice(), faults)?;
    Ok(())
}

// Adds each fault that was found, in order.
fn add_located(
    alloc: Global,
    sources: &[Source],
    joined: &Joined,
    found: &[LocatedFault],
    faults: &mut Vec<Fault>,
) -> Result<(), OutOfMemory>
    ensures { OnOk result (AddsLocated sources.now joined.now found.now faults.old.items faults.new.items) }
{
    for located in found {
        add_one(alloc, sources, joined, located, faults)?;
    }
    Ok(())
}

// Adds a fault with all its places.
fn add_one(
    alloc: Global,
    sources: &[Source],
    joined: &Joined,
    located: &LocatedFault,
    faults: &mut Vec<Fault>,
) -> Result<(), OutOfMemory>
    ensures { OnOk result (AddsFault (IsToldLocated sources.now joined.now located.now) faults.old.items
        faults.new.items) }
{
    let mut fault = first_told(alloc, sources, joined, located)?;
    add_others(
        alloc,
        sources,
        joined,
        located.others.as_slice(),
        &mut fault,
    )?;
    faults.push(fault)?;
    Ok(())
}

// A fault at its first place. One without a place is a fault of the first file.
fn first_told(
    alloc: Global,
    sources: &[Source],
    joined: &Joined,
    located: &LocatedFault,
) -> Result<Fault, OutOfMemory>
    ensures { IfOk result (IsToldIn sources.now joined.now (Some (string_bytes located.now.message))
        located.now.position) }
{
    match located.position {
        Some(position) => {
            let place = joined.place_of(position);
            placed_fault(alloc, sources, place, &located.message)
        }
        None => Fault::new(alloc, path_of(sources, 0), "", None, &located.message),
    }
}

// Adds the further places of a fault.
fn add_others(
    alloc: Global,
    sources: &[Source],
    joined: &Joined,
    others: &[SourcePosition],
    fault: &mut Fault,
) -> Result<(), OutOfMemory>
    ensures { OnOk result (HasAllFurther sources.now joined.now others.now fault.old fault.new) }
{
    for position in others {
        let place = joined.place_of(*position);
        add_further(alloc, sources, place, fault)?;
    }
    Ok(())
}
