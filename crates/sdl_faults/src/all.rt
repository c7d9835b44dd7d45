//! All faults of a schema's text.
ghost use Rattle.std.specs.Prelude.{◌≡◌, ◌↔◌, [], IfOk, OnOk};
ghost use Rattle.std.specs.List.Sorted.{IsNonDecreasingBy, IsPermutation};
ghost use Rattle.sdl_faults.specs.Apart.{TellsRest};
ghost use Rattle.sdl_faults.specs.Schema.{AreCircles, AreDefaults, AreFaults, AreSchemaFaults};
ghost use Rattle.sdl_faults.specs.Text.{AreOwnFaults, TellsFaults, TellsPlainFaults};
ghost use Rattle.sdl_faults.specs.Told.{Adds, place_index};
ghost use Rattle.sdl_faults.specs.Valid.{IsValidText};

use crate::apart::add_apart_faults;
use crate::directives::{add_directive_faults, add_plain_faults};
use crate::located::LocatedFault;
use crate::telling::tell_each;
use graphql_reader::SourceScalar;
use graphql_reader::type_system::TypeSystemDefinition;
use language_types::error::OutOfMemory;
use schema::model::SchemaType;
use sdl_mending::Mended;
use sdl_own_faults::own_faults;
use std::alloc::Global;
use type_system::schema_faults;
use type_system_defaults::default_value_faults;
use type_system_inputs::input_circles;

/// The faults of a schema and of the document from which it was read, each at its place there, in the order of the
/// text. Faults that have no place in it come first. `standard` defines the directives that each document may use, as
/// `sdl_directives::STANDARD_DIRECTIVES`.
///
/// There is none if and only if the schema is a valid type system and the directives of the document are used rightly.
///
/// # Errors
///
/// Out of memory, also in a check.
pub fn text_faults<'d, 't>(
    alloc: Global,
    document: &'d [TypeSystemDefinition<'t>],
    standard: &'d [TypeSystemDefinition<'t>],
    schema: &SchemaType<SourceScalar>,
) -> Result<Vec<LocatedFault>, OutOfMemory>
    ensures told { IfOk result (λ told. TellsFaults document.now standard.now schema.now told.items) }
    ensures valid { IfOk result (λ told. (told.items ≡ []) ↔ IsValidText document.now standard.now schema.now) }
{
    let mut told = Vec::new(alloc);
    add_schema_faults(alloc, document, schema, &mut told)?;
    add_directive_faults(alloc, document, standard, schema, &mut told)?;
    sort_faults(&mut told)?;
    Ok(told)
}

/// The faults of a document for which no schema is needed, as where the document makes none: those of its definitions
/// that hang on no other definition, and those of its directives, each at its place, in the order of the text. Values
/// of arguments of directives are not judged.
///
/// # Errors
///
/// Out of memory.
pub fn plain_text_faults<'d, 't>(
    alloc: Global,
    document: &'d [TypeSystemDefinition<'t>],
    standard: &'d [TypeSystemDefinition<'t>],
) -> Result<Vec<LocatedFault>, OutOfMemory>
    ensures { IfOk result (λ told. TellsPlainFaults document.now standard.now told.items) }
{
    let mut told = Vec::new(alloc);
    add_own_faults(alloc, document, &mut told)?;
    add_plain_faults(alloc, document, standard, &mut told)?;
    sort_faults(&mut told)?;
    Ok(told)
}

/// The same, with the faults for which a schema is needed, as far as nothing touches them that makes the document none:
/// those of what is left where that is left out, told where they name no touched type, each at its place.
///
/// # Errors
///
/// Out of memory, also in a check.
pub fn rest_of_text_faults<'d, 't>(
    alloc: Global,
    document: &'d [TypeSystemDefinition<'t>],
    standard: &'d [TypeSystemDefinition<'t>],
    mended: &'d Mended<'t>,
) -> Result<Vec<LocatedFault>, OutOfMemory>
    ensures { IfOk result (λ told. TellsRest document.now standard.now mended.now told.items) }
{
    let mut told = Vec::new(alloc);
    add_own_faults(alloc, document, &mut told)?;
    add_plain_faults(alloc, document, standard, &mut told)?;
    add_apart_faults(alloc, mended, standard, &mut told)?;
    sort_faults(&mut told)?;
    Ok(told)
}

// Appends those of definitions that hang on no other.
fn add_own_faults<'d, 't>(
    alloc: Global,
    document: &'d [TypeSystemDefinition<'t>],
    told: &mut Vec<LocatedFault>,
) -> Result<(), OutOfMemory>
    ensures { OnOk result (Adds (AreOwnFaults document.now) told.old.items told.new.items) }
{
    let faults = own_faults(alloc, document)?;
    tell_each(alloc, document, faults.as_slice(), told)?;
    Ok(())
}

fn sort_faults(told: &mut Vec<LocatedFault>) -> Result<(), OutOfMemory>
    ensures permutation { IsPermutation told.old.items told.new.items }
    ensures sorted { OnOk result (IsNonDecreasingBy place_index told.new.items) }
{
    told.sort_by_key(|fault| fault.index())?;
    Ok(())
}

// Appends those of the schema.
fn add_schema_faults(
    alloc: Global,
    document: &[TypeSystemDefinition<'_>],
    schema: &SchemaType<SourceScalar>,
    told: &mut Vec<LocatedFault>,
) -> Result<(), OutOfMemory>
    ensures { OnOk result (Adds (AreSchemaFaults document.now schema.now) told.old.items told.new.items) }
{
    add_faults(alloc, document, schema, told)?;
    add_circles(alloc, document, schema, told)?;
    add_defaults(alloc, document, schema, told)
}

fn add_faults(
    alloc: Global,
    document: &[TypeSystemDefinition<'_>],
    schema: &SchemaType<SourceScalar>,
    told: &mut Vec<LocatedFault>,
) -> Result<(), OutOfMemory>
    ensures { OnOk result (Adds (AreFaults document.now schema.now) told.old.items told.new.items) }
{
    let faults = schema_faults(alloc, schema)?;
    tell_each(alloc, document, faults.as_slice(), told)?;
    Ok(())
}

/// Appends those of circles of input objects.
pub(crate) fn add_circles(
    alloc: Global,
    document: &[TypeSystemDefinition<'_>],
    schema: &SchemaType<SourceScalar>,
    told: &mut Vec<LocatedFault>,
) -> Result<(), OutOfMemory>
    ensures { OnOk result (Adds (AreCircles document.now schema.now) told.old.items told.new.items) }
{
    let circles = input_circles(alloc, schema)?;
    tell_each(alloc, document, circles.as_slice(), told)?;
    Ok(())
}

/// Appends those of default values.
pub(crate) fn add_defaults(
    alloc: Global,
    document: &[TypeSystemDefinition<'_>],
    schema: &SchemaType<SourceScalar>,
    told: &mut Vec<LocatedFault>,
) -> Result<(), OutOfMemory>
    ensures { OnOk result (Adds (AreDefaults document.now schema.now) told.old.items told.new.items) }
{
    let faults = default_value_faults(alloc, schema)?;
    tell_each(alloc, document, faults.as_slice(), told)?;
    Ok(())
}
