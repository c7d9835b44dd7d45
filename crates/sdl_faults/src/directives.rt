//! The faults of the directives of a schema's text.
ghost use Rattle.std.specs.Prelude.{OnOk};
ghost use Rattle.sdl_faults.specs.Text.{AreCircles, AreDirectiveFaults, AreGivenFaults, ArePlainFaults, AreUses};
ghost use Rattle.sdl_faults.specs.Told.{Adds};

use crate::located::LocatedFault;
use crate::telling::tell_each;
use graphql_reader::SourceScalar;
use graphql_reader::type_system::TypeSystemDefinition;
use language_types::error::OutOfMemory;
use schema::model::SchemaType;
use sdl_directive_circles::directive_circles;
use sdl_directive_values::directive_value_faults;
use sdl_directives::directive_faults;
use std::alloc::Global;

/// Appends the faults of the directives of a document, those of the values of their arguments last.
pub(crate) fn add_directive_faults<'d, 't>(
    alloc: Global,
    document: &'d [TypeSystemDefinition<'t>],
    standard: &'d [TypeSystemDefinition<'t>],
    schema: &SchemaType<SourceScalar>,
    told: &mut Vec<LocatedFault>,
) -> Result<(), OutOfMemory>
    ensures { OnOk result (Adds (AreDirectiveFaults document.now standard.now schema.now)
        told.old.items told.new.items) }
{
    add_plain_faults(alloc, document, standard, told)?;
    add_given(alloc, document, standard, schema, told)
}

/// Appends those for which no schema is needed: of the directives that stand there, and of those that refer to
/// themselves.
pub(crate) fn add_plain_faults<'d, 't>(
    alloc: Global,
    document: &'d [TypeSystemDefinition<'t>],
    standard: &'d [TypeSystemDefinition<'t>],
    told: &mut Vec<LocatedFault>,
) -> Result<(), OutOfMemory>
    ensures { OnOk result (Adds (ArePlainFaults document.now standard.now) told.old.items told.new.items) }
{
    add_uses(alloc, document, standard, told)?;
    add_circles(alloc, document, told)
}

fn add_uses<'d, 't>(
    alloc: Global,
    document: &'d [TypeSystemDefinition<'t>],
    standard: &'d [TypeSystemDefinition<'t>],
    told: &mut Vec<LocatedFault>,
) -> Result<(), OutOfMemory>
    ensures { OnOk result (Adds (AreUses document.now standard.now) told.old.items told.new.items) }
{
    let faults = directive_faults(alloc, document, standard)?;
    tell_each(alloc, document, faults.as_slice(), told)?;
    Ok(())
}

/// Appends those of the values of their arguments.
pub(crate) fn add_given<'d, 't>(
    alloc: Global,
    document: &'d [TypeSystemDefinition<'t>],
    standard: &'d [TypeSystemDefinition<'t>],
    schema: &SchemaType<SourceScalar>,
    told: &mut Vec<LocatedFault>,
) -> Result<(), OutOfMemory>
    ensures { OnOk result (Adds (AreGivenFaults document.now standard.now schema.now)
        told.old.items told.new.items) }
{
    let faults = directive_value_faults(alloc, document, standard, schema)?;
    tell_each(alloc, document, faults.as_slice(), told)?;
    Ok(())
}

fn add_circles(
    alloc: Global,
    document: &[TypeSystemDefinition<'_>],
    told: &mut Vec<LocatedFault>,
) -> Result<(), OutOfMemory>
    ensures { OnOk result (Adds (AreCircles document.now) told.old.items told.new.items) }
{
    let circles = directive_circles(alloc, document)?;
    tell_each(alloc, document, circles.as_slice(), told)?;
    Ok(())
}
