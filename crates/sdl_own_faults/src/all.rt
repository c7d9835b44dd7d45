//! The list of faults of a document.
ghost use Rattle.std.specs.Prelude.{◌≡◌, ◌++◌, IfOk, OnOk};
ghost use Rattle.std.specs.List.{flat_map};
ghost use Rattle.sdl_own_faults.specs.All.{definition_faults, directive_faults, own_faults, type_faults, whole_faults};
ghost use Rattle.sdl_own_faults.specs.Fault.{reported};
ghost use Rattle.sdl_own_faults.specs.Parts.{definitions_of};

use crate::fault::OwnFault;
use crate::listed_types::report_wrong_entries;
use crate::members::{report_members, report_parameters};
use crate::parts::{Part, extensions_in, listing_in};
use crate::reserved_names::{report_reserved_name, report_reserved_type};
use crate::some_members::report_missing_members;
use graphql_reader::type_system::{DirectiveDefinition, TypeDefinition, TypeSystemDefinition};
use language_types::error::OutOfMemory;
use std::alloc::Global;
use type_system_report::CoordinateOf;

/// The faults of a document that hang on no other definition, definition by definition, each at its place: names that
/// are reserved, types without members, interfaces and members of unions that stand twice, interfaces that implement
/// themselves, and required arguments and input fields that are deprecated.
///
/// Each definition of a type is judged, also of a name that has several, with all extensions of its name and kind. It
/// takes time in proportion to the length of the document, to the number of types times that of the extensions that
/// list interfaces or members of unions, and to the number of types without members times that of all extensions.
///
/// # Errors
///
/// Out of memory.
pub fn own_faults<'d, 't>(
    alloc: Global,
    document: &'d [TypeSystemDefinition<'t>],
) -> Result<Vec<OwnFault<'d>>, OutOfMemory>
    ensures { IfOk result (λ v. reported v ≡ own_faults document.now) }
{
    let extensions = extensions_in(alloc, document)?;
    let listing = listing_in(alloc, extensions.as_slice())?;
    let mut faults = Vec::new(alloc);
    report_definitions(
        alloc,
        &mut faults,
        extensions.as_slice(),
        listing.as_slice(),
        document,
    )?;
    Ok(faults)
}

fn report_definitions<'d, 't>(
    alloc: Global,
    faults: &mut Vec<OwnFault<'d>>,
    extensions: &[Part<'d, 't>],
    listing: &[Part<'d, 't>],
    document: &'d [TypeSystemDefinition<'t>],
) -> Result<(), OutOfMemory>
    ensures { OnOk result (reported faults.new ≡ reported faults.old
        ++ flat_map (definition_faults (definitions_of extensions.now) (definitions_of listing.now)) document.now) }
{
    for definition in document {
        report_definition(alloc, faults, extensions, listing, definition)?;
    }
    Ok(())
}

fn report_definition<'d, 't>(
    alloc: Global,
    faults: &mut Vec<OwnFault<'d>>,
    extensions: &[Part<'d, 't>],
    listing: &[Part<'d, 't>],
    definition: &'d TypeSystemDefinition<'t>,
) -> Result<(), OutOfMemory>
    ensures { OnOk result (reported faults.new ≡ reported faults.old
        ++ definition_faults (definitions_of extensions.now) (definitions_of listing.now) definition.now) }
{
    match definition {
        TypeSystemDefinition::Schema(_) => Ok(()),
        TypeSystemDefinition::Type(defined) => {
            report_type(alloc, faults, extensions, listing, &defined.item)
        }
        TypeSystemDefinition::Directive(defined) => report_directive(faults, &defined.item),
    }
}

// Reports the faults of a definition or extension of a type.
fn report_type<'d, 't>(
    alloc: Global,
    faults: &mut Vec<OwnFault<'d>>,
    extensions: &[Part<'d, 't>],
    listing: &[Part<'d, 't>],
    defined: &'d TypeDefinition<'t>,
) -> Result<(), OutOfMemory>
    ensures { OnOk result (reported faults.new ≡ reported faults.old
        ++ type_faults (definitions_of extensions.now) (definitions_of listing.now) defined.now) }
{
    report_members(faults, defined)?;
    if defined.is_extension {
        return Ok(());
    }
    report_whole(alloc, faults, extensions, listing, defined)
}

// Reports the faults of a definition with those of the extensions that extend it.
fn report_whole<'d, 't>(
    alloc: Global,
    faults: &mut Vec<OwnFault<'d>>,
    extensions: &[Part<'d, 't>],
    listing: &[Part<'d, 't>],
    defined: &'d TypeDefinition<'t>,
) -> Result<(), OutOfMemory>
    ensures { OnOk result (reported faults.new ≡ reported faults.old
        ++ whole_faults (definitions_of extensions.now) (definitions_of listing.now) defined.now) }
{
    report_reserved_type(faults, defined)?;
    report_missing_members(faults, defined, extensions)?;
    report_wrong_entries(alloc, faults, defined, listing)
}

// Reports the faults of a directive and its arguments.
fn report_directive<'d, 't>(
    faults: &mut Vec<OwnFault<'d>>,
    defined: &'d DirectiveDefinition<'t>,
) -> Result<(), OutOfMemory>
    ensures { OnOk result (reported faults.new ≡ reported faults.old ++ directive_faults defined.now) }
{
    let at = CoordinateOf::Directive(defined.name.item);
    report_reserved_name(faults, &defined.name, at)?;
    report_parameters(faults, at, defined.arguments.as_slice())
}
