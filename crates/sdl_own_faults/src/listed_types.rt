//! A type implements an interface once, and not itself; a union has each member once (GraphQL, October 2021, sections
//! 3.6 to 3.8).
ghost use Rattle.std.specs.Prelude.{◌≡◌, ◌++◌, [], OnOk};
ghost use Rattle.language_types.specs.References.{list_copied};
ghost use Rattle.sdl_directives.specs.Earlier.{each_after};
ghost use Rattle.type_system_report.specs.Fault.{kind_value};
ghost use Rattle.sdl_own_faults.specs.Fault.{reported};
ghost use Rattle.sdl_own_faults.specs.ListedTypes.{is_interface, listed_again, own_interface, repeated_kind};
ghost use Rattle.sdl_own_faults.specs.ListedTypes.{wrong_entries, wrong_entry};
ghost use Rattle.sdl_own_faults.specs.Parts.{definitions_of};

use crate::fault::{OwnFault, report};
use crate::names::{is_name_among, listed_names};
use crate::parts::Part;
use graphql_reader::type_system::{TypeBody, TypeDefinition};
use language_types::error::OutOfMemory;
use std::alloc::Global;
use type_system_report::{CoordinateOf, FaultKind, FaultKindOf};

/// Reports each interface that a type implements, or each member of a union, that stands there before, and an interface
/// that is the type itself. `listing` has the extensions that list types.
pub(crate) fn report_wrong_entries<'d, 't>(
    alloc: Global,
    faults: &mut Vec<OwnFault<'d>>,
    defined: &'d TypeDefinition<'t>,
    listing: &[Part<'d, 't>],
) -> Result<(), OutOfMemory>
    ensures { OnOk result (reported faults.new ≡ reported faults.old
        ++ wrong_entries defined.now (definitions_of listing.now)) }
{
    let names = listed_names(alloc, defined, listing)?;
    report_entries(faults, defined, names.as_slice())
}

fn report_entries<'d, 't>(
    faults: &mut Vec<OwnFault<'d>>,
    defined: &'d TypeDefinition<'t>,
    names: &[&'d str],
) -> Result<(), OutOfMemory>
    ensures { OnOk result (reported faults.new ≡ reported faults.old
        ++ each_after (wrong_entry defined.now) [] (list_copied names.now)) }
{
    for (index, name) in names.iter().enumerate() {
        report_wrong_entry(faults, defined, &names[..index], *name)?;
    }
    Ok(())
}

fn report_wrong_entry<'d, 't>(
    faults: &mut Vec<OwnFault<'d>>,
    defined: &'d TypeDefinition<'t>,
    before: &[&'d str],
    name: &'d str,
) -> Result<(), OutOfMemory>
    ensures { OnOk result (reported faults.new ≡ reported faults.old
        ++ wrong_entry defined.now (list_copied before.now) name.now) }
{
    report_listed_again(faults, defined, before, name)?;
    report_own_interface(faults, defined, name)
}

fn report_listed_again<'d, 't>(
    faults: &mut Vec<OwnFault<'d>>,
    defined: &'d TypeDefinition<'t>,
    before: &[&'d str],
    name: &'d str,
) -> Result<(), OutOfMemory>
    ensures { OnOk result (reported faults.new ≡ reported faults.old
        ++ listed_again defined.now (list_copied before.now) name.now) }
{
    if is_name_among(before, name) {
        let at = CoordinateOf::Type(defined.name.item);
        report(
            faults,
            &defined.name,
            at,
            repeated_kind(&defined.body, name),
        )?;
    }
    Ok(())
}

fn repeated_kind<'d>(body: &TypeBody<'_>, name: &'d str) -> FaultKind<'d>
    ensures { kind_value result ≡ repeated_kind body.now name.now }
{
    match body {
        TypeBody::Union(_) => FaultKindOf::RepeatedMember(name),
        _ => FaultKindOf::RepeatedInterface(name),
    }
}

fn report_own_interface<'d, 't>(
    faults: &mut Vec<OwnFault<'d>>,
    defined: &'d TypeDefinition<'t>,
    name: &str,
) -> Result<(), OutOfMemory>
    ensures { OnOk result (reported faults.new ≡ reported faults.old ++ own_interface defined.now name.now) }
{
    let of = defined.name.item;
    if is_interface(&defined.body) && of == name {
        report(
            faults,
            &defined.name,
            CoordinateOf::Type(of),
            FaultKindOf::OwnInterface,
        )?;
    }
    Ok(())
}

fn is_interface(body: &TypeBody<'_>) -> bool
    ensures { result ≡ is_interface body.now }
{
    matches!(body, TypeBody::Interface(_))
}
