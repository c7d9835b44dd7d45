//! The faults of the directives of a document.
ghost use Rattle.std.specs.Prelude.{◌≡◌, ◌++◌, ◌↔◌, [], IfOk, OnOk};
ghost use Rattle.std.specs.List.{flat_map};
ghost use Rattle.sdl_directives.specs.Earlier.{each_after};
ghost use Rattle.sdl_directives.specs.Fault.{fault_values};
ghost use Rattle.sdl_directives.specs.Judged.{document_faults, has_name, is_repeated, judged, judged_known, misplaced};
ghost use Rattle.sdl_directives.specs.Judged.{repeated, site_faults};
ghost use Rattle.sdl_directives.specs.Known.{definitions_of};
ghost use Rattle.sdl_directives.specs.Right.{HasRightDirectives};
ghost use Rattle.sdl_directives.specs.Sites.{site_value};

use crate::arguments::{report_arguments, report_missing};
use crate::fault::{DirectiveFaultOf, PlacedDirectiveFault, report};
use crate::known::{Known, directive_named, known_directives};
use crate::locations::is_listed;
use crate::sites::{Site, sites_of};
use graphql_reader::SourceScalar;
use graphql_reader::type_system::{DirectiveDefinition, DirectivePlace, TypeSystemDefinition};
use language::error::OutOfMemory;
use language::position::Spanning;
use language::tree::Directive;
use std::alloc::Global;

/// The faults of the directives of a document, directive by directive in the order of the text. `standard` defines the
/// directives that each document may use, as [`crate::STANDARD_DIRECTIVES`].
///
/// Values of arguments are not judged.
///
/// # Errors
///
/// Out of memory.
pub fn directive_faults<'d, 't>(
    alloc: Global,
    document: &'d [TypeSystemDefinition<'t>],
    standard: &'d [TypeSystemDefinition<'t>],
) -> Result<Vec<PlacedDirectiveFault<'d>>, OutOfMemory>
    ensures all { IfOk result (λ v. fault_values v.items ≡ document_faults document.now standard.now) }
    ensures none { IfOk result (λ v. (v.items ≡ []) ↔ HasRightDirectives document.now standard.now) }
{
    let known = known_directives(alloc, document, standard)?;
    let sites = sites_of(alloc, document)?;
    let mut faults = Vec::new(alloc);
    report_sites(&mut faults, known.as_slice(), sites.as_slice())?;
    Ok(faults)
}

fn report_sites<'d, 't>(
    faults: &mut Vec<PlacedDirectiveFault<'d>>,
    known: &[Known<'d, 't>],
    sites: &[Site<'d, 't>],
) -> Result<(), OutOfMemory>
    ensures { OnOk result (fault_values faults.new.items ≡ fault_values faults.old.items
        ++ flat_map (λ s. site_faults (definitions_of known.now) (site_value s)) sites.now) }
{
    for site in sites {
        report_listed(faults, known, site.location, site.directives)?;
    }
    Ok(())
}

// Reports the faults of directives that stand together.
fn report_listed<'d, 't>(
    faults: &mut Vec<PlacedDirectiveFault<'d>>,
    known: &[Known<'d, 't>],
    location: DirectivePlace,
    directives: &'d [Spanning<Directive<'t, SourceScalar>>],
) -> Result<(), OutOfMemory>
    ensures { OnOk result (fault_values faults.new.items ≡ fault_values faults.old.items
        ++ each_after (judged (definitions_of known.now) location) [] directives.now) }
{
    for (index, directive) in directives.iter().enumerate() {
        report_directive(faults, known, location, &directives[..index], directive)?;
    }
    Ok(())
}

fn report_directive<'d, 't>(
    faults: &mut Vec<PlacedDirectiveFault<'d>>,
    known: &[Known<'d, 't>],
    location: DirectivePlace,
    before: &[Spanning<Directive<'t, SourceScalar>>],
    directive: &'d Spanning<Directive<'t, SourceScalar>>,
) -> Result<(), OutOfMemory>
    ensures { OnOk result (fault_values faults.new.items ≡ fault_values faults.old.items
        ++ judged (definitions_of known.now) location before.now directive.now) }
{
    let name = directive.item.name.item;
    match directive_named(known, name) {
        Some(defined) => report_known(faults, defined, location, before, directive),
        None => report(
            faults,
            directive.span.start,
            DirectiveFaultOf::Unknown(name),
        ),
    }
}

// Reports the faults of a directive that is defined.
fn report_known<'d, 't>(
    faults: &mut Vec<PlacedDirectiveFault<'d>>,
    defined: &'d DirectiveDefinition<'t>,
    location: DirectivePlace,
    before: &[Spanning<Directive<'t, SourceScalar>>],
    directive: &'d Spanning<Directive<'t, SourceScalar>>,
) -> Result<(), OutOfMemory>
    ensures { OnOk result (fault_values faults.new.items ≡ fault_values faults.old.items
        ++ judged_known defined.now location before.now directive.now) }
{
    report_misplaced(faults, defined, location, directive)?;
    report_repeated(faults, defined, before, directive)?;
    report_arguments(faults, defined, &directive.item)?;
    report_missing(faults, defined, directive)
}

fn report_misplaced<'d, 't>(
    faults: &mut Vec<PlacedDirectiveFault<'d>>,
    defined: &'d DirectiveDefinition<'t>,
    location: DirectivePlace,
    directive: &'d Spanning<Directive<'t, SourceScalar>>,
) -> Result<(), OutOfMemory>
    ensures { OnOk result (fault_values faults.new.items ≡ fault_values faults.old.items
        ++ misplaced defined.now location directive.now) }
{
    if !is_listed(location, defined.locations.as_slice()) {
        let name = directive.item.name.item;
        let fault = DirectiveFaultOf::Misplaced(name, location);
        report(faults, directive.span.start, fault)?;
    }
    Ok(())
}

fn report_repeated<'d, 't>(
    faults: &mut Vec<PlacedDirectiveFault<'d>>,
    defined: &'d DirectiveDefinition<'t>,
    before: &[Spanning<Directive<'t, SourceScalar>>],
    directive: &'d Spanning<Directive<'t, SourceScalar>>,
) -> Result<(), OutOfMemory>
    ensures { OnOk result (fault_values faults.new.items ≡ fault_values faults.old.items
        ++ repeated defined.now before.now directive.now) }
{
    let name = directive.item.name.item;
    if is_repeated(defined, before, name) {
        report(
            faults,
            directive.span.start,
            DirectiveFaultOf::Repeated(name),
        )?;
    }
    Ok(())
}

// Whether a directive of this name stands before, though it is not repeatable.
fn is_repeated(
    defined: &DirectiveDefinition<'_>,
    before: &[Spanning<Directive<'_, SourceScalar>>],
    name: &str,
) -> bool
    ensures { result ≡ is_repeated defined.now before.now name.now }
{
    !defined.is_repeatable && has_name(before, name)
}

// Whether one of these directives has the name.
fn has_name(directives: &[Spanning<Directive<'_, SourceScalar>>], name: &str) -> bool
    ensures { result ≡ has_name name.now directives.now }
{
    for directive in directives {
        if directive.item.name.item == name {
            return true;
        }
    }
    false
}
