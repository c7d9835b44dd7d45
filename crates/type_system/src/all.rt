//! The lists of faults of a type system.
ghost use Rattle.std.specs.Prelude.{◌≡◌, ◌++◌, List, IfOk, OnOk};
ghost use Rattle.std.specs.List.{flat_map};
ghost use Rattle.std.specs.List.Sorted.{IsPermutation, IsSorted};
ghost use Rattle.language_types.specs.References.{list_copied};
ghost use Rattle.schema.specs.Ordered.{directive_cmp};
ghost use Rattle.schema_validation.specs.declared.directives.DirectiveType.{DirectiveType};
ghost use Rattle.type_system.specs.All.{all_faults, directive_faults, member_faults, own_faults, type_faults};
ghost use Rattle.type_system_report.specs.Fault.{reported};

use crate::output_types::report_wrong_output_types;
use crate::required_members::{report_deprecated_directive, report_deprecated_members};
use crate::reserved_names::{report_reserved_directive, report_reserved_names};
use crate::reserved_values::report_reserved_values;
use crate::root_types::report_shared_roots;
use crate::some_fields::report_missing_fields;
use crate::some_locations::report_missing_locations;
use crate::some_members::report_missing_members;
use crate::some_values::report_missing_values;
use crate::unique_members::report_repeated_members;
use language::error::OutOfMemory;
use schema::meta::MetaTypeOf;
use schema::model::{DirectiveType, SchemaTypeOf};
use std::alloc::Global;
use type_system_interfaces::report_interface_faults;
use type_system_report::Fault;

/// The faults of a schema: first those of its roots and types, as [`type_system_faults`] has them, and then those of
/// its directives, in the order of their names.
///
/// # Errors
///
/// Out of memory.
pub fn schema_faults<'a, S: Drop, C: Drop>(
    alloc: Global,
    schema: &'a SchemaTypeOf<S, C>,
) -> Result<Vec<Fault<'a>>, OutOfMemory>
    ensures { IfOk result (λ v. (ds : List (DirectiveType S)) × IsPermutation schema.now.directives ds
        × IsSorted directive_cmp ds × (reported v ≡ all_faults schema.now ++ flat_map directive_faults ds)) }
{
    let mut faults = type_system_faults(alloc, schema)?;
    let directives = schema.directive_list(alloc)?;
    report_directives(&mut faults, directives.as_slice())?;
    Ok(faults)
}

/// The faults of the roots and the types of a schema: first two roots that are one type, then those of each
/// type, in the order of the list that made the schema. Those of directives are [`directive_faults`].
///
/// # Errors
///
/// Out of memory.
pub fn type_system_faults<'a, S, C>(
    alloc: Global,
    schema: &'a SchemaTypeOf<S, C>,
) -> Result<Vec<Fault<'a>>, OutOfMemory>
    ensures { IfOk result (λ v. reported v ≡ all_faults schema.now) }
{
    let mut faults = Vec::new(alloc);
    report_shared_roots(&mut faults, schema)?;
    let types = schema.concrete_type_list(alloc)?;
    report_types(&mut faults, schema, types.as_slice())?;
    Ok(faults)
}

/// The faults of a directive of a schema: the reserved names, of the directive and then of its arguments,
/// whether it has no location, and the required arguments that are deprecated.
///
/// # Errors
///
/// Out of memory.
pub fn directive_faults<'a, S>(
    alloc: Global,
    directive: &'a DirectiveType<S>,
) -> Result<Vec<Fault<'a>>, OutOfMemory>
    ensures { IfOk result (λ v. reported v ≡ directive_faults directive.now) }
{
    let mut faults = Vec::new(alloc);
    report_directive(&mut faults, directive)?;
    Ok(faults)
}

fn report_directives<'a, S>(
    faults: &mut Vec<Fault<'a>>,
    directives: &[&'a DirectiveType<S>],
) -> Result<(), OutOfMemory>
    ensures { OnOk result (reported faults.new ≡ reported faults.old
        ++ flat_map directive_faults (list_copied directives.now)) }
{
    for directive in directives {
        report_directive(faults, *directive)?;
    }
    Ok(())
}

fn report_directive<'a, S>(
    faults: &mut Vec<Fault<'a>>,
    directive: &'a DirectiveType<S>,
) -> Result<(), OutOfMemory>
    ensures { OnOk result (reported faults.new ≡ reported faults.old ++ directive_faults directive.now) }
{
    report_reserved_directive(faults, directive)?;
    report_missing_locations(faults, directive)?;
    report_deprecated_directive(faults, directive)
}

fn report_types<'a, S, C>(
    faults: &mut Vec<Fault<'a>>,
    schema: &'a SchemaTypeOf<S, C>,
    types: &[&'a MetaTypeOf<S, C>],
) -> Result<(), OutOfMemory>
    ensures { OnOk result (reported faults.new ≡ reported faults.old
        ++ flat_map (type_faults schema.now) (list_copied types.now)) }
{
    for meta in types {
        report_type(faults, schema, *meta)?;
    }
    Ok(())
}

fn report_type<'a, S, C>(
    faults: &mut Vec<Fault<'a>>,
    schema: &'a SchemaTypeOf<S, C>,
    meta: &'a MetaTypeOf<S, C>,
) -> Result<(), OutOfMemory>
    ensures { OnOk result (reported faults.new ≡ reported faults.old ++ type_faults schema.now meta.now) }
{
    report_own_faults(faults, schema, meta)?;
    report_wrong_output_types(faults, schema, meta)?;
    report_interface_faults(faults, schema, meta)?;
    report_member_faults(faults, meta)
}

// Reports the faults of members that are there.
fn report_member_faults<'a, S, C>(
    faults: &mut Vec<Fault<'a>>,
    meta: &'a MetaTypeOf<S, C>,
) -> Result<(), OutOfMemory>
    ensures { OnOk result (reported faults.new ≡ reported faults.old ++ member_faults meta.now) }
{
    report_repeated_members(faults, meta)?;
    report_reserved_values(faults, meta)?;
    report_deprecated_members(faults, meta)
}

// Reports the faults of names and of members that are missing.
fn report_own_faults<'a, S, C>(
    faults: &mut Vec<Fault<'a>>,
    schema: &'a SchemaTypeOf<S, C>,
    meta: &'a MetaTypeOf<S, C>,
) -> Result<(), OutOfMemory>
    ensures { OnOk result (reported faults.new ≡ reported faults.old ++ own_faults schema.now meta.now) }
{
    report_reserved_names(faults, schema, meta)?;
    report_missing_fields(faults, schema, meta)?;
    report_missing_values(faults, meta)?;
    report_missing_members(faults, meta)
}
