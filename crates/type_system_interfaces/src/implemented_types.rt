//! What a type implements is an interface, once, and not itself (GraphQL, October 2021, sections 3.6 and 3.7).
ghost use Rattle.std.specs.Prelude.{◌≡◌, ◌++◌, OnOk, map, string_bytes};
ghost use Rattle.type_system_report.specs.Fault.{reported};
ghost use Rattle.type_system_interfaces.specs.ImplementedTypes.{implemented_again, is_interface, is_interface_named, no_interface};
ghost use Rattle.type_system_interfaces.specs.ImplementedTypes.{own_interface, wrong_entry, wrong_interfaces};

use crate::listed::is_text_among;
use crate::members::{interface_names, type_name};
use language_types::error::OutOfMemory;
use schema::meta::MetaTypeOf;
use schema::model::SchemaTypeOf;
use type_system_report::report::report;
use type_system_report::{CoordinateOf, Fault, FaultKindOf};

/// Reports each entry of what a type implements that is no interface, stands again further on, or is
/// the type itself.
pub(crate) fn report_wrong_interfaces<'a, S, C>(
    faults: &mut Vec<Fault<'a>>,
    schema: &SchemaTypeOf<S, C>,
    meta: &'a MetaTypeOf<S, C>,
) -> Result<(), OutOfMemory>
    ensures { OnOk result (reported faults.new ≡ reported faults.old ++ wrong_interfaces schema.now meta.now) }
{
    let mut rest = interface_names(meta);
    while let Some((name, others)) = rest.split_first() {
        report_wrong_entry(faults, schema, meta, name.as_str(), others)?;
        rest = others;
    }
    Ok(())
}

fn report_wrong_entry<'a, S, C>(
    faults: &mut Vec<Fault<'a>>,
    schema: &SchemaTypeOf<S, C>,
    meta: &'a MetaTypeOf<S, C>,
    name: &'a str,
    others: &[String],
) -> Result<(), OutOfMemory>
    ensures { OnOk result (reported faults.new ≡ reported faults.old
        ++ wrong_entry schema.now meta.now name.now (map string_bytes others.now)) }
{
    report_no_interface(faults, schema, meta, name)?;
    report_implemented_again(faults, meta, name, others)?;
    report_own_interface(faults, meta, name)
}

fn report_no_interface<'a, S, C>(
    faults: &mut Vec<Fault<'a>>,
    schema: &SchemaTypeOf<S, C>,
    meta: &'a MetaTypeOf<S, C>,
    name: &'a str,
) -> Result<(), OutOfMemory>
    ensures { OnOk result (reported faults.new ≡ reported faults.old ++ no_interface schema.now meta.now name.now) }
{
    if !is_interface_named(schema, name) {
        let at = CoordinateOf::Type(type_name(meta));
        report(faults, at, FaultKindOf::NotInterface(name))?;
    }
    Ok(())
}

fn report_implemented_again<'a, S, C>(
    faults: &mut Vec<Fault<'a>>,
    meta: &'a MetaTypeOf<S, C>,
    name: &'a str,
    others: &[String],
) -> Result<(), OutOfMemory>
    ensures { OnOk result (reported faults.new ≡ reported faults.old
        ++ implemented_again meta.now name.now (map string_bytes others.now)) }
{
    if is_text_among(others, name) {
        let at = CoordinateOf::Type(type_name(meta));
        report(faults, at, FaultKindOf::RepeatedInterface(name))?;
    }
    Ok(())
}

fn report_own_interface<'a, S, C>(
    faults: &mut Vec<Fault<'a>>,
    meta: &'a MetaTypeOf<S, C>,
    name: &str,
) -> Result<(), OutOfMemory>
    ensures { OnOk result (reported faults.new ≡ reported faults.old ++ own_interface meta.now name.now) }
{
    if is_interface(meta) && type_name(meta) == name {
        let at = CoordinateOf::Type(type_name(meta));
        report(faults, at, FaultKindOf::OwnInterface)?;
    }
    Ok(())
}

fn is_interface_named<S, C>(schema: &SchemaTypeOf<S, C>, name: &str) -> bool
    ensures { result ≡ is_interface_named schema.now name.now }
{
    match schema.concrete_type_by_name(name) {
        Some(meta) => is_interface(meta),
        None => false,
    }
}

fn is_interface<S, C>(meta: &MetaTypeOf<S, C>) -> bool
    ensures { result ≡ is_interface meta.now }
{
    matches!(meta, MetaTypeOf::Interface(_))
}
