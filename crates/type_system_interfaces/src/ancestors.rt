//! A type implements what its interfaces implement (GraphQL, October 2021, sections 3.6 and 3.7).
ghost use Rattle.std.specs.Prelude.{◌≡◌, ◌++◌, OnOk, map, option_copied, string_bytes};
ghost use Rattle.std.specs.List.{flat_map};
ghost use Rattle.type_system_report.specs.Fault.{kind_value, reported};
ghost use Rattle.type_system_interfaces.specs.Ancestors.{unnamed, wrong_ancestor, wrong_ancestors, wrong_ancestors_at};
ghost use Rattle.type_system_interfaces.specs.Ancestors.{wrong_ancestors_by};

use crate::listed::is_text_among;
use crate::members::{interface_names, type_name};
use language_types::error::OutOfMemory;
use schema::meta::MetaTypeOf;
use schema::model::SchemaTypeOf;
use type_system_report::report::report;
use type_system_report::{CoordinateOf, Fault, FaultKind, FaultKindOf};

/// Reports each interface of an interface of the type that the type does not name. An interface that
/// the type names again is looked at once.
pub(crate) fn report_wrong_ancestors<'a, S, C>(
    faults: &mut Vec<Fault<'a>>,
    schema: &'a SchemaTypeOf<S, C>,
    meta: &'a MetaTypeOf<S, C>,
) -> Result<(), OutOfMemory>
    ensures { OnOk result (reported faults.new ≡ reported faults.old ++ wrong_ancestors meta.now schema.now) }
{
    let mut rest = interface_names(meta);
    while let Some((name, others)) = rest.split_first() {
        report_at_entry(faults, schema, meta, name.as_str(), others)?;
        rest = others;
    }
    Ok(())
}

fn report_at_entry<'a, S, C>(
    faults: &mut Vec<Fault<'a>>,
    schema: &'a SchemaTypeOf<S, C>,
    meta: &'a MetaTypeOf<S, C>,
    name: &'a str,
    others: &[String],
) -> Result<(), OutOfMemory>
    ensures { OnOk result (reported faults.new ≡ reported faults.old
        ++ wrong_ancestors_at meta.now schema.now name.now (map string_bytes others.now)) }
{
    if !is_text_among(others, name) {
        report_by_interface(faults, meta, name, schema.concrete_type_by_name(name))?;
    }
    Ok(())
}

fn report_by_interface<'a, S, C>(
    faults: &mut Vec<Fault<'a>>,
    meta: &'a MetaTypeOf<S, C>,
    name: &'a str,
    named: Option<&'a MetaTypeOf<S, C>>,
) -> Result<(), OutOfMemory>
    ensures { OnOk result (reported faults.new ≡ reported faults.old
        ++ wrong_ancestors_by meta.now name.now (option_copied named.entry)) }
{
    if let Some(MetaTypeOf::Interface(interface)) = named {
        report_names(faults, meta, name, interface.interface_names.as_slice())?;
    }
    Ok(())
}

fn report_names<'a, S, C>(
    faults: &mut Vec<Fault<'a>>,
    meta: &'a MetaTypeOf<S, C>,
    interface: &'a str,
    names: &'a [String],
) -> Result<(), OutOfMemory>
    ensures { OnOk result (reported faults.new ≡ reported faults.old
        ++ flat_map (λ n. wrong_ancestor meta.now interface.now (string_bytes n)) names.now) }
{
    for name in names {
        report_name(faults, meta, interface, name.as_str())?;
    }
    Ok(())
}

fn report_name<'a, S, C>(
    faults: &mut Vec<Fault<'a>>,
    meta: &'a MetaTypeOf<S, C>,
    interface: &'a str,
    name: &'a str,
) -> Result<(), OutOfMemory>
    ensures { OnOk result (reported faults.new ≡ reported faults.old
        ++ wrong_ancestor meta.now interface.now name.now) }
{
    if !is_text_among(interface_names(meta), name) {
        let at = CoordinateOf::Type(type_name(meta));
        report(faults, at, unnamed(meta, interface, name))?;
    }
    Ok(())
}

fn unnamed<'a, S, C>(meta: &MetaTypeOf<S, C>, interface: &'a str, name: &'a str) -> FaultKind<'a>
    ensures { kind_value result ≡ unnamed meta.now interface.now name.now }
{
    if type_name(meta) == name {
        FaultKindOf::CircularInterface(interface)
    } else {
        FaultKindOf::MissingAncestor(name, interface)
    }
}
