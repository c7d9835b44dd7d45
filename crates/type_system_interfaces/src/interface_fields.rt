//! A type has the fields of the interfaces that it implements (GraphQL, October 2021, sections 3.6 and 3.7).
ghost use Rattle.std.specs.Prelude.{◌≡◌, ◌++◌, OnOk, map, option_copied, string_bytes};
ghost use Rattle.type_system_report.specs.Fault.{reported};
ghost use Rattle.type_system_interfaces.specs.InterfaceFields.{unmet_entry, unmet_field, unmet_interfaces, unmet_named};
ghost use Rattle.type_system_interfaces.specs.InterfaceFields.{unmet_pair};
ghost use Rattle.type_system_interfaces.specs.Pair.{pair_value};

use crate::added_arguments::report_added_arguments;
use crate::field_types::report_wrong_field_type;
use crate::interface_arguments::report_unmet_arguments;
use crate::listed::is_text_among;
use crate::members::{interface_names, type_name};
use crate::pair::FieldPair;
use language_types::error::OutOfMemory;
use schema::meta::{Field, MetaTypeOf};
use schema::model::SchemaTypeOf;
use type_system_report::report::report;
use type_system_report::{CoordinateOf, Fault, FaultKindOf};

/// Reports each field of an interface of the type that the type does not meet. An interface that the
/// type names again is judged once.
pub(crate) fn report_unmet_interfaces<'a, S, C>(
    faults: &mut Vec<Fault<'a>>,
    schema: &'a SchemaTypeOf<S, C>,
    meta: &'a MetaTypeOf<S, C>,
) -> Result<(), OutOfMemory>
    ensures { OnOk result (reported faults.new ≡ reported faults.old ++ unmet_interfaces schema.now meta.now) }
{
    let mut rest = interface_names(meta);
    while let Some((name, others)) = rest.split_first() {
        report_unmet_entry(faults, schema, meta, name.as_str(), others)?;
        rest = others;
    }
    Ok(())
}

fn report_unmet_entry<'a, S, C>(
    faults: &mut Vec<Fault<'a>>,
    schema: &'a SchemaTypeOf<S, C>,
    meta: &'a MetaTypeOf<S, C>,
    name: &str,
    others: &[String],
) -> Result<(), OutOfMemory>
    ensures { OnOk result (reported faults.new ≡ reported faults.old
        ++ unmet_entry schema.now meta.now name.now (map string_bytes others.now)) }
{
    if !is_text_among(others, name) {
        report_unmet_interface(faults, schema, meta, schema.concrete_type_by_name(name))?;
    }
    Ok(())
}

fn report_unmet_interface<'a, S, C>(
    faults: &mut Vec<Fault<'a>>,
    schema: &SchemaTypeOf<S, C>,
    meta: &'a MetaTypeOf<S, C>,
    named: Option<&'a MetaTypeOf<S, C>>,
) -> Result<(), OutOfMemory>
    ensures { OnOk result (reported faults.new ≡ reported faults.old
        ++ unmet_named schema.now meta.now (option_copied named.entry)) }
{
    if let Some(MetaTypeOf::Interface(interface)) = named {
        for field in &interface.fields {
            report_unmet_field(faults, schema, meta, interface.name.as_str(), field)?;
        }
    }
    Ok(())
}

fn report_unmet_field<'a, S, C>(
    faults: &mut Vec<Fault<'a>>,
    schema: &SchemaTypeOf<S, C>,
    meta: &'a MetaTypeOf<S, C>,
    interface: &'a str,
    wanted: &'a Field<S>,
) -> Result<(), OutOfMemory>
    ensures { OnOk result (reported faults.new ≡ reported faults.old
        ++ unmet_field schema.now meta.now interface.now wanted.now) }
{
    let name = wanted.name.as_str();
    if name == "__typename" {
        return Ok(());
    }
    match meta.field_by_name(name) {
        Some(given) => {
            let pair = FieldPair {
                of: type_name(meta),
                given,
                interface,
                wanted,
            };
            report_unmet_pair(faults, schema, &pair)
        }
        None => report(
            faults,
            CoordinateOf::Type(type_name(meta)),
            FaultKindOf::MissingField(CoordinateOf::Field(interface, name)),
        ),
    }
}

fn report_unmet_pair<'a, S, C>(
    faults: &mut Vec<Fault<'a>>,
    schema: &SchemaTypeOf<S, C>,
    pair: &FieldPair<'a, S>,
) -> Result<(), OutOfMemory>
    ensures { OnOk result (reported faults.new ≡ reported faults.old ++ unmet_pair schema.now (pair_value pair.now)) }
{
    report_wrong_field_type(faults, schema, pair)?;
    report_unmet_arguments(faults, pair)?;
    report_added_arguments(faults, pair)
}
