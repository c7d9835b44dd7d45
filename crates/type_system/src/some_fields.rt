//! An object, an interface and an input object have a field (GraphQL, October 2021, sections 3.6, 3.7 and 3.10).
ghost use Rattle.std.specs.Prelude.{◌≡◌, ◌++◌, OnOk};
ghost use Rattle.type_system_report.specs.Fault.{reported};
ghost use Rattle.type_system.specs.SomeFields.{are_introspections, has_no_fields, missing_fields};

use crate::introspected::is_introspection_field;
use language::error::OutOfMemory;
use schema::meta::{Field, MetaTypeOf};
use schema::model::SchemaTypeOf;
use type_system_interfaces::members::{fields, input_fields, type_name};
use type_system_report::report::report;
use type_system_report::{CoordinateOf, Fault, FaultKindOf};

/// Reports a type without a field of its own, where it needs one.
pub(crate) fn report_missing_fields<'a, S, C>(
    faults: &mut Vec<Fault<'a>>,
    schema: &SchemaTypeOf<S, C>,
    meta: &'a MetaTypeOf<S, C>,
) -> Result<(), OutOfMemory>
    ensures { OnOk result (reported faults.new ≡ reported faults.old ++ missing_fields schema.now meta.now) }
{
    if lacks_fields(schema, meta) {
        report(
            faults,
            CoordinateOf::Type(type_name(meta)),
            FaultKindOf::NoFields,
        )?;
    }
    Ok(())
}

fn lacks_fields<S, C>(schema: &SchemaTypeOf<S, C>, meta: &MetaTypeOf<S, C>) -> bool
    ensures { result ≡ has_no_fields schema.now meta.now }
{
    match meta {
        MetaTypeOf::Object(_) => are_introspections(schema, type_name(meta), fields(meta)),
        MetaTypeOf::Interface(_) => are_introspections(schema, type_name(meta), fields(meta)),
        MetaTypeOf::InputObject(_) => input_fields(meta).is_empty(),
        _ => false,
    }
}

// Whether all are fields of introspection.
fn are_introspections<S, C>(
    schema: &SchemaTypeOf<S, C>,
    type_name: &str,
    fields: &[Field<S>],
) -> bool
    ensures { result ≡ are_introspections schema.now type_name.now fields.now }
{
    for field in fields {
        if !is_introspection_field(schema, type_name, field.name.as_str()) {
            return false;
        }
    }
    true
}
