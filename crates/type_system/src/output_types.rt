//! The type of a field is an output type (GraphQL, October 2021, sections 3.6 and 3.7).
ghost use Rattle.std.specs.Prelude.{◌≡◌, ◌++◌, OnOk};
ghost use Rattle.type_system_report.specs.Fault.{reported};
ghost use Rattle.type_system.specs.OutputTypes.{is_input_object, is_input_object_named, wrong_output_type};
ghost use Rattle.type_system.specs.OutputTypes.{wrong_output_types};

use language::error::OutOfMemory;
use schema::meta::{Field, MetaTypeOf};
use schema::model::SchemaTypeOf;
use type_system_interfaces::members::{fields, type_name};
use type_system_report::report::report;
use type_system_report::{CoordinateOf, Fault, FaultKindOf};

/// Reports each field of a type whose type is no output type.
pub(crate) fn report_wrong_output_types<'a, S, C>(
    faults: &mut Vec<Fault<'a>>,
    schema: &SchemaTypeOf<S, C>,
    meta: &'a MetaTypeOf<S, C>,
) -> Result<(), OutOfMemory>
    ensures { OnOk result (reported faults.new ≡ reported faults.old ++ wrong_output_types schema.now meta.now) }
{
    let of = type_name(meta);
    for field in fields(meta) {
        report_wrong_output_type(faults, schema, of, field)?;
    }
    Ok(())
}

fn report_wrong_output_type<'a, S, C>(
    faults: &mut Vec<Fault<'a>>,
    schema: &SchemaTypeOf<S, C>,
    of: &'a str,
    field: &'a Field<S>,
) -> Result<(), OutOfMemory>
    ensures { OnOk result (reported faults.new ≡ reported faults.old ++ wrong_output_type schema.now of.now field.now) }
{
    if is_input_object_named(schema, field.field_type.innermost_name()) {
        report(
            faults,
            CoordinateOf::Field(of, field.name.as_str()),
            FaultKindOf::NotOutputType(field.field_type.as_borrowed()),
        )?;
    }
    Ok(())
}

// Whether the type of this name is an input object, the only kind that is no output type.
fn is_input_object_named<S, C>(schema: &SchemaTypeOf<S, C>, name: &str) -> bool
    ensures { result ≡ is_input_object_named schema.now name.now }
{
    match schema.concrete_type_by_name(name) {
        Some(meta) => is_input_object(meta),
        None => false,
    }
}

fn is_input_object<S, C>(meta: &MetaTypeOf<S, C>) -> bool
    ensures { result ≡ is_input_object meta.now }
{
    matches!(meta, MetaTypeOf::InputObject(_))
}
