//! No name begins with `__`, but those of introspection (GraphQL, October 2021, sections 3.3 and 3.4).
ghost use Rattle.std.specs.Prelude.{◌≡◌, ◌++◌, OnOk};
ghost use Rattle.std.specs.List.{flat_map};
ghost use Rattle.type_system_report.specs.Fault.{coordinate_value, reported};
ghost use Rattle.type_system.specs.ReservedNames.{reserved_argument, reserved_directive, reserved_directive_argument};
ghost use Rattle.type_system.specs.ReservedNames.{reserved_field, reserved_input_field, reserved_name, reserved_names};
ghost use Rattle.type_system.specs.ReservedNames.{reserved_value};

use crate::introspected::{is_introspection_field, is_introspection_type, is_reserved};
use language::error::OutOfMemory;
use schema::meta::{Argument, EnumValue, Field, MetaTypeOf};
use schema::model::{DirectiveType, SchemaTypeOf};
use type_system_interfaces::members::{arguments, enum_values, fields, input_fields, type_name};
use type_system_report::report::report;
use type_system_report::{Coordinate, CoordinateOf, Fault, FaultKindOf};

/// Reports the names of a type and its members that are reserved.
pub(crate) fn report_reserved_names<'a, S, C>(
    faults: &mut Vec<Fault<'a>>,
    schema: &SchemaTypeOf<S, C>,
    meta: &'a MetaTypeOf<S, C>,
) -> Result<(), OutOfMemory>
    ensures { OnOk result (reported faults.new ≡ reported faults.old ++ reserved_names schema.now meta.now) }
{
    let of = type_name(meta);
    if !is_introspection_type(of) {
        report_reserved(faults, CoordinateOf::Type(of))?;
    }
    report_fields(faults, schema, of, fields(meta))?;
    report_input_fields(faults, of, input_fields(meta))?;
    report_values(faults, of, enum_values(meta))
}

// Reports the last name of the coordinate, if it is reserved.
fn report_reserved<'a>(
    faults: &mut Vec<Fault<'a>>,
    coordinate: Coordinate<'a>,
) -> Result<(), OutOfMemory>
    ensures { OnOk result (reported faults.new ≡ reported faults.old
        ++ reserved_name (coordinate_value coordinate.entry)) }
{
    if is_reserved(coordinate.name()) {
        report(faults, coordinate, FaultKindOf::ReservedName)?;
    }
    Ok(())
}

fn report_fields<'a, S, C>(
    faults: &mut Vec<Fault<'a>>,
    schema: &SchemaTypeOf<S, C>,
    of: &'a str,
    fields: &'a [Field<S>],
) -> Result<(), OutOfMemory>
    ensures { OnOk result (reported faults.new ≡ reported faults.old
        ++ flat_map (reserved_field schema.now of.now) fields.now) }
{
    for field in fields {
        report_field(faults, schema, of, field)?;
    }
    Ok(())
}

fn report_field<'a, S, C>(
    faults: &mut Vec<Fault<'a>>,
    schema: &SchemaTypeOf<S, C>,
    of: &'a str,
    field: &'a Field<S>,
) -> Result<(), OutOfMemory>
    ensures { OnOk result (reported faults.new ≡ reported faults.old ++ reserved_field schema.now of.now field.now) }
{
    let name = field.name.as_str();
    if !is_introspection_field(schema, of, name) {
        report_reserved(faults, CoordinateOf::Field(of, name))?;
    }
    report_arguments(faults, of, name, arguments(field))
}

fn report_arguments<'a, S>(
    faults: &mut Vec<Fault<'a>>,
    of: &'a str,
    field: &'a str,
    arguments: &'a [Argument<S>],
) -> Result<(), OutOfMemory>
    ensures { OnOk result (reported faults.new ≡ reported faults.old
        ++ flat_map (reserved_argument of.now field.now) arguments.now) }
{
    for argument in arguments {
        report_reserved(
            faults,
            CoordinateOf::Argument(of, field, argument.name.as_str()),
        )?;
    }
    Ok(())
}

fn report_input_fields<'a, S>(
    faults: &mut Vec<Fault<'a>>,
    of: &'a str,
    fields: &'a [Argument<S>],
) -> Result<(), OutOfMemory>
    ensures { OnOk result (reported faults.new ≡ reported faults.old
        ++ flat_map (reserved_input_field of.now) fields.now) }
{
    for field in fields {
        report_reserved(faults, CoordinateOf::Field(of, field.name.as_str()))?;
    }
    Ok(())
}

fn report_values<'a>(
    faults: &mut Vec<Fault<'a>>,
    of: &'a str,
    values: &'a [EnumValue],
) -> Result<(), OutOfMemory>
    ensures { OnOk result (reported faults.new ≡ reported faults.old
        ++ flat_map (reserved_value of.now) values.now) }
{
    for value in values {
        report_reserved(faults, CoordinateOf::EnumValue(of, value.name.as_str()))?;
    }
    Ok(())
}

/// Reports the names of a directive and its arguments that are reserved.
pub(crate) fn report_reserved_directive<'a, S>(
    faults: &mut Vec<Fault<'a>>,
    directive: &'a DirectiveType<S>,
) -> Result<(), OutOfMemory>
    ensures { OnOk result (reported faults.new ≡ reported faults.old ++ reserved_directive directive.now) }
{
    let name = directive.name.as_str();
    report_reserved(faults, CoordinateOf::Directive(name))?;
    report_directive_arguments(faults, name, directive.arguments.as_slice())
}

fn report_directive_arguments<'a, S>(
    faults: &mut Vec<Fault<'a>>,
    of: &'a str,
    arguments: &'a [Argument<S>],
) -> Result<(), OutOfMemory>
    ensures { OnOk result (reported faults.new ≡ reported faults.old
        ++ flat_map (reserved_directive_argument of.now) arguments.now) }
{
    for argument in arguments {
        report_reserved(
            faults,
            CoordinateOf::DirectiveArgument(of, argument.name.as_str()),
        )?;
    }
    Ok(())
}
