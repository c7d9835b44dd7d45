//! What is wrong with a member of a definition or extension, whatever else defines or extends its type.
ghost use Rattle.std.specs.Prelude.{◌≡◌, ◌++◌, OnOk};
ghost use Rattle.std.specs.List.{flat_map};
ghost use Rattle.type_system_report.specs.Fault.{coordinate_value};
ghost use Rattle.sdl_own_faults.specs.Fault.{reported};
ghost use Rattle.sdl_own_faults.specs.Members.{field_faults, member_faults, parameter_at, parameter_faults};
ghost use Rattle.sdl_own_faults.specs.ReservedNames.{reserved_value};

use crate::fault::OwnFault;
use crate::required_members::report_deprecated_parameter;
use crate::reserved_names::{report_reserved_field, report_reserved_name};
use graphql_reader::type_system::{
    EnumValueDefinition, FieldDefinition, InputValueDefinition, TypeBody, TypeDefinition,
};
use language_types::error::OutOfMemory;
use type_system_report::{Coordinate, CoordinateOf};

/// Reports the faults of the members of a definition or extension of a type.
pub(crate) fn report_members<'d, 't>(
    faults: &mut Vec<OwnFault<'d>>,
    defined: &'d TypeDefinition<'t>,
) -> Result<(), OutOfMemory>
    ensures { OnOk result (reported faults.new ≡ reported faults.old
        ++ member_faults defined.now.name.item.now defined.now.body) }
{
    let of = defined.name.item;
    match &defined.body {
        TypeBody::Object(fields) => report_fields(faults, of, fields.as_slice()),
        TypeBody::Interface(fields) => report_fields(faults, of, fields.as_slice()),
        TypeBody::Enum(values) => report_values(faults, of, values.as_slice()),
        TypeBody::InputObject(fields) => {
            report_parameters(faults, CoordinateOf::Type(of), fields.as_slice())
        }
        TypeBody::Scalar => Ok(()),
        TypeBody::Union(_) => Ok(()),
    }
}

fn report_fields<'d, 't>(
    faults: &mut Vec<OwnFault<'d>>,
    of: &'d str,
    fields: &'d [FieldDefinition<'t>],
) -> Result<(), OutOfMemory>
    ensures { OnOk result (reported faults.new ≡ reported faults.old
        ++ flat_map (field_faults of.now) fields.now) }
{
    for field in fields {
        report_field(faults, of, field)?;
    }
    Ok(())
}

// Reports the faults of a field and its arguments.
fn report_field<'d, 't>(
    faults: &mut Vec<OwnFault<'d>>,
    of: &'d str,
    field: &'d FieldDefinition<'t>,
) -> Result<(), OutOfMemory>
    ensures { OnOk result (reported faults.new ≡ reported faults.old ++ field_faults of.now field.now) }
{
    report_reserved_field(faults, of, field)?;
    let at = CoordinateOf::Field(of, field.name.item);
    report_parameters(faults, at, field.arguments.as_slice())
}

fn report_values<'d, 't>(
    faults: &mut Vec<OwnFault<'d>>,
    of: &'d str,
    values: &'d [EnumValueDefinition<'t>],
) -> Result<(), OutOfMemory>
    ensures { OnOk result (reported faults.new ≡ reported faults.old
        ++ flat_map (reserved_value of.now) values.now) }
{
    for value in values {
        let at = CoordinateOf::EnumValue(of, value.name.item);
        report_reserved_name(faults, &value.name, at)?;
    }
    Ok(())
}

/// Reports the faults of the arguments of the field or directive at a coordinate, or of the fields of the input object.
pub(crate) fn report_parameters<'d, 't>(
    faults: &mut Vec<OwnFault<'d>>,
    of: Coordinate<'d>,
    parameters: &'d [InputValueDefinition<'t>],
) -> Result<(), OutOfMemory>
    ensures { OnOk result (reported faults.new ≡ reported faults.old
        ++ flat_map (parameter_faults (coordinate_value of.entry)) parameters.now) }
{
    for parameter in parameters {
        report_parameter(faults, of, parameter)?;
    }
    Ok(())
}

fn report_parameter<'d, 't>(
    faults: &mut Vec<OwnFault<'d>>,
    of: Coordinate<'d>,
    parameter: &'d InputValueDefinition<'t>,
) -> Result<(), OutOfMemory>
    ensures { OnOk result (reported faults.new ≡ reported faults.old
        ++ parameter_faults (coordinate_value of.entry) parameter.now) }
{
    let at = parameter_at(of, parameter.name.item);
    report_reserved_name(faults, &parameter.name, at)?;
    report_deprecated_parameter(faults, parameter, at)
}

// The coordinate of an argument of a field or a directive, or of a field of an input object.
fn parameter_at<'d>(of: Coordinate<'d>, name: &'d str) -> Coordinate<'d>
    ensures { coordinate_value result ≡ parameter_at (coordinate_value of.entry) name.now }
{
    match of {
        CoordinateOf::Type(of) => CoordinateOf::Field(of, name),
        CoordinateOf::Field(of, field) => CoordinateOf::Argument(of, field, name),
        CoordinateOf::Directive(of) => CoordinateOf::DirectiveArgument(of, name),
        _ => of,
    }
}
