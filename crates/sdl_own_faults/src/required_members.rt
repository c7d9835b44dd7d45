//! A required argument or input field is not deprecated (GraphQL, October 2021, sections 3.6, 3.10 and 3.13).
ghost use Rattle.std.specs.Prelude.{◌≡◌, ◌++◌, OnOk};
ghost use Rattle.sdl_directives.specs.Arguments.{is_required};
ghost use Rattle.type_system_report.specs.Fault.{coordinate_value, kind_value};
ghost use Rattle.sdl_own_faults.specs.Fault.{reported};
ghost use Rattle.sdl_own_faults.specs.RequiredMembers.{deprecated_kind, deprecated_parameter, is_deprecated};
ghost use Rattle.sdl_own_faults.specs.RequiredMembers.{is_required_deprecated};

use crate::fault::{OwnFault, report};
use graphql_reader::type_system::InputValueDefinition;
use language_types::error::OutOfMemory;
use type_system_report::{Coordinate, CoordinateOf, FaultKind, FaultKindOf};

/// Reports the argument or the input field at a coordinate, if it is required and deprecated.
pub(crate) fn report_deprecated_parameter<'d, 't>(
    faults: &mut Vec<OwnFault<'d>>,
    parameter: &'d InputValueDefinition<'t>,
    coordinate: Coordinate<'d>,
) -> Result<(), OutOfMemory>
    ensures { OnOk result (reported faults.new ≡ reported faults.old
        ++ deprecated_parameter parameter.now (coordinate_value coordinate.entry)) }
{
    if is_required_deprecated(parameter) {
        report(
            faults,
            &parameter.name,
            coordinate,
            deprecated_kind(coordinate),
        )?;
    }
    Ok(())
}

fn deprecated_kind<'d>(coordinate: Coordinate<'d>) -> FaultKind<'d>
    ensures { kind_value result ≡ deprecated_kind (coordinate_value coordinate.entry) }
{
    match coordinate {
        CoordinateOf::Field(_, _) => FaultKindOf::DeprecatedInputField,
        _ => FaultKindOf::DeprecatedArgument,
    }
}

fn is_required_deprecated(parameter: &InputValueDefinition<'_>) -> bool
    ensures { result ≡ is_required_deprecated parameter.now }
{
    is_required(parameter) && is_deprecated(parameter)
}

fn is_required(parameter: &InputValueDefinition<'_>) -> bool
    ensures { result ≡ is_required parameter.now }
{
    parameter.default_value.is_none() && parameter.value_type.item.is_non_null()
}

// Whether the directive `@deprecated` stands there.
fn is_deprecated(parameter: &InputValueDefinition<'_>) -> bool
    ensures { result ≡ is_deprecated parameter.now.directives }
{
    let Some(directives) = &parameter.directives else {
        return false;
    };
    for directive in directives {
        if directive.item.name.item == "deprecated" {
            return true;
        }
    }
    false
}
