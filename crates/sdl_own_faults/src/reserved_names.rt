//! No name begins with `__`, but those of introspection (GraphQL, October 2021, sections 3.3 and 3.4).
ghost use Rattle.std.specs.Prelude.{◌≡◌, ◌++◌, OnOk};
ghost use Rattle.type_system.specs.Introspected.{is_introspection_type, is_reserved};
ghost use Rattle.type_system_report.specs.Fault.{coordinate_value};
ghost use Rattle.sdl_own_faults.specs.Fault.{reported};
ghost use Rattle.sdl_own_faults.specs.ReservedNames.{is_introspection_field, reserved_field, reserved_name};
ghost use Rattle.sdl_own_faults.specs.ReservedNames.{reserved_type};

use crate::fault::{OwnFault, report};
use graphql_reader::type_system::{FieldDefinition, TypeDefinition};
use language_types::error::OutOfMemory;
use language_types::position::Spanning;
use type_system_report::{Coordinate, CoordinateOf, FaultKindOf};

/// Reports the name at a coordinate, if it is reserved.
pub(crate) fn report_reserved_name<'d>(
    faults: &mut Vec<OwnFault<'d>>,
    name: &Spanning<&str>,
    coordinate: Coordinate<'d>,
) -> Result<(), OutOfMemory>
    ensures { OnOk result (reported faults.new ≡ reported faults.old
        ++ reserved_name name.now (coordinate_value coordinate.entry)) }
{
    if is_reserved(name.item) {
        report(faults, name, coordinate, FaultKindOf::ReservedName)?;
    }
    Ok(())
}

fn is_reserved(name: &str) -> bool
    ensures { result ≡ is_reserved name.now }
{
    name.starts_with("__")
}

/// Reports the name of a type, if it is reserved.
pub(crate) fn report_reserved_type<'d, 't>(
    faults: &mut Vec<OwnFault<'d>>,
    defined: &'d TypeDefinition<'t>,
) -> Result<(), OutOfMemory>
    ensures { OnOk result (reported faults.new ≡ reported faults.old ++ reserved_type defined.now) }
{
    let name = defined.name.item;
    if !is_introspection_type(name) {
        report_reserved_name(faults, &defined.name, CoordinateOf::Type(name))?;
    }
    Ok(())
}

// Whether the name is that of a type of introspection, which a text may define.
fn is_introspection_type(name: &str) -> bool
    ensures { result ≡ is_introspection_type name.now }
{
    matches!(
        name,
        "__Schema"
            | "__Type"
            | "__Field"
            | "__InputValue"
            | "__EnumValue"
            | "__TypeKind"
            | "__Directive"
            | "__DirectiveLocation"
    )
}

/// Reports the name of a field of an object or an interface, if it is reserved.
pub(crate) fn report_reserved_field<'d, 't>(
    faults: &mut Vec<OwnFault<'d>>,
    of: &'d str,
    field: &'d FieldDefinition<'t>,
) -> Result<(), OutOfMemory>
    ensures { OnOk result (reported faults.new ≡ reported faults.old ++ reserved_field of.now field.now) }
{
    let name = field.name.item;
    if !is_introspection_field(name) {
        report_reserved_name(faults, &field.name, CoordinateOf::Field(of, name))?;
    }
    Ok(())
}

// Whether the name may be that of a field of introspection: `__schema` and `__type` are if the type is the query root,
// which the type does not tell.
fn is_introspection_field(name: &str) -> bool
    ensures { result ≡ is_introspection_field name.now }
{
    name == "__typename" || name == "__schema" || name == "__type"
}
