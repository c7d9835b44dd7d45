//! The place of a coordinate in a definition.
ghost use Rattle.std.specs.Prelude.{◌≡◌};
ghost use Rattle.std.specs.Str.{bytes_eq};
ghost use Rattle.type_system_report.specs.Fault.{coordinate_value};
ghost use Rattle.sdl_places.specs.Places.{definition_place, directive_place, member_place, name_place, place_within};
ghost use Rattle.sdl_places.specs.Places.{type_place};

use crate::members::{argument_place, field_place, parameter_place, value_place};
use graphql_reader::type_system::{DirectiveDefinition, TypeDefinition, TypeSystemDefinition};
use language_types::position::{SourcePosition, Spanning};
use type_system_report::{Coordinate, CoordinateOf};

/// The place of a definition of the type of this name; an extension has none.
pub(crate) fn definition_place(
    definition: &TypeSystemDefinition<'_>,
    name: &str,
) -> Option<SourcePosition>
    ensures { result ≡ definition_place name.now definition.now }
{
    match definition {
        TypeSystemDefinition::Type(defined) => {
            if defined.item.is_extension {
                return None;
            }
            name_place(&defined.item.name, name)
        }
        _ => None,
    }
}

/// The place of a coordinate in a definition or extension that has it.
pub(crate) fn place_within(
    definition: &TypeSystemDefinition<'_>,
    at: Coordinate<'_>,
) -> Option<SourcePosition>
    ensures { result ≡ place_within (coordinate_value at.entry) definition.now }
{
    match definition {
        TypeSystemDefinition::Schema(_) => None,
        TypeSystemDefinition::Type(defined) => type_place(&defined.item, at),
        TypeSystemDefinition::Directive(defined) => directive_place(&defined.item, at),
    }
}

fn type_place(defined: &TypeDefinition<'_>, at: Coordinate<'_>) -> Option<SourcePosition>
    ensures { result ≡ type_place (coordinate_value at.entry) defined.now }
{
    match at {
        CoordinateOf::Type(name) => name_place(&defined.name, name),
        CoordinateOf::Field(of, _)
        | CoordinateOf::Argument(of, _, _)
        | CoordinateOf::EnumValue(of, _) => {
            if defined.name.item != of {
                return None;
            }
            member_place(defined, at)
        }
        _ => None,
    }
}

// The place of a member of a type.
fn member_place(defined: &TypeDefinition<'_>, at: Coordinate<'_>) -> Option<SourcePosition>
    ensures { result ≡ member_place (coordinate_value at.entry) defined.now.body }
{
    match at {
        CoordinateOf::Field(_, name) => field_place(&defined.body, name),
        CoordinateOf::Argument(_, field, name) => argument_place(&defined.body, field, name),
        CoordinateOf::EnumValue(_, name) => value_place(&defined.body, name),
        _ => None,
    }
}

fn directive_place(defined: &DirectiveDefinition<'_>, at: Coordinate<'_>) -> Option<SourcePosition>
    ensures { result ≡ directive_place (coordinate_value at.entry) defined.now }
{
    match at {
        CoordinateOf::Directive(name) => name_place(&defined.name, name),
        CoordinateOf::DirectiveArgument(of, name) => {
            if defined.name.item != of {
                return None;
            }
            parameter_place(defined.arguments.as_slice(), name)
        }
        _ => None,
    }
}

/// The place of a name, if it is this one.
pub(crate) fn name_place(written: &Spanning<&str>, name: &str) -> Option<SourcePosition>
    ensures { result ≡ name_place name.now written.now }
{
    if written.item == name {
        Some(written.span.start)
    } else {
        None
    }
}
