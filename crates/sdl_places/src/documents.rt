//! The place of a coordinate in a document.
ghost use Rattle.std.specs.Prelude.{◌≡◌, IfSome, None};
ghost use Rattle.std.specs.List.{Any};
ghost use Rattle.language_types.specs.declared.position.SourcePosition.{SourcePosition};
ghost use Rattle.type_system_report.specs.Fault.{coordinate_value};
ghost use Rattle.sdl_places.specs.Named.{HasNameAt};
ghost use Rattle.sdl_places.specs.Places.{definition_place, first_in, place_in, place_within};

use crate::definitions::{definition_place, place_within};
use graphql_reader::type_system::TypeSystemDefinition;
use language_types::position::SourcePosition;
use type_system_report::{Coordinate, CoordinateOf};

/// The position of the name at a coordinate, in the first definition or extension that has it. That of a type is in its
/// definition, if there is one.
///
/// It takes time in proportion to the number of definitions, and to that of the members of the types of the name.
pub fn place_of(document: &[TypeSystemDefinition<'_>], at: Coordinate<'_>) -> Option<SourcePosition>
    ensures place { result ≡ place_in document.now (coordinate_value at.entry) }
    ensures named { IfSome result (λ p. Any (HasNameAt (coordinate_value at.entry) p) document.now) }
    ensures none { result ≡ None → (p : SourcePosition)
        → Any (HasNameAt (coordinate_value at.entry) p) document.now → ⊥ }
{
    found_place(document, at)
}

fn found_place(document: &[TypeSystemDefinition<'_>], at: Coordinate<'_>) -> Option<SourcePosition>
    ensures { result ≡ place_in document.now (coordinate_value at.entry) }
{
    match at {
        CoordinateOf::Type(name) => type_place(document, name),
        CoordinateOf::Field(_, _)
        | CoordinateOf::Argument(_, _, _)
        | CoordinateOf::EnumValue(_, _)
        | CoordinateOf::Directive(_)
        | CoordinateOf::DirectiveArgument(_, _) => first_place(document, at),
    }
}

fn type_place(document: &[TypeSystemDefinition<'_>], name: &str) -> Option<SourcePosition>
    ensures { result ≡ place_in document.now (CoordinateOf.Type name.now) }
{
    match defined_place(document, name) {
        Some(place) => Some(place),
        None => first_place(document, CoordinateOf::Type(name)),
    }
}

// The place of the first definition of a type.
fn defined_place(document: &[TypeSystemDefinition<'_>], name: &str) -> Option<SourcePosition>
    ensures { result ≡ first_in (definition_place name.now) document.now }
{
    for definition in document {
        if let Some(place) = definition_place(definition, name) {
            return Some(place);
        }
    }
    None
}

// The place in the first definition or extension that has one.
fn first_place(document: &[TypeSystemDefinition<'_>], at: Coordinate<'_>) -> Option<SourcePosition>
    ensures { result ≡ first_in (place_within (coordinate_value at.entry)) document.now }
{
    for definition in document {
        if let Some(place) = place_within(definition, at) {
            return Some(place);
        }
    }
    None
}
