//! Locations of directives.
ghost use Rattle.std.specs.Prelude.{◌≡◌};
ghost use Rattle.sdl_directives.specs.Locations.{body_location, is_listed, is_one_location, location_words};

use graphql_reader::type_system::{DirectivePlace, TypeBody};
use language::position::Spanning;

/// The name of a location, in lower case with spaces between the words.
pub fn location_words(location: DirectivePlace) -> &'static str
    ensures { result.now ≡ location_words location }
{
    match location {
        DirectivePlace::Query => "query",
        DirectivePlace::Mutation => "mutation",
        DirectivePlace::Subscription => "subscription",
        DirectivePlace::Field => "field",
        DirectivePlace::FragmentDefinition => "fragment definition",
        DirectivePlace::FragmentSpread => "fragment spread",
        DirectivePlace::InlineFragment => "inline fragment",
        DirectivePlace::VariableDefinition => "variable definition",
        DirectivePlace::Schema => "schema",
        DirectivePlace::Scalar => "scalar",
        DirectivePlace::Object => "object",
        DirectivePlace::FieldDefinition => "field definition",
        DirectivePlace::ArgumentDefinition => "argument definition",
        DirectivePlace::Interface => "interface",
        DirectivePlace::Union => "union",
        DirectivePlace::Enum => "enum",
        DirectivePlace::EnumValue => "enum value",
        DirectivePlace::InputObject => "input object",
        DirectivePlace::InputFieldDefinition => "input field definition",
    }
}

/// The location of the directives of a type.
pub(crate) fn body_location(body: &TypeBody<'_>) -> DirectivePlace
    ensures { result ≡ body_location body.now }
{
    match body {
        TypeBody::Scalar => DirectivePlace::Scalar,
        TypeBody::Object(_) => DirectivePlace::Object,
        TypeBody::Interface(_) => DirectivePlace::Interface,
        TypeBody::Union(_) => DirectivePlace::Union,
        TypeBody::Enum(_) => DirectivePlace::Enum,
        TypeBody::InputObject(_) => DirectivePlace::InputObject,
    }
}

/// Whether a location is one of these.
pub(crate) fn is_listed(location: DirectivePlace, locations: &[Spanning<DirectivePlace>]) -> bool
    ensures { result ≡ is_listed location locations.now }
{
    for listed in locations {
        if is_one_location(listed.item, location) {
            return true;
        }
    }
    false
}

fn is_one_location(one: DirectivePlace, other: DirectivePlace) -> bool
    ensures { result ≡ is_one_location one other }
{
    location_words(one) == location_words(other)
}
