//! Places where an input value is expected: the type, and whether a default value stands for a value that is not there.

ghost use Rattle.std.specs.Prelude.{◌≡◌, option_copied, option_map};
ghost use Rattle.rules_specified_uses.specs.InputPlaces.{argument_place, field_place, item_place, place_of};
ghost use Rattle.rules_specified_uses.specs.InputPlaces.{place_value};

use language_types::types::BorrowedType;
use meta::Argument;
use meta::named::first_named;
use schema::model::SchemaTypeOf;

/// The type that is expected at a place, and whether the place is an argument or an input field with a default value.
#[derive(Clone, Copy)]
pub struct InputPlace<'a> {
    pub expected: BorrowedType<'a>,
    pub has_default: bool,
}

// The place of an argument or an input field.
fn place_of<S>(argument: &Argument<S>) -> InputPlace<'_>
    ensures { place_value result ≡ place_of argument.now }
{
    InputPlace {
        expected: argument.arg_type.as_borrowed(),
        has_default: argument.default_value.is_some(),
    }
}

/// The place of the first argument of a name among these.
pub fn argument_place<'a, S>(
    arguments: Option<&'a [Argument<S>]>,
    name: &str,
) -> Option<InputPlace<'a>>
    ensures { option_map place_value result ≡ argument_place (option_copied arguments.entry) name.now }
{
    match first_named(arguments?, name) {
        Some(argument) => Some(place_of(argument)),
        None => None,
    }
}

/// The place of each item of a list that stands at a place, if a list is expected there. An item has no default value.
pub fn item_place<'a>(place: Option<InputPlace<'a>>) -> Option<InputPlace<'a>>
    ensures { option_map place_value result ≡ item_place (option_map place_value place.entry) }
{
    match place?.expected.borrow_list_inner() {
        Some(expected) => Some(InputPlace {
            expected,
            has_default: false,
        }),
        None => None,
    }
}

/// The place of a field of an object that stands at a place: that of the input object which the type names. Where a
/// list is expected, an object stands for the list of it alone.
pub fn field_place<'a, S, C>(
    schema: &'a SchemaTypeOf<S, C>,
    place: Option<InputPlace<'a>>,
    key: &str,
) -> Option<InputPlace<'a>>
    ensures { option_map place_value result ≡ field_place schema.now (option_map place_value place.entry) key.now }
{
    let name = place?.expected.innermost_name();
    let object = schema.concrete_type_by_name(name)?;
    match object.input_field_by_name(key) {
        Some(field) => Some(place_of(field)),
        None => None,
    }
}
