//! The places of members of types.
ghost use Rattle.std.specs.Prelude.{◌≡◌};
ghost use Rattle.sdl_places.specs.Places.{argument_place, enum_value_place, field_place, first_in, named_field_place};
ghost use Rattle.sdl_places.specs.Places.{named_value_place, own_argument_place, parameter_place};

use crate::definitions::name_place;
use graphql_reader::type_system::{
    EnumValueDefinition, FieldDefinition, InputValueDefinition, TypeBody,
};
use language_types::position::SourcePosition;

/// The place of a field of an object, an interface or an input object.
pub(crate) fn field_place(body: &TypeBody<'_>, name: &str) -> Option<SourcePosition>
    ensures { result ≡ field_place name.now body.now }
{
    match body {
        TypeBody::Object(fields) | TypeBody::Interface(fields) => {
            named_field_place(fields.as_slice(), name)
        }
        TypeBody::InputObject(fields) => parameter_place(fields.as_slice(), name),
        _ => None,
    }
}

/// The place of an argument of a field.
pub(crate) fn argument_place(body: &TypeBody<'_>, field: &str, name: &str) -> Option<SourcePosition>
    ensures { result ≡ argument_place field.now name.now body.now }
{
    match body {
        TypeBody::Object(fields) | TypeBody::Interface(fields) => {
            first_argument_place(fields.as_slice(), field, name)
        }
        _ => None,
    }
}

/// The place of a value of an enum.
pub(crate) fn value_place(body: &TypeBody<'_>, name: &str) -> Option<SourcePosition>
    ensures { result ≡ enum_value_place name.now body.now }
{
    match body {
        TypeBody::Enum(values) => named_value_place(values.as_slice(), name),
        _ => None,
    }
}

fn named_field_place(fields: &[FieldDefinition<'_>], name: &str) -> Option<SourcePosition>
    ensures { result ≡ first_in (named_field_place name.now) fields.now }
{
    for field in fields {
        if let Some(place) = name_place(&field.name, name) {
            return Some(place);
        }
    }
    None
}

fn first_argument_place(
    fields: &[FieldDefinition<'_>],
    field: &str,
    name: &str,
) -> Option<SourcePosition>
    ensures { result ≡ first_in (own_argument_place field.now name.now) fields.now }
{
    for defined in fields {
        if let Some(place) = own_argument_place(defined, field, name) {
            return Some(place);
        }
    }
    None
}

// The place of an argument of this field, if it has this name.
fn own_argument_place(
    defined: &FieldDefinition<'_>,
    field: &str,
    name: &str,
) -> Option<SourcePosition>
    ensures { result ≡ own_argument_place field.now name.now defined.now }
{
    if defined.name.item != field {
        return None;
    }
    parameter_place(defined.arguments.as_slice(), name)
}

/// The place of an argument, or of a field of an input object.
pub(crate) fn parameter_place(
    parameters: &[InputValueDefinition<'_>],
    name: &str,
) -> Option<SourcePosition>
    ensures { result ≡ first_in (parameter_place name.now) parameters.now }
{
    for parameter in parameters {
        if let Some(place) = name_place(&parameter.name, name) {
            return Some(place);
        }
    }
    None
}

fn named_value_place(values: &[EnumValueDefinition<'_>], name: &str) -> Option<SourcePosition>
    ensures { result ≡ first_in (named_value_place name.now) values.now }
{
    for value in values {
        if let Some(place) = name_place(&value.name, name) {
            return Some(place);
        }
    }
    None
}
