//! The first faulty name among those in metadata.
ghost use Rattle.std.specs.Prelude.{◌≡◌, ◌++◌, find, map, string_bytes, option_copied};
ghost use Rattle.std.specs.List.{flat_map};
ghost use Rattle.schema_validation.specs.Names.{argument_type, field_inputs, field_names, inputs_in, names_in};
ghost use Rattle.schema_validation.specs.Names.{members_of, interfaces_of, added_inputs, added_names};
ghost use Rattle.meta.specs.Kinds.{fields_of, input_fields_of};

use crate::listed::NameTest;
use meta::arguments::Argument;
use meta::fields::Field;
use meta::kinds::MetaTypeOf;

fn first_text<'t, T: NameTest>(test: &T, texts: &'t [String]) -> Option<&'t str>
    ensures { option_copied result ≡ find (T.fails_at test.now) (map string_bytes texts.now) }
{
    for text in texts {
        if test.fails(text.as_str()) {
            return Some(text.as_str());
        }
    }
    None
}

/// The first faulty name among the types of arguments or input fields.
pub fn first_argument<'t, T: NameTest, S>(test: &T, arguments: &'t [Argument<S>]) -> Option<&'t str>
    ensures { option_copied result ≡ find (T.fails_at test.now) (map argument_type arguments.now) }
{
    for argument in arguments {
        let name = argument.arg_type.innermost_name();
        if test.fails(name) {
            return Some(name);
        }
    }
    None
}

fn first_input_of_field<'t, T: NameTest, S>(test: &T, field: &'t Field<S>) -> Option<&'t str>
    ensures { option_copied result ≡ find (T.fails_at test.now) (field_inputs field.now) }
{
    match &field.arguments {
        Some(arguments) => first_argument(test, arguments.as_slice()),
        None => None,
    }
}

fn first_name_of_field<'t, T: NameTest, S>(test: &T, field: &'t Field<S>) -> Option<&'t str>
    ensures { option_copied result ≡ find (T.fails_at test.now) (field_names field.now) }
{
    let name = field.field_type.innermost_name();
    if test.fails(name) {
        return Some(name);
    }
    first_input_of_field(test, field)
}

fn first_input_of_fields<'t, T: NameTest, S>(test: &T, fields: &'t [Field<S>]) -> Option<&'t str>
    ensures { option_copied result ≡ find (T.fails_at test.now) (flat_map field_inputs fields.now) }
{
    for field in fields {
        if let Some(name) = first_input_of_field(test, field) {
            return Some(name);
        }
    }
    None
}

fn first_name_of_fields<'t, T: NameTest, S>(test: &T, fields: &'t [Field<S>]) -> Option<&'t str>
    ensures { option_copied result ≡ find (T.fails_at test.now) (flat_map field_names fields.now) }
{
    for field in fields {
        if let Some(name) = first_name_of_field(test, field) {
            return Some(name);
        }
    }
    None
}

/// The first faulty name among the types of the arguments and input fields of a type.
fn first_input<'t, T: NameTest, S, C>(test: &T, meta: &'t MetaTypeOf<S, C>) -> Option<&'t str>
    ensures { option_copied result ≡ find (T.fails_at test.now) (inputs_in meta.now) }
{
    match meta {
        MetaTypeOf::Object(object) => first_input_of_fields(test, object.fields.as_slice()),
        MetaTypeOf::Interface(interface) => {
            first_input_of_fields(test, interface.fields.as_slice())
        }
        MetaTypeOf::InputObject(input) => first_argument(test, input.input_fields.as_slice()),
        _ => None,
    }
}

/// The first faulty name among the members of a union.
fn first_member<'t, T: NameTest, S, C>(test: &T, meta: &'t MetaTypeOf<S, C>) -> Option<&'t str>
    ensures { option_copied result ≡ find (T.fails_at test.now) (members_of meta.now) }
{
    match meta {
        MetaTypeOf::Union(union) => first_text(test, union.of_type_names.as_slice()),
        _ => None,
    }
}

fn first_name_of_composite<'t, T: NameTest, S>(
    test: &T,
    fields: &'t [Field<S>],
    interfaces: &'t [String],
) -> Option<&'t str>
    ensures { option_copied result
        ≡ find (T.fails_at test.now) (flat_map field_names fields.now ++ map string_bytes interfaces.now) }
{
    if let Some(name) = first_name_of_fields(test, fields) {
        return Some(name);
    }
    first_text(test, interfaces)
}

/// The first faulty name among all names of types in the metadata of a type.
fn first_name<'t, T: NameTest, S, C>(test: &T, meta: &'t MetaTypeOf<S, C>) -> Option<&'t str>
    ensures { option_copied result ≡ find (T.fails_at test.now) (names_in meta.now) }
{
    match meta {
        MetaTypeOf::Object(object) => first_name_of_composite(
            test,
            object.fields.as_slice(),
            object.interface_names.as_slice(),
        ),
        MetaTypeOf::Interface(interface) => first_name_of_composite(
            test,
            interface.fields.as_slice(),
            interface.interface_names.as_slice(),
        ),
        MetaTypeOf::Union(union) => first_text(test, union.of_type_names.as_slice()),
        MetaTypeOf::InputObject(input) => first_argument(test, input.input_fields.as_slice()),
        _ => None,
    }
}

pub(crate) fn first_input_of_all<'t, T: NameTest, S, C>(
    test: &T,
    types: &'t [MetaTypeOf<S, C>],
) -> Option<&'t str>
    ensures { option_copied result ≡ find (T.fails_at test.now) (flat_map inputs_in types.now) }
{
    for meta in types {
        if let Some(name) = first_input(test, meta) {
            return Some(name);
        }
    }
    None
}

pub(crate) fn first_member_of_all<'t, T: NameTest, S, C>(
    test: &T,
    types: &'t [MetaTypeOf<S, C>],
) -> Option<&'t str>
    ensures { option_copied result ≡ find (T.fails_at test.now) (flat_map members_of types.now) }
{
    for meta in types {
        if let Some(name) = first_member(test, meta) {
            return Some(name);
        }
    }
    None
}

pub(crate) fn first_name_of_all<'t, T: NameTest, S, C>(
    test: &T,
    types: &'t [MetaTypeOf<S, C>],
) -> Option<&'t str>
    ensures { option_copied result ≡ find (T.fails_at test.now) (flat_map names_in types.now) }
{
    for meta in types {
        if let Some(name) = first_name(test, meta) {
            return Some(name);
        }
    }
    None
}

/// The first faulty name among the types of the arguments that a schema adds.
pub(crate) fn first_added_input<T: NameTest>(test: &T) -> Option<&'static str>
    ensures { option_copied result ≡ find (T.fails_at test.now) added_inputs }
{
    if test.fails("String") {
        return Some("String");
    }
    if test.fails("Boolean") {
        return Some("Boolean");
    }
    None
}

/// The first faulty name among all names of types in what a schema adds.
pub(crate) fn first_added_name<T: NameTest>(test: &T) -> Option<&'static str>
    ensures { option_copied result ≡ find (T.fails_at test.now) added_names }
{
    if test.fails("__Schema") {
        return Some("__Schema");
    }
    if test.fails("__Type") {
        return Some("__Type");
    }
    first_added_input(test)
}
