//! The members of a type.
ghost use Rattle.std.specs.Prelude.{◌≡◌, map, string_bytes};
ghost use Rattle.meta.specs.Arguments.{arguments_of};
ghost use Rattle.meta.specs.Kinds.{fields_of, input_fields_of};
ghost use Rattle.schema_validation.specs.Names.{interfaces_of, members_of};
ghost use Rattle.type_system_interfaces.specs.Arguments.{is_required};
ghost use Rattle.type_system_interfaces.specs.Members.{name_in, values_of};

use schema::meta::{Argument, EnumValue, Field, MetaTypeOf};

/// The name of a type; a type of a schema has one.
pub fn type_name<S, C>(meta: &MetaTypeOf<S, C>) -> &str
    ensures { result.now ≡ name_in meta.now }
{
    meta.name().unwrap_or("")
}

/// The fields of an object or an interface.
pub fn fields<S, C>(meta: &MetaTypeOf<S, C>) -> &[Field<S>]
    ensures { result.now ≡ fields_of meta.now }
{
    match meta {
        MetaTypeOf::Object(object) => object.fields.as_slice(),
        MetaTypeOf::Interface(interface) => interface.fields.as_slice(),
        _ => &[],
    }
}

/// The fields of an input object.
pub fn input_fields<S, C>(meta: &MetaTypeOf<S, C>) -> &[Argument<S>]
    ensures { result.now ≡ input_fields_of meta.now }
{
    match meta {
        MetaTypeOf::InputObject(input) => input.input_fields.as_slice(),
        _ => &[],
    }
}

/// The values of an enum.
pub fn enum_values<S, C>(meta: &MetaTypeOf<S, C>) -> &[EnumValue]
    ensures { result.now ≡ values_of meta.now }
{
    match meta {
        MetaTypeOf::Enum(of) => of.values.as_slice(),
        _ => &[],
    }
}

/// The names of the interfaces of an object or an interface.
pub fn interface_names<S, C>(meta: &MetaTypeOf<S, C>) -> &[String]
    ensures { map string_bytes result.now ≡ interfaces_of meta.now }
{
    match meta {
        MetaTypeOf::Object(object) => object.interface_names.as_slice(),
        MetaTypeOf::Interface(interface) => interface.interface_names.as_slice(),
        _ => &[],
    }
}

/// The arguments of a field; none where no list is given.
pub fn arguments<S>(field: &Field<S>) -> &[Argument<S>]
    ensures { result.now ≡ arguments_of field.now }
{
    match &field.arguments {
        Some(arguments) => arguments.as_slice(),
        None => &[],
    }
}

/// Whether an argument or an input field is required: non-null, with no default value.
pub fn is_required<S>(argument: &Argument<S>) -> bool
    ensures { result ≡ is_required argument.now }
{
    argument.arg_type.is_non_null() && argument.default_value.is_none()
}

/// The names of the members of a union.
pub fn union_members<S, C>(meta: &MetaTypeOf<S, C>) -> &[String]
    ensures { map string_bytes result.now ≡ members_of meta.now }
{
    match meta {
        MetaTypeOf::Union(union) => union.of_type_names.as_slice(),
        _ => &[],
    }
}
