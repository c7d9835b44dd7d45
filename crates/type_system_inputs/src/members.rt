//! The names and the input fields of types.
ghost use Rattle.std.specs.Prelude.{◌≡◌};
ghost use Rattle.meta.specs.Kinds.{input_fields_of};
ghost use Rattle.type_system_inputs.specs.Graph.{type_name};

use schema::meta::{Argument, MetaTypeOf};

/// The name of a type; a type of a schema has one.
pub(crate) fn type_name<S, C>(meta: &MetaTypeOf<S, C>) -> &str
    ensures { result.now ≡ type_name meta.now }
{
    meta.name().unwrap_or("")
}

/// The fields of an input object.
pub(crate) fn input_fields<S, C>(meta: &MetaTypeOf<S, C>) -> &[Argument<S>]
    ensures { result.now ≡ input_fields_of meta.now }
{
    match meta {
        MetaTypeOf::InputObject(input) => input.input_fields.as_slice(),
        _ => &[],
    }
}
