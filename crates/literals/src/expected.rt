//! The types that values are checked against.
ghost use Rattle.std.specs.Prelude.{◌≡◌, IfSome, Some, option_map, true};
ghost use Rattle.language_types.specs.Types.{borrowed_shape, shape};
ghost use Rattle.schema_validation.specs.Accepted.{is_listed};
ghost use Rattle.schema_validation.specs.Names.{argument_type};
ghost use Rattle.schema.specs.Wrapped.{wrapped_of};
ghost use Rattle.literals.specs.Expected.{expected_type, IsLayerOf};
ghost use Rattle.literals.specs.InSchema.{IsInSchema};
ghost use Rattle.literals.specs.Judged.{IsTypeOf, printed_name, printed_type, written_type};

use language_types::types::{BorrowedType, TypeModifier, print_type};
use meta::arguments::Argument;
use meta::kinds::MetaTypeOf;
use schema::model::{SchemaTypeOf, TypeTypeOf};
use std::fmt;

/// The type that a value is checked against: one that was made, or metadata with modifiers. Nothing is
/// copied.
#[derive_where(Clone, Copy)]
pub enum Expected<'t, 'a, S, C> {
    Made(&'t TypeTypeOf<'a, S, C>),
    Written(&'a MetaTypeOf<S, C>, &'a [TypeModifier]),
}

/// The outermost layer of a type.
pub enum Layer<'t, 'a, S, C> {
    Plain(&'a MetaTypeOf<S, C>),
    NonNull(Expected<'t, 'a, S, C>),
    List(Expected<'t, 'a, S, C>, Option<usize>),
}

impl<'t, 'a, S, C> Expected<'t, 'a, S, C> {
    /// The outermost layer.
    pub fn layer(self) -> Layer<'t, 'a, S, C>
        ensures { IsLayerOf result (expected_type self.entry) }
    {
        match self {
            Expected::Made(made) => match made {
                TypeTypeOf::Concrete(meta) => Layer::Plain(meta),
                TypeTypeOf::NonNull(inner) => Layer::NonNull(Expected::Made(&**inner)),
                TypeTypeOf::List(inner, size) => Layer::List(Expected::Made(&**inner), *size),
            },
            Expected::Written(meta, modifiers) => match modifiers.split_last() {
                None => Layer::Plain(meta),
                Some((TypeModifier::NonNull, inner)) => Layer::NonNull(Expected::Written(
                    meta, inner,
                )),
                Some((TypeModifier::List(size), inner)) => Layer::List(
                    Expected::Written(meta, inner),
                    *size,
                ),
            },
        }
    }
}

/// The type of an input field.
pub fn type_of_field<'t, 'a, S, C>(
    schema: &'a SchemaTypeOf<S, C>,
    field: &'a Argument<S>,
) -> Expected<'t, 'a, S, C>
    requires { is_listed schema.now.types (argument_type field.now) ≡ true }
    ensures made { IsTypeOf schema.now (shape field.now.arg_type) (expected_type result) }
    ensures known { IsInSchema schema.now (expected_type result) }
{
    match schema.concrete_type_by_name(field.arg_type.innermost_name()) {
        Some(meta) => Expected::Written(meta, field.arg_type.modifiers()),
        None => unreachable!(),
    }
}

/// The type of the schema for a reference to a type, if the schema has one.
pub fn type_written<'t, 'a, S, C>(
    schema: &'a SchemaTypeOf<S, C>,
    written: BorrowedType<'a>,
) -> Option<Expected<'t, 'a, S, C>>
    ensures made { option_map expected_type result ≡ written_type schema.now (borrowed_shape written.entry) }
    ensures known { IfSome result (λ expected. IsInSchema schema.now (expected_type expected)) }
{
    match schema.concrete_type_by_name(written.innermost_name()) {
        Some(meta) => Some(Expected::Written(meta, written.modifiers())),
        None => None,
    }
}

/// The name of metadata; the empty string if it has none.
pub fn name_text<S, C>(meta: &MetaTypeOf<S, C>) -> &str
    ensures { result.now ≡ printed_name meta.now }
{
    meta.name().unwrap_or("")
}

/// `Name`, `T!` or `[T]`.
impl<S, C> fmt::Display for Expected<'_, '_, S, C> {
    ghost output = { λ t. Some (printed_type (expected_type t)) };

    fn fmt<W: fmt::Write>(&self, f: &mut fmt::Formatter<W>) -> fmt::Result {
        match self {
            Expected::Made(made) => (**made).fmt(f),
            Expected::Written(meta, modifiers) => print_type(name_text(*meta), *modifiers, f),
        }
    }
}
