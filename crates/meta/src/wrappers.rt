//! Lists, nullable types and placeholders, which have no name.
ghost use Rattle.std.specs.Prelude.{◌≡◌};

use crate::kinds::MetaTypeOf;
use language_types::types::Type;

/// Metadata of a list (section 3.11).
#[derive(Drop)]
pub struct ListMeta {
    /// The type of the items.
    pub of_type: Type,
    /// The number of items, if one is expected.
    pub expected_size: Option<usize>,
}

impl ListMeta {
    /// The lists of this type; with a number, that many items are expected (section 3.11).
    pub fn new(of_type: Type, expected_size: Option<usize>) -> Self
        ensures of_type { result.of_type ≡ of_type }
        ensures expected_size { result.expected_size ≡ expected_size }
    {
        ListMeta {
            of_type,
            expected_size,
        }
    }

    /// The list as metadata of any kind (section 3.11). A schema refuses it.
    pub fn into_meta<S, C>(self) -> MetaTypeOf<S, C>
        ensures { result ≡ MetaTypeOf.List self }
    {
        MetaTypeOf::List(self)
    }
}

/// Metadata of a nullable type (section 3.12).
#[derive(Drop)]
pub struct NullableMeta {
    pub of_type: Type,
}

impl NullableMeta {
    /// The type whose values are `null` and those of this type (section 3.12).
    pub fn new(of_type: Type) -> Self
        ensures { result.of_type ≡ of_type }
    {
        NullableMeta { of_type }
    }

    /// The nullable type as metadata of any kind (section 3.12). A schema refuses it.
    pub fn into_meta<S, C>(self) -> MetaTypeOf<S, C>
        ensures { result ≡ MetaTypeOf.Nullable self }
    {
        MetaTypeOf::Nullable(self)
    }
}

/// Stands for a type whose metadata does not exist yet.
#[derive(Drop)]
pub struct PlaceholderMeta {
    pub of_type: Type,
}
