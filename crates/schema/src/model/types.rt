//! Types of a schema with their modifiers.
ghost use Rattle.std.specs.Prelude.{◌≡◌};
ghost use Rattle.schema.specs.Wrapped.{wrapped_of};

use meta::check::CheckedScalar;
use meta::kinds::MetaTypeOf;
use std::alloc::AllocError;

/// A type of a schema: metadata, a non-null type, or a list; with a number, that many items are
/// expected (section 3.4.1).
#[derive(Drop)]
pub enum TypeTypeOf<'a, S, C> {
    Concrete(&'a MetaTypeOf<S, C>),
    NonNull(Box<TypeTypeOf<'a, S, C>>),
    List(Box<TypeTypeOf<'a, S, C>>, Option<usize>),
}

/// A type of a schema, with the checks of the scalar type `S`.
pub type TypeType<'a, S> = TypeTypeOf<'a, S, <S as CheckedScalar>::Check>;

/// Clones the type; the copy refers to the same metadata.
impl<S, C> Clone for TypeTypeOf<'_, S, C> {
    ghost is_clone = { λ t copy. wrapped_of copy ≡ wrapped_of t };

    fn clone(&self) -> Result<Self, AllocError> {
        match self {
            TypeTypeOf::Concrete(meta) => Ok(TypeTypeOf::Concrete(*meta)),
            TypeTypeOf::NonNull(inner) => {
                let copy = (**inner).clone()?;
                Ok(TypeTypeOf::NonNull(Box::new(*Box::allocator(inner), copy)?))
            }
            TypeTypeOf::List(inner, size) => {
                let copy = (**inner).clone()?;
                Ok(TypeTypeOf::List(Box::new(*Box::allocator(inner), copy)?, *size))
            }
        }
    }
}
