//! Methods of the types of a schema.
ghost use Rattle.std.specs.Prelude.{◌≡◌, ◌↔◌, IfOk, IsTrue, Some, option_copied, option_map};
ghost use Rattle.language_types.specs.Types.{outermost, printed};
ghost use Rattle.schema.specs.Concrete.{concrete_of};
ghost use Rattle.schema.specs.Wrapped.{wrap_meta, wrapped_of, items_of, wrapped_shape};

use crate::model::types::TypeTypeOf;
use language::error::OutOfMemory;
use language::types::TypeModifier;
use meta::kinds::MetaTypeOf;
use std::alloc::Global;
use std::fmt;

impl<'a, S, C> TypeTypeOf<'a, S, C> {
    /// The metadata; `None` if the type has modifiers.
    pub fn to_concrete(&self) -> Option<&'a MetaTypeOf<S, C>>
        ensures { option_copied result ≡ concrete_of self.now }
    {
        match self {
            TypeTypeOf::Concrete(meta) => Some(meta),
            TypeTypeOf::NonNull(_) => None,
            TypeTypeOf::List(_, _) => None,
        }
    }

    /// The metadata, whatever modifiers the type has.
    pub fn innermost_concrete(&self) -> &'a MetaTypeOf<S, C>
        ensures { result.now ≡ (wrapped_of self.now).meta }
    {
        match self {
            TypeTypeOf::Concrete(meta) => meta,
            TypeTypeOf::NonNull(inner) => inner.innermost_concrete(),
            TypeTypeOf::List(inner, _) => inner.innermost_concrete(),
        }
    }

    /// The type of the items, if the type is a list or a non-null list.
    pub fn list_contents(&self) -> Option<&Self>
        ensures { option_map wrapped_of (option_copied result) ≡ items_of (wrapped_of self.now) }
    {
        match self {
            TypeTypeOf::Concrete(_) => None,
            TypeTypeOf::NonNull(inner) => inner.list_contents(),
            TypeTypeOf::List(inner, _) => Some(&**inner),
        }
    }

    /// Whether the outermost modifier is a non-null.
    pub fn is_non_null(&self) -> bool
        ensures { IsTrue result ↔ (outermost (wrapped_of self.now).modifiers ≡ Some TypeModifier.NonNull) }
    {
        match self {
            TypeTypeOf::Concrete(_) => false,
            TypeTypeOf::NonNull(_) => true,
            TypeTypeOf::List(_, _) => false,
        }
    }
}

/// The type with one more modifier, as the outermost.
///
/// # Errors
///
/// Out of memory.
pub fn wrap_type<'a, S: Drop, C: Drop>(
    alloc: Global,
    inner: TypeTypeOf<'a, S, C>,
    modifier: TypeModifier,
) -> Result<TypeTypeOf<'a, S, C>, OutOfMemory>
    ensures { IfOk result (λ t. wrapped_of t ≡ wrap_meta modifier (wrapped_of inner.entry)) }
{
    let inner = Box::new(alloc, inner)?;
    match modifier {
        TypeModifier::NonNull => Ok(TypeTypeOf::NonNull(inner)),
        TypeModifier::List(size) => Ok(TypeTypeOf::List(inner, size)),
    }
}

/// `Name`, `T!` or `[T]`. An expected size is not printed, and metadata without a name prints nothing.
impl<S, C> fmt::Display for TypeTypeOf<'_, S, C> {
    ghost output = { λ t. Some (printed (wrapped_shape (wrapped_of t))) };

    fn fmt<W: fmt::Write>(&self, f: &mut fmt::Formatter<W>) -> fmt::Result {
        match self {
            TypeTypeOf::Concrete(meta) => f.write_str(meta.name().unwrap_or("")),
            TypeTypeOf::NonNull(inner) => {
                (**inner).fmt(f)?;
                f.write_str("!")
            }
            TypeTypeOf::List(inner, _) => {
                f.write_str("[")?;
                (**inner).fmt(f)?;
                f.write_str("]")
            }
        }
    }
}
