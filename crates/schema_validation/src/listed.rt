//! Whether a list contains a type of a name, and tests of names.
ghost use Rattle.std.specs.Prelude.{◌≡◌, ℕ, List, Bool, not};
ghost use Rattle.meta.specs.Kinds.{is_object_meta};
ghost use Rattle.schema_validation.specs.Accepted.{is_listed, is_object_listed, is_input_listed};

use crate::table::TypeTable;
use meta::kinds::MetaTypeOf;

/// Whether some type of the list has this name.
fn is_type_listed<S, C>(table: &TypeTable<'_, S, C>, name: &str) -> bool
    ensures { result ≡ is_listed table.now.types.now name.now }
{
    table.get(name).is_some()
}

fn is_object<S, C>(meta: &MetaTypeOf<S, C>) -> bool
    ensures { result ≡ is_object_meta meta.now }
{
    matches!(meta, MetaTypeOf::Object(_))
}

/// Whether some object type of the list has this name.
pub(crate) fn is_object_type_listed<S, C>(table: &TypeTable<'_, S, C>, name: &str) -> bool
    ensures { result ≡ is_object_listed table.now.types.now name.now }
{
    match table.get(name) {
        Some(meta) => is_object(meta),
        None => false,
    }
}

/// Whether some input type of the list has this name.
fn is_input_type_listed<S, C>(table: &TypeTable<'_, S, C>, name: &str) -> bool
    ensures { result ≡ is_input_listed table.now.types.now name.now }
{
    match table.get(name) {
        Some(meta) => meta.is_input(),
        None => false,
    }
}

/// A test that names pass or fail.
pub trait NameTest {
    ghost fails_at: { Self → List ℕ → Bool };

    fn fails(&self, name: &str) -> bool
        ensures { result ≡ fails_at self.now name.now };
}

/// Fails for names that no type of the list has.
#[derive_where(Clone, Copy)]
pub(crate) struct Unlisted<'r, 't, S, C>(pub(crate) &'r TypeTable<'t, S, C>);

impl<S, C> NameTest for Unlisted<'_, '_, S, C> {
    ghost fails_at = { λ t n. not (is_listed t.0.now.types.now n) };

    fn fails(&self, name: &str) -> bool {
        !is_type_listed(self.0, name)
    }
}

/// Fails for names that no object type of the list has.
#[derive_where(Clone, Copy)]
pub(crate) struct NotObject<'r, 't, S, C>(pub(crate) &'r TypeTable<'t, S, C>);

impl<S, C> NameTest for NotObject<'_, '_, S, C> {
    ghost fails_at = { λ t n. not (is_object_listed t.0.now.types.now n) };

    fn fails(&self, name: &str) -> bool {
        !is_object_type_listed(self.0, name)
    }
}

/// Fails for names that no input type of the list has.
#[derive_where(Clone, Copy)]
pub(crate) struct NotInput<'r, 't, S, C>(pub(crate) &'r TypeTable<'t, S, C>);

impl<S, C> NameTest for NotInput<'_, '_, S, C> {
    ghost fails_at = { λ t n. not (is_input_listed t.0.now.types.now n) };

    fn fails(&self, name: &str) -> bool {
        !is_input_type_listed(self.0, name)
    }
}
