//! The types of a schema for references to types in a document.
ghost use Rattle.std.specs.Prelude.{◌≡◌, [], IfOk, IsOk, Some, true};
ghost use Rattle.language_types.specs.Types.{borrowed_shape};
ghost use Rattle.schema_validation.specs.Accepted.{is_listed};
ghost use Rattle.schema.specs.Catalog.{type_in};
ghost use Rattle.schema.specs.Wrapped.{wrapped_of};

use crate::model::schemas::SchemaTypeOf;
use crate::model::type_calls::wrap_type;
use crate::model::types::TypeTypeOf;
use language::error::OutOfMemory;
use language::types::BorrowedType;
use std::alloc::Global;

impl<S: Drop, C: Drop> SchemaTypeOf<S, C> {
    /// The type of the schema for a reference to a type, with the same modifiers (section 3.4.1).
    ///
    /// The schema has to have a type of the innermost name: see [`SchemaTypeOf::is_known`].
    ///
    /// # Errors
    ///
    /// Out of memory; never if the type has no modifiers.
    pub fn make_type(
        &self,
        alloc: Global,
        named: BorrowedType<'_>,
    ) -> Result<TypeTypeOf<'_, S, C>, OutOfMemory>
        requires { is_listed self.now.types (borrowed_shape named).name ≡ true }
        ensures meta { IfOk result (λ t. type_in (borrowed_shape named.entry).name self.now
            ≡ Some (wrapped_of t).meta) }
        ensures modifiers { IfOk result (λ t. (wrapped_of t).modifiers ≡ (borrowed_shape named.entry).modifiers) }
        ensures plain { (borrowed_shape named.entry).modifiers ≡ [] → IsOk result }
    {
        let mut made = self.plain_type(named.innermost_name());
        for modifier in named.modifiers() {
            made = wrap_type(alloc, made, *modifier)?;
        }
        Ok(made)
    }

    /// The type of this name, without modifiers.
    fn plain_type(&self, name: &str) -> TypeTypeOf<'_, S, C>
        requires { is_listed self.now.types name.now ≡ true }
        ensures meta { type_in name.now self.now ≡ Some (wrapped_of result).meta }
        ensures modifiers { (wrapped_of result).modifiers ≡ [] }
    {
        match self.concrete_type_by_name(name) {
            Some(meta) => TypeTypeOf::Concrete(meta),
            None => unreachable!(),
        }
    }
}
