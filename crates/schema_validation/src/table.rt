//! The types of a list by name.
ghost use Rattle.std.specs.Prelude.{◌≡◌, ◌++◌, ◌∷◌, [], List, IfErr, IfOk, OnOk, true, find, option_copied};
ghost use Rattle.meta.specs.Kinds.{name_of_meta};
ghost use Rattle.schema_validation.specs.Accepted.{Roots, IsTrueRefusal, is_named};
ghost use Rattle.schema_validation.specs.Named.{are_distinct};
ghost use Rattle.schema_validation.specs.Repeated.{repeated_name};
ghost use Rattle.schema_validation.specs.Tables.{HasTypes};

use crate::error::SchemaError;
use meta::kinds::MetaTypeOf;
use name_tables::map::NameMap;
use std::alloc::{AllocError, Global};

/// A list of types, no two of which have the same name, with a map from their names to them.
#[derive(Drop)]
pub(crate) struct TypeTable<'t, S, C> {
    pub(crate) types: &'t [MetaTypeOf<S, C>],
    by_name: NameMap<'t, &'t MetaTypeOf<S, C>>,
    ghost mapped: { HasTypes types.now by_name },
    ghost distinct: { are_distinct name_of_meta types.now ≡ true },
}

/// Adds a type under its name. Returns the name, if a type of this name was there.
fn add_type<'t, S, C>(
    map: &mut NameMap<'t, &'t MetaTypeOf<S, C>>,
    meta: &'t MetaTypeOf<S, C>,
) -> Result<Option<&'t str>, AllocError>
    ensures earlier { IfOk result (λ name. (ts : List (MetaTypeOf S C)) → HasTypes ts map.old
        → option_copied name ≡ repeated_name meta.now ts) }
    ensures added { OnOk result ((ts : List (MetaTypeOf S C)) → HasTypes ts map.old
        → HasTypes (ts ++ meta.now ∷ []) map.new) }
{
    let Some(name) = meta.name() else {
        return Ok(None);
    };
    let earlier = map.note(name, meta)?;
    match earlier {
        Some(_) => Ok(Some(name)),
        None => Ok(None),
    }
}

impl<'t, S, C> TypeTable<'t, S, C> {
    /// The table of a list of types.
    ///
    /// # Errors
    ///
    /// `RepeatedType` if two types have the same name, or `OutOfMemory`.
    pub(crate) fn new(
        alloc: Global,
        types: &'t [MetaTypeOf<S, C>],
    ) -> Result<TypeTable<'t, S, C>, SchemaError>
        ensures types { IfOk result (λ t. t.types.now ≡ types.now) }
        ensures err { (roots : Roots) → IfErr result (IsTrueRefusal roots types.now) }
    {
        let mut by_name = NameMap::with_slots(alloc, types.len())?;
        for meta in types {
            let again = add_type(&mut by_name, meta)?;
            if let Some(name) = again {
                return Err(SchemaError::RepeatedType(String::from_str(alloc, name)?));
            }
        }
        Ok(TypeTable { types, by_name })
    }

    /// The type of this name.
    pub(crate) fn get(&self, name: &str) -> Option<&'t MetaTypeOf<S, C>>
        ensures { option_copied result ≡ find (is_named name.now) self.now.types.now }
    {
        let (_, meta) = self.by_name.entry(self.by_name.index(name)?)?;
        Some(meta)
    }
}
