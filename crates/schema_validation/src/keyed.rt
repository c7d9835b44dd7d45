//! Maps by name that keep the order of a list.
ghost use Rattle.std.specs.Prelude.{◌≡◌, ℕ, List, Option, IfErr, IfOk, IfSome, IsSome, OnOk, None, true, [], ◌∷◌, ◌++◌};
ghost use Rattle.std.specs.Prelude.{string_bytes, option_copied};
ghost use Rattle.indexmap.specs.IndexMap.{values, get_by_text};
ghost use Rattle.schema_validation.specs.Directives.{directive_name};
ghost use Rattle.meta.specs.Kinds.{name_of_meta};
ghost use Rattle.schema_validation.specs.Named.{is_called, are_named, are_distinct, are_keyed};

use crate::directives::DirectiveType;
use crate::error::SchemaError;
use indexmap::IndexMap;
use meta::kinds::MetaTypeOf;
use std::alloc::Global;

/// Anything that may have a name.
pub trait Keyed {
    ghost key_of: { Self → Option (List ℕ) };

    fn key(&self) -> Option<&str>
        ensures { option_copied result ≡ key_of self.now };
}

/// Adds an entry under its name, at the end.
fn add_entry<T: Keyed + Drop>(
    map: &mut IndexMap<String, T>,
    key: String,
    entry: T,
) -> Result<(), SchemaError>
    requires named { is_called T.key_of (string_bytes key) entry ≡ true }
    requires new { get_by_text map.old (string_bytes key) ≡ None }
    ensures listed { OnOk result (values map.new ≡ values map.old ++ entry ∷ []) }
    ensures keyed { OnOk result (are_keyed T.key_of map.old.entries ≡ true → are_keyed T.key_of map.new.entries
        ≡ true) }
    ensures err { IfErr result (λ e. e ≡ SchemaError.OutOfMemory) }
{
    match map.insert(key, entry) {
        Ok(_) => Ok(()),
        Err(_) => Err(SchemaError::OutOfMemory),
    }
}

/// The key for an entry whose name is not in the map.
fn new_key<T: Keyed + Drop>(
    alloc: Global,
    map: &IndexMap<String, T>,
    entry: &T,
) -> Result<String, SchemaError>
    requires named { IsSome (T.key_of entry.now) }
    requires new { IfSome (T.key_of entry.now) (λ n. get_by_text map.now n ≡ None) }
    ensures named { IfOk result (λ k. is_called T.key_of (string_bytes k) entry.now ≡ true) }
    ensures new { IfOk result (λ k. get_by_text map.now (string_bytes k) ≡ None) }
    ensures err { IfErr result (λ e. e ≡ SchemaError.OutOfMemory) }
{
    let Some(name) = entry.key() else {
        unreachable!()
    };
    Ok(String::from_str(alloc, name)?)
}

/// A map from the names of the entries to the entries, in the order of the list.
///
/// # Errors
///
/// Out of memory.
pub fn map_by_name<T: Keyed + Drop>(
    alloc: Global,
    entries: Vec<T>,
) -> Result<IndexMap<String, T>, SchemaError>
    requires named { are_named T.key_of entries.items ≡ true }
    requires distinct { are_distinct T.key_of entries.items ≡ true }
    ensures keyed { IfOk result (λ m. are_keyed T.key_of m.entries ≡ true) }
    ensures listed { IfOk result (λ m. values m ≡ entries.items) }
    ensures err { IfErr result (λ e. e ≡ SchemaError.OutOfMemory) }
{
    let mut map = IndexMap::new(alloc);
    for entry in entries {
        let key = new_key(alloc, &map, &entry)?;
        add_entry(&mut map, key, entry)?;
    }
    Ok(map)
}

impl<S, C> Keyed for MetaTypeOf<S, C> {
    ghost key_of = { name_of_meta };

    fn key(&self) -> Option<&str> {
        self.name()
    }
}

impl<S> Keyed for DirectiveType<S> {
    ghost key_of = { directive_name };

    fn key(&self) -> Option<&str> {
        Some(self.name.as_str())
    }
}
