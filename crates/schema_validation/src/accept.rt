//! Whether a list of types makes a schema, and if not, why not (section 3.3).
ghost use Rattle.std.specs.Prelude.{◌≡◌, IfErr, IfOk, OnOk, true, find, option_copied};
ghost use Rattle.std.specs.List.{list_all};
ghost use Rattle.schema_validation.specs.Accepted.{Roots, IsAccepted, IsTrueRefusal, is_listed, is_object_listed};
ghost use Rattle.schema_validation.specs.Accepted.{is_input_listed, root_names};
ghost use Rattle.meta.specs.Kinds.{name_of_meta};
ghost use Rattle.schema_validation.specs.Named.{are_named, are_distinct};
ghost use Rattle.schema_validation.specs.Names.{all_names, all_inputs, all_members};
ghost use Rattle.schema_validation.specs.RootNames.{roots_asked};

use crate::error::SchemaError;
use crate::first::{
    first_added_input, first_added_name, first_input_of_all, first_member_of_all, first_name_of_all,
};
use crate::listed::{NameTest, NotInput, NotObject, Unlisted, is_object_type_listed};
use crate::roots::{RootNames, first_root};
use crate::table::TypeTable;
use meta::kinds::MetaTypeOf;
use std::alloc::Global;

/// Whether every type has a name.
fn are_all_named<S, C>(types: &[MetaTypeOf<S, C>]) -> bool
    ensures { result ≡ are_named name_of_meta types.now }
{
    for meta in types {
        if meta.name().is_none() {
            return false;
        }
    }
    true
}

/// The table of the types, each of which has a name of its own.
fn check_entries<'t, S, C>(
    alloc: Global,
    types: &'t [MetaTypeOf<S, C>],
) -> Result<TypeTable<'t, S, C>, SchemaError>
    ensures named { OnOk result (are_named name_of_meta types.now ≡ true) }
    ensures types { IfOk result (λ t. t.types.now ≡ types.now) }
    ensures err { (roots : Roots) → IfErr result (IsTrueRefusal roots types.now) }
{
    if !are_all_named(types) {
        return Err(SchemaError::UnnamedType);
    }
    TypeTable::new(alloc, types)
}

fn check_roots<S, C>(
    alloc: Global,
    table: &TypeTable<'_, S, C>,
    roots: RootNames<'_>,
) -> Result<(), SchemaError>
    ensures listed { OnOk result (list_all (is_listed table.now.types.now) (root_names (roots_asked roots.entry))
        ≡ true) }
    ensures object { OnOk result (is_object_listed table.now.types.now (roots_asked roots.entry).query ≡ true) }
    ensures err { IfErr result (IsTrueRefusal (roots_asked roots.entry) table.now.types.now) }
{
    if let Some(name) = first_root(&Unlisted(table), roots) {
        return Err(SchemaError::MissingRoot(String::from_str(alloc, name)?));
    }
    if !is_object_type_listed(table, roots.query) {
        return Err(SchemaError::QueryNotObject);
    }
    Ok(())
}

/// The first faulty name among all names of types in the list and in what a schema adds.
fn first_of_names<'t, T: NameTest, S, C>(test: &T, types: &'t [MetaTypeOf<S, C>]) -> Option<&'t str>
    ensures { option_copied result ≡ find (T.fails_at test.now) (all_names types.now) }
{
    if let Some(name) = first_name_of_all(test, types) {
        return Some(name);
    }
    first_added_name(test)
}

/// The first faulty name among the types of all arguments and input fields.
fn first_of_inputs<'t, T: NameTest, S, C>(
    test: &T,
    types: &'t [MetaTypeOf<S, C>],
) -> Option<&'t str>
    ensures { option_copied result ≡ find (T.fails_at test.now) (all_inputs types.now) }
{
    if let Some(name) = first_input_of_all(test, types) {
        return Some(name);
    }
    first_added_input(test)
}

fn check_names<S, C>(alloc: Global, table: &TypeTable<'_, S, C>) -> Result<(), SchemaError>
    ensures ok { OnOk result (list_all (is_listed table.now.types.now) (all_names table.now.types.now) ≡ true) }
    ensures err { (roots : Roots) → IfErr result (IsTrueRefusal roots table.now.types.now) }
{
    match first_of_names(&Unlisted(table), table.types) {
        Some(name) => Err(SchemaError::UnknownType(String::from_str(alloc, name)?)),
        None => Ok(()),
    }
}

fn check_members<S, C>(alloc: Global, table: &TypeTable<'_, S, C>) -> Result<(), SchemaError>
    requires { list_all (is_listed table.now.types.now) (all_names table.now.types.now) ≡ true }
    ensures ok { OnOk result (list_all (is_object_listed table.now.types.now) (all_members table.now.types.now)
        ≡ true) }
    ensures err { (roots : Roots) → IfErr result (IsTrueRefusal roots table.now.types.now) }
{
    match first_member_of_all(&NotObject(table), table.types) {
        Some(name) => Err(SchemaError::UnionMemberNotObject(String::from_str(alloc, name)?)),
        None => Ok(()),
    }
}

fn check_inputs<S, C>(alloc: Global, table: &TypeTable<'_, S, C>) -> Result<(), SchemaError>
    requires { list_all (is_listed table.now.types.now) (all_names table.now.types.now) ≡ true }
    ensures ok { OnOk result (list_all (is_input_listed table.now.types.now) (all_inputs table.now.types.now) ≡ true) }
    ensures err { (roots : Roots) → IfErr result (IsTrueRefusal roots table.now.types.now) }
{
    match first_of_inputs(&NotInput(table), table.types) {
        Some(name) => Err(SchemaError::NotInputType(String::from_str(alloc, name)?)),
        None => Ok(()),
    }
}

fn check_table<S, C>(
    alloc: Global,
    table: &TypeTable<'_, S, C>,
    roots: RootNames<'_>,
) -> Result<(), SchemaError>
    requires { are_named name_of_meta table.now.types.now ≡ true }
    ensures ok { OnOk result (IsAccepted (roots_asked roots.entry) table.now.types.now) }
    ensures err { IfErr result (IsTrueRefusal (roots_asked roots.entry) table.now.types.now) }
{
    check_roots(alloc, table, roots)?;
    check_names(alloc, table)?;
    check_members(alloc, table)?;
    check_inputs(alloc, table)
}

/// Checks that a list of types makes a schema with these roots (section 3.3).
///
/// # Errors
///
/// The reason why the list makes no schema with these roots, or `OutOfMemory`.
pub fn check_types<S, C>(
    alloc: Global,
    types: &[MetaTypeOf<S, C>],
    roots: RootNames<'_>,
) -> Result<(), SchemaError>
    ensures ok { OnOk result (IsAccepted (roots_asked roots.entry) types.now) }
    ensures err { IfErr result (IsTrueRefusal (roots_asked roots.entry) types.now) }
{
    let table = check_entries(alloc, types)?;
    check_table(alloc, &table, roots)
}
