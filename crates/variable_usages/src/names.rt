//! Sets of names of variables.
ghost use Rattle.std.specs.Prelude.{◌≡◌, ℕ, List, IfOk, OnOk, map, true, if◌then◌else◌};
ghost use Rattle.std.specs.Str.{bytes_eq};
ghost use Rattle.variable_usages.specs.Names.{AddsUse, HasNames, has_name, variable_list};
ghost use Rattle.variable_usages.specs.Uses.{use_of};

use crate::uses::VariableUse;
use language::error::OutOfMemory;
use language::position::Spanning;
use language::tree::{Operation, VariableDefinition};
use std::alloc::Global;
use std::collections::BTreeSet;

/// Whether the set contains this name.
pub fn is_named(set: &BTreeSet<&str>, name: &str) -> bool
    ensures { result ≡ has_name set.now name.now }
{
    set.contains(name)
}

// Adds a name.
fn add_name<'a>(set: &mut BTreeSet<&'a str>, name: &'a str) -> Result<(), OutOfMemory>
    ensures { OnOk result ((other : List ℕ) → has_name set.new other
        ≡ (if bytes_eq name.now other then true else has_name set.old other)) }
{
    set.insert(name)?;
    Ok(())
}

/// The variables of an operation with their definitions, in order.
pub fn variables<'d, 't, S>(
    operation: &'d Spanning<Operation<'t, S>>,
) -> &'d [(Spanning<&'t str>, VariableDefinition<'t, S>)]
    ensures { result.now ≡ variable_list operation.now }
{
    match &operation.item.variable_definitions {
        Some(definitions) => definitions.item.items.as_slice(),
        None => &[],
    }
}

/// The set of the names of these variables.
///
/// # Errors
///
/// Out of memory.
pub fn name_set<'a, S>(
    alloc: Global,
    variables: &[(Spanning<&'a str>, VariableDefinition<'_, S>)],
) -> Result<BTreeSet<&'a str>, OutOfMemory>
    ensures { IfOk result (λ set. HasNames set (map (λ v. v.0.item.now) variables.now)) }
{
    let mut set = BTreeSet::new(alloc);
    for variable in variables {
        add_name(&mut set, variable.0.item)?;
    }
    Ok(set)
}

// Adds the name of a use.
fn add_use<'a>(set: &mut BTreeSet<&'a str>, used: &VariableUse<'a>) -> Result<(), OutOfMemory>
    ensures { OnOk result (AddsUse used.now set.old set.new) }
{
    add_name(set, used.name)
}

/// The set of the names in these uses.
///
/// # Errors
///
/// Out of memory.
pub fn used_names<'a>(
    alloc: Global,
    uses: &[VariableUse<'a>],
) -> Result<BTreeSet<&'a str>, OutOfMemory>
    ensures { IfOk result (λ set. HasNames set (map (λ u. u.name) (map use_of uses.now))) }
{
    let mut set = BTreeSet::new(alloc);
    for used in uses {
        add_use(&mut set, used)?;
    }
    Ok(set)
}
