//! The fields of a set by their response names.
ghost use Rattle.std.specs.Prelude.{◌≡◌, IfOk};
ghost use Rattle.std.specs.Bool.{OnTrue};
ghost use Rattle.std.specs.Option.{option_map_or};
ghost use Rattle.merge_sets.specs.Names as Spec;
ghost use Rattle.merge_sets.specs.Indexed.{firsts_of};

use crate::node::{Entry, NameIndex, SetNode};
use bit_matrix::set::BitSet;
use std::alloc::{AllocError, Global};

/// The fields of a response name, among fields sorted by it.
pub fn fields_named(fields: &[Entry], name: usize) -> &[Entry]
    requires { Spec.AreSorted fields.now }
    ensures { result.now ≡ Spec.named name fields.now }
{
    let start = fields.partition_point(|a| a.response < name);
    let rest = &fields[start..];
    let end = rest.partition_point(|a| a.response <= name);
    &rest[..end]
}

// The fields by the numbers of their response names; those of one name keep their order.
fn sort_fields(alloc: Global, own: &[Entry]) -> Result<Vec<Entry>, AllocError>
    ensures sorted { IfOk result (λ v. Spec.AreSorted v.items) }
    ensures grouped { IfOk result (λ v. Spec.HaveSameGroups v.items own.now) }
{
    let mut by_name = Vec::from_slice(alloc, own)?;
    by_name.sort_by_key(|a| a.response)?;
    Ok(by_name)
}

// The first field of each response name, in the order in which they stand.
fn list_firsts(alloc: Global, own: &[Entry]) -> Result<Vec<Entry>, AllocError>
    ensures listed { IfOk result (λ v. Spec.AreListed v.items own.now) }
    ensures once { IfOk result (λ v. Spec.HaveOwnNames v.items) }
{
    let mut seen = BitSet::new(alloc);
    let mut firsts = Vec::with_capacity(alloc, own.len())?;
    for field in own {
        if seen.insert(field.response)? {
            firsts.push(*field)?;
        }
    }
    Ok(firsts)
}

// Whether each response name has one field, and their numbers rise.
fn are_ascending(own: &[Entry]) -> bool
    ensures sorted { OnTrue result (Spec.AreSorted own.now) }
    ensures once { OnTrue result (Spec.HaveOwnNames own.now) }
{
    own.is_sorted_by(|a, b| a.response < b.response)
}

// The first field of each response name, where some name has two; else each field is the first of its name.
fn repeated_firsts(
    alloc: Global,
    own: &[Entry],
    by_name: &[Entry],
) -> Result<Option<Vec<Entry>>, AllocError>
    requires { Spec.HaveSameGroups by_name.now own.now }
    ensures listed { IfOk result (λ firsts. Spec.AreListed (option_map_or (λ v. v.items) firsts own.now) own.now) }
    ensures once { IfOk result (λ firsts. Spec.HaveOwnNames (option_map_or (λ v. v.items) firsts own.now)) }
{
    if are_ascending(by_name) {
        return Ok(None);
    }
    Ok(Some(list_firsts(alloc, own)?))
}

/// Makes a set of these own fields, which spreads these fragments.
///
/// # Errors
///
/// Out of memory.
pub fn make_set(alloc: Global, own: Vec<Entry>, spreads: Vec<usize>) -> Result<SetNode, AllocError>
    ensures own { IfOk result (λ set. set.own ≡ own) }
    ensures spreads { IfOk result (λ set. set.spreads ≡ spreads) }
{
    if are_ascending(own.as_slice()) {
        return Ok(SetNode {
            own,
            spreads,
            index: None,
        });
    }
    let by_name = sort_fields(alloc, own.as_slice())?;
    let firsts = repeated_firsts(alloc, own.as_slice(), by_name.as_slice())?;
    Ok(SetNode {
        own,
        spreads,
        index: Some(NameIndex { firsts, by_name }),
    })
}

/// The first own field of each response name, in the order in which they stand.
pub fn first_fields(set: &SetNode) -> &[Entry]
    ensures { result.now ≡ firsts_of set.now.own.items set.now.index }
{
    match &set.index {
        Some(index) => match &index.firsts {
            Some(firsts) => firsts.as_slice(),
            None => set.own.as_slice(),
        },
        None => set.own.as_slice(),
    }
}

/// The own fields by the numbers of their response names.
pub fn sorted_fields(set: &SetNode) -> &[Entry]
    ensures sorted { Spec.AreSorted result.now }
    ensures grouped { Spec.HaveSameGroups result.now set.now.own.items }
{
    match &set.index {
        Some(index) => index.by_name.as_slice(),
        None => set.own.as_slice(),
    }
}
