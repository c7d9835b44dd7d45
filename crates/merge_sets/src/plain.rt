//! Sets in which nothing can conflict, so that a search passes over them.
ghost use Rattle.std.specs.Prelude.{◌≡◌, ◌<◌, ◌≤◌, ℕ, IfOk, OnOk, length, true};
ghost use Rattle.std.specs.Bool.{OnTrue};
ghost use Rattle.std.specs.List.{All};
ghost use Rattle.bit_matrix.specs.Set.{has};
ghost use Rattle.merge_sets.specs.World.{own_of, set_of, world};
ghost use Rattle.merge_sets.specs.Plain.{ArePlain, ArePlainBut, IsPlain, IsPlainBelow, IsPlainField};

use crate::graph::Graph;
use crate::judge::Judge;
use crate::node::{Entry, SetNode};
use crate::plain_names::mixed_names;
use crate::view::{own, set, spreads};
use bit_matrix::set::BitSet;
use std::alloc::{AllocError, Global};

/// Whether a fragment is marked as plain.
pub fn is_plain<J: Judge>(graph: &Graph<J>, f: usize, sets: &BitSet) -> bool
    requires { ArePlain (world J.judgement graph.now) sets.now }
    ensures marked { result ≡ has sets.now (set_of (world J.judgement graph.now) f) }
    ensures plain { let w = world J.judgement graph.now in OnTrue result (IsPlain w (set_of w f)) }
{
    sets.contains(set(graph, f))
}

// Whether a field is plain, by the names that aren't and the sets that are.
fn is_plain_field<J: Judge>(graph: &Graph<J>, field: Entry, mixed: &BitSet, sets: &BitSet) -> bool
    requires names { ArePlainBut (world J.judgement graph.now) mixed.now }
    requires sets { ArePlain (world J.judgement graph.now) sets.now }
    ensures { OnTrue result (IsPlainField (world J.judgement graph.now) field) }
{
    is_plain_below(graph, field, sets) && !mixed.contains(field.response)
}

/// Whether all that stands below some fields is marked as plain.
pub fn are_plain_below<J: Judge>(graph: &Graph<J>, fields: &[Entry], sets: &BitSet) -> bool
    requires { ArePlain (world J.judgement graph.now) sets.now }
    ensures { OnTrue result (All (IsPlainBelow (world J.judgement graph.now)) fields.now) }
{
    for field in fields {
        if !is_plain_below(graph, *field, sets) {
            return false;
        }
    }
    true
}

/// Whether all that stands below a field is marked as plain.
pub fn is_plain_below<J: Judge>(graph: &Graph<J>, field: Entry, sets: &BitSet) -> bool
    requires { ArePlain (world J.judgement graph.now) sets.now }
    ensures { OnTrue result (IsPlainBelow (world J.judgement graph.now) field) }
{
    match field.below {
        Some(s) => sets.contains(s),
        None => true,
    }
}

fn are_plain_fields<J: Judge>(
    graph: &Graph<J>,
    fields: &[Entry],
    mixed: &BitSet,
    sets: &BitSet,
) -> bool
    requires names { ArePlainBut (world J.judgement graph.now) mixed.now }
    requires sets { ArePlain (world J.judgement graph.now) sets.now }
    ensures { OnTrue result (All (IsPlainField (world J.judgement graph.now)) fields.now) }
{
    for field in fields {
        if !is_plain_field(graph, *field, mixed, sets) {
            return false;
        }
    }
    true
}

fn are_plain_fragments<J: Judge>(graph: &Graph<J>, fragments: &[usize], sets: &BitSet) -> bool
    requires { ArePlain (world J.judgement graph.now) sets.now }
    ensures { let w = world J.judgement graph.now in
        OnTrue result (All (λ f. IsPlain w (set_of w f)) fragments.now) }
{
    for f in fragments {
        if !is_plain(graph, *f, sets) {
            return false;
        }
    }
    true
}

// Whether a set is plain, by the smaller ones that are.
fn is_plain_set<J: Judge>(graph: &Graph<J>, s: usize, mixed: &BitSet, sets: &BitSet) -> bool
    requires names { ArePlainBut (world J.judgement graph.now) mixed.now }
    requires sets { ArePlain (world J.judgement graph.now) sets.now }
    ensures { OnTrue result (IsPlain (world J.judgement graph.now) s) }
{
    are_plain_fragments(graph, spreads(graph, s), sets)
        && are_plain_fields(graph, own(graph, s), mixed, sets)
}

// The sets that are plain. Each refers to smaller ones, so one pass in the order of their numbers finds them.
fn plain_sets<J: Judge>(
    alloc: Global,
    graph: &Graph<J>,
    budget: &mut usize,
) -> Result<BitSet, AllocError>
    ensures plain { IfOk result (λ sets. ArePlain (world J.judgement graph.now) sets) }
    ensures spent { budget.new ≤ budget.old }
    ensures ticks { let w = world J.judgement graph.now in OnOk result ((s : ℕ) → 0 < length (own_of w s)
        → 0 < budget.old → budget.new < budget.old) }
{
    let mixed = mixed_names(alloc, graph, budget)?;
    let mut sets = BitSet::new(alloc);
    for s in 0..graph.sets.len() {
        if is_plain_set(graph, s, &mixed, &sets) {
            sets.insert(s)?;
        }
    }
    Ok(sets)
}

/// With fewer fragments, or sets that repeat response names, so few pairs are compared that passing some over gains
/// nothing.
pub const MANY: usize = 8;

// A set with fewer fields has few pairs of one response name.
const WIDE: usize = 64;

// Whether some set may be met more than once: one spreads two fragments, or a fragment with fields of its own spreads
// another. Or many sets have fields of one response name, or one that is wide has.
fn is_worthwhile<J>(graph: &Graph<J>) -> bool {
    let fragments = graph.fragments.as_slice();
    let sets = graph.sets.as_slice();
    fragments.len() >= MANY
        && (sets.iter().any(|set| set.spreads.len() > 1)
            || fragments.iter().any(|s| may_be_met_again(sets, *s)))
        || sets.iter().filter(|set| repeats_names(set)).count() >= MANY
        || sets
            .iter()
            .any(|set| repeats_names(set) && set.own.len() >= WIDE)
}

fn repeats_names(set: &SetNode) -> bool {
    match &set.index {
        Some(index) => index.firsts.is_some(),
        None => false,
    }
}

fn may_be_met_again(sets: &[SetNode], s: usize) -> bool {
    match sets.get(s) {
        Some(set) => !set.own.is_empty() && !set.spreads.is_empty(),
        None => false,
    }
}

/// Lists sets that a search may pass over: they are plain. Where few pairs would be compared, it lists none. What is
/// asked of fields is taken off the budget, and where that hasn't enough, fewer sets are listed.
///
/// # Errors
///
/// Out of memory.
pub fn passed_over<J: Judge>(
    alloc: Global,
    graph: &Graph<J>,
    budget: &mut usize,
) -> Result<BitSet, AllocError>
    ensures plain { IfOk result (λ sets. ArePlain (world J.judgement graph.now) sets) }
    ensures spent { budget.new ≤ budget.old }
    ensures ticks { let w = world J.judgement graph.now in IfOk result (λ sets. (s : ℕ) → has sets s ≡ true
        → 0 < length (own_of w s) → 0 < budget.old → budget.new < budget.old) }
{
    if is_worthwhile(graph) {
        plain_sets(alloc, graph, budget)
    } else {
        Ok(BitSet::new(alloc))
    }
}
