//! What a search reads of a graph.
ghost use Rattle.std.specs.Prelude.{◌≡◌, ◌<◌, ◌≤◌, Bool, IfOk, false, length};
ghost use Rattle.merge_sets.specs.Names.{named, AreListed, HaveOwnNames};
ghost use Rattle.std.specs.Bool.{OnTrue};
ghost use Rattle.std.specs.List.{All};
ghost use Rattle.merge_sets.specs.Budget.{Asks};
ghost use Rattle.merge_sets.specs.Graph.{firsts_at};
ghost use Rattle.merge_sets.specs.Clear.{AreLeaves};
ghost use Rattle.merge_sets.specs.Judgement.{NoneConflict};
ghost use Rattle.merge_sets.specs.World.{world, own_of, spreads_of, set_of, exclusive_of, conflict_of};

use crate::budget::take_questions;
use crate::graph::Graph;
use crate::groups::{fields_named, first_fields, sorted_fields};
use crate::judge::Judge;
use crate::node::Entry;
use std::alloc::AllocError;

/// The first own field of each response name of a set, in the order in which they stand.
pub fn firsts<J: Judge>(graph: &Graph<J>, s: usize) -> &[Entry]
    ensures listed { AreListed result.now (own_of (world J.judgement graph.now) s) }
    ensures once { HaveOwnNames result.now }
{
    match graph.sets.get(s) {
        Some(node) => first_fields(node),
        None => &[],
    }
}

/// The same list, of which more is known.
pub fn first_of_names<J: Judge>(graph: &Graph<J>, s: usize) -> &[Entry]
    ensures is { result.now ≡ firsts_at graph.now.sets.items s }
    ensures once { HaveOwnNames result.now }
{
    match graph.sets.get(s) {
        Some(node) => first_fields(node),
        None => &[],
    }
}

/// The own fields of a set.
pub fn own<J: Judge>(graph: &Graph<J>, s: usize) -> &[Entry]
    ensures { result.now ≡ own_of (world J.judgement graph.now) s }
{
    match graph.sets.get(s) {
        Some(node) => node.own.as_slice(),
        None => &[],
    }
}

/// The own fields of a set that have a response name.
pub fn group<J: Judge>(graph: &Graph<J>, s: usize, name: usize) -> &[Entry]
    ensures { result.now ≡ named name (own_of (world J.judgement graph.now) s) }
{
    match graph.sets.get(s) {
        Some(node) => fields_named(sorted_fields(node), name),
        None => &[],
    }
}

/// The sets in the order in which they are searched.
pub fn order<J>(graph: &Graph<J>) -> &[usize]
    ensures { result.now ≡ graph.now.order.items }
{
    graph.order.as_slice()
}

/// The fragments that a set spreads.
pub fn spreads<J: Judge>(graph: &Graph<J>, s: usize) -> &[usize]
    ensures { result.now ≡ spreads_of (world J.judgement graph.now) s }
{
    match graph.sets.get(s) {
        Some(node) => node.spreads.as_slice(),
        None => &[],
    }
}

/// The set of a fragment.
pub fn set<J: Judge>(graph: &Graph<J>, f: usize) -> usize
    ensures { result ≡ set_of (world J.judgement graph.now) f }
{
    match graph.fragments.get(f) {
        Some(s) => *s,
        None => 0,
    }
}

/// Whether two fields can never be asked of one object.
pub fn are_exclusive<J: Judge>(graph: &Graph<J>, e: bool, a: Entry, b: Entry) -> bool
    ensures { result ≡ exclusive_of (world J.judgement graph.now) e a b }
{
    graph.judge.are_exclusive(e, a.field, b.field)
}

/// Whether two fields conflict by themselves.
///
/// # Errors
///
/// Out of memory.
pub fn are_in_conflict<J: Judge>(
    graph: &Graph<J>,
    e: bool,
    a: Entry,
    b: Entry,
) -> Result<bool, AllocError>
    ensures { IfOk result (λ c. c ≡ conflict_of (world J.judgement graph.now) e a b) }
{
    graph.judge.are_in_conflict(e, a.field, b.field)
}

/// Whether it is plain that no field of the one list conflicts with one of the other. `false` says nothing. What is
/// asked is taken off the budget.
pub fn agree_plainly<J: Judge>(
    graph: &Graph<J>,
    left: &[Entry],
    right: &[Entry],
    budget: &mut usize,
) -> bool
    ensures agree { OnTrue result ((e : Bool) → NoneConflict (J.judgement graph.now.judge) e left.now right.now) }
    ensures spent { budget.new ≤ budget.old }
    ensures ticks { OnTrue result (0 < length left.now → budget.new < budget.old) }
{
    match left.first() {
        Some(first) => {
            let one = first.field;
            are_like(graph, one, left, budget) && are_like(graph, one, right, budget)
        }
        None => true,
    }
}

// Whether some fields are like one.
fn are_like<J: Judge>(graph: &Graph<J>, one: usize, others: &[Entry], budget: &mut usize) -> bool
    ensures like { OnTrue result (All (λ a. J.are_alike graph.now.judge one a.field) others.now) }
    ensures asks { Asks (length others.now) (result ≡ false) budget.old budget.new }
    ensures spent { budget.new ≤ budget.old }
{
    if !take_questions(budget, others.len()) {
        return false;
    }
    for other in others {
        if !graph.judge.is_plainly_like(one, other.field) {
            return false;
        }
    }
    true
}

/// Whether nothing stands below any of them.
pub fn are_leaves(fields: &[Entry]) -> bool
    ensures { OnTrue result (AreLeaves fields.now) }
{
    for field in fields {
        if field.below.is_some() {
            return false;
        }
    }
    true
}
