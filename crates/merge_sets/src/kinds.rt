//! Kinds of fields: two fields of one kind fail with the same others, so that one of each kind is judged for all.
ghost use Rattle.std.specs.Prelude.{◌≡◌, ◌<◌, ◌≤◌, ℕ, Bool, IfOk, IfSome, None, OnOk, Some, false, length, true};
ghost use Rattle.std.specs.Prelude.{slice_get};
ghost use Rattle.std.specs.Bool.{OnTrue};
ghost use Rattle.std.specs.List.{All, Contains};
ghost use Rattle.bit_matrix.specs.Set.{has};
ghost use Rattle.bit_matrix.specs.declared.set.BitSet.{BitSet};
ghost use Rattle.merge_sets.specs.Budget.{Asks};
ghost use Rattle.merge_sets.specs.Judgement.{NoneConflict};
ghost use Rattle.merge_sets.specs.Kinds.{AreAgreeingRows, IsClearKind, IsOfKind, IsTrueOf, NeverFails};

use crate::budget::take_questions;
use crate::graph::Graph;
use crate::judge::Judge;
use crate::node::Entry;
use bit_matrix::set::BitSet;
use std::alloc::{AllocError, Global};

/// With fewer fields on a side, comparing each two is as fast.
pub const FEW: usize = 8;

/// No more kinds are told apart.
pub const MOST: usize = 1024;

// Nor more than these, where the fields may be few.
const SOME: usize = 128;

/// A field that stands for all of its kind, and whether it is known to fail with none of some others.
#[derive(Clone, Copy)]
pub struct Kind {
    pub one: usize,
    pub is_clear: bool,
}

// Whether a field is known to be of one of some kinds.
fn is_of_kind<J: Judge>(graph: &Graph<J>, kinds: &[usize], field: usize, budget: &mut usize) -> bool
    ensures kind { OnTrue result (IsOfKind (J.are_kin graph.now.judge) kinds.now field) }
    ensures asks { Asks (length kinds.now) (result ≡ false) budget.old budget.new }
    ensures spent { budget.new ≤ budget.old }
{
    if !take_questions(budget, kinds.len()) {
        return false;
    }
    for one in kinds {
        if graph.judge.is_kin(*one, field) {
            return true;
        }
    }
    false
}

// Whether a field may stand for its kind.
fn is_own_kin<J: Judge>(graph: &Graph<J>, field: usize, budget: &mut usize) -> bool
    ensures kin { OnTrue result (J.are_kin graph.now.judge field field) }
    ensures asks { Asks 1 (result ≡ false) budget.old budget.new }
    ensures spent { budget.new ≤ budget.old }
{
    take_questions(budget, 1) && graph.judge.is_kin(field, field)
}

// Adds the kind of a field, unless it is there. `false` says that there are too many.
fn add_kind<J: Judge>(
    graph: &Graph<J>,
    field: usize,
    most: usize,
    kinds: &mut Vec<usize>,
    budget: &mut usize,
) -> Result<bool, AllocError>
    ensures added { IfOk result (λ b. OnTrue b (IsOfKind (J.are_kin graph.now.judge) kinds.new.items field)) }
    ensures kept { OnOk result ((f : ℕ) → IsOfKind (J.are_kin graph.now.judge) kinds.old.items f
        → IsOfKind (J.are_kin graph.now.judge) kinds.new.items f) }
    ensures spent { budget.new ≤ budget.old }
{
    if is_of_kind(graph, kinds.as_slice(), field, budget) {
        return Ok(true);
    }
    if kinds.len() >= most || !is_own_kin(graph, field, budget) {
        return Ok(false);
    }
    kinds.push(field)?;
    Ok(true)
}

/// A field of each kind among some, or none where there are more kinds than `most`, or more to ask than the budget has.
///
/// # Errors
///
/// Out of memory.
pub fn kinds_of<J: Judge>(
    alloc: Global,
    graph: &Graph<J>,
    fields: &[Entry],
    most: usize,
    budget: &mut usize,
) -> Result<Option<Vec<usize>>, AllocError>
    ensures kinds { IfOk result (λ kinds. IfSome kinds (λ v.
        All (λ a. IsOfKind (J.are_kin graph.now.judge) v.items a.field) fields.now)) }
    ensures spent { budget.new ≤ budget.old }
{
    let mut kinds = Vec::new(alloc);
    for a in fields {
        if !add_kind(graph, a.field, most, &mut kinds, budget)? {
            return Ok(None);
        }
    }
    Ok(Some(kinds))
}

// Whether a field fails with none of some others.
fn is_clear_of<J: Judge>(
    graph: &Graph<J>,
    e: bool,
    field: usize,
    others: &[usize],
    budget: &mut usize,
) -> Result<bool, AllocError>
    ensures clear { IfOk result (λ b. OnTrue b (NeverFails (J.judgement graph.now.judge) e field others.now)) }
    ensures asks { IfOk result (λ b. Asks (length others.now) (b ≡ false) budget.old budget.new) }
    ensures spent { budget.new ≤ budget.old }
{
    if !take_questions(budget, others.len()) {
        return Ok(false);
    }
    for other in others {
        if graph.judge.are_in_conflict(e, field, *other)? {
            return Ok(false);
        }
    }
    Ok(true)
}

// The kind of a field, if it is among these.
fn kind_of<J: Judge>(
    graph: &Graph<J>,
    kinds: &[Kind],
    field: usize,
    budget: &mut usize,
) -> Option<Kind>
    ensures there { IfSome result (λ k. Contains kinds.now k) }
    ensures kin { IfSome result (λ k. J.are_kin graph.now.judge k.one field) }
    ensures asks { Asks (length kinds.now) (result ≡ None) budget.old budget.new }
    ensures spent { budget.new ≤ budget.old }
{
    if !take_questions(budget, kinds.len()) {
        return None;
    }
    for kind in kinds {
        if graph.judge.is_kin(kind.one, field) {
            return Some(*kind);
        }
    }
    None
}

// Whether a field is of a kind that fails with none of some others. What is found is kept for the rest of its kind.
fn is_clear_kind<J: Judge>(
    graph: &Graph<J>,
    e: bool,
    field: usize,
    others: &[usize],
    kinds: &mut Vec<Kind>,
    budget: &mut usize,
) -> Result<bool, AllocError>
    requires { All (IsTrueOf (J.judgement graph.now.judge) e others.now) kinds.old.items }
    ensures kinds { OnOk result (All (IsTrueOf (J.judgement graph.now.judge) e others.now) kinds.new.items) }
    ensures clear { IfOk result (λ b. OnTrue b
        (IsClearKind (J.judgement graph.now.judge) (J.are_kin graph.now.judge) e others.now field)) }
    ensures spent { budget.new ≤ budget.old }
    ensures ticks { IfOk result (λ b. OnTrue b (budget.new < budget.old)) }
{
    if let Some(kind) = kind_of(graph, kinds.as_slice(), field, budget) {
        return Ok(kind.is_clear);
    }
    if kinds.len() >= MOST || !is_own_kin(graph, field, budget) {
        return Ok(false);
    }
    let is_clear = is_clear_of(graph, e, field, others, budget)?;
    kinds.push(Kind {
        one: field,
        is_clear,
    })?;
    Ok(is_clear)
}

// The places of the fields that are of kinds which fail with none of some others.
fn rows_of<J: Judge>(
    alloc: Global,
    graph: &Graph<J>,
    e: bool,
    left: &[Entry],
    others: &[usize],
    budget: &mut usize,
) -> Result<BitSet, AllocError>
    ensures rows { IfOk result (λ rows. (k : ℕ) (a : Entry) → slice_get left.now k ≡ Some a → has rows k ≡ true
        → IsClearKind (J.judgement graph.now.judge) (J.are_kin graph.now.judge) e others.now a.field) }
    ensures spent { budget.new ≤ budget.old }
    ensures ticks { IfOk result (λ rows. (k : ℕ) → has rows k ≡ true → budget.new < budget.old) }
{
    let mut rows = BitSet::new(alloc);
    let mut kinds = Vec::new(alloc);
    for k in 0..left.len() {
        if is_clear_kind(graph, e, left[k].field, others, &mut kinds, budget)? {
            rows.insert(k)?;
        }
    }
    Ok(rows)
}

// The places of fields which fail with none of some others, unless these are of more kinds than `most`.
fn rows_by_kinds<J: Judge>(
    alloc: Global,
    graph: &Graph<J>,
    e: bool,
    left: &[Entry],
    right: &[Entry],
    most: usize,
    budget: &mut usize,
) -> Result<BitSet, AllocError>
    ensures rows { IfOk result (AreAgreeingRows (J.judgement graph.now.judge) e left.now right.now) }
    ensures spent { budget.new ≤ budget.old }
    ensures ticks { IfOk result (λ rows. (k : ℕ) → has rows k ≡ true → budget.new < budget.old) }
{
    let Some(others) = kinds_of(alloc, graph, right, most, budget)? else {
        return Ok(BitSet::new(alloc));
    };
    let rows = rows_of(alloc, graph, e, left, others.as_slice(), budget)?;
    Ok(rows)
}

/// The places of fields which fail with none of some others. Of a place that isn't listed nothing is said.
///
/// One of each kind is judged for all, so the time is the number of fields times that of kinds. What is asked is taken
/// off the budget, and where that hasn't enough, less is known.
///
/// # Errors
///
/// Out of memory.
pub fn agreeing_rows<J: Judge>(
    alloc: Global,
    graph: &Graph<J>,
    e: bool,
    left: &[Entry],
    right: &[Entry],
    budget: &mut usize,
) -> Result<BitSet, AllocError>
    ensures rows { IfOk result (AreAgreeingRows (J.judgement graph.now.judge) e left.now right.now) }
    ensures spent { budget.new ≤ budget.old }
    ensures ticks { IfOk result (λ rows. (k : ℕ) → has rows k ≡ true → budget.new < budget.old) }
{
    if left.len() < FEW || right.len() < FEW {
        return Ok(BitSet::new(alloc));
    }
    rows_by_kinds(
        alloc,
        graph,
        e,
        left,
        right,
        MOST.min(right.len() / 4),
        budget,
    )
}

/// Whether all numbers below one are in a set.
pub fn are_all_in(rows: &BitSet, count: usize) -> bool
    ensures { result ≡ true → (k : ℕ) → k < count → has rows.now k ≡ true }
{
    for k in 0..count {
        if !rows.contains(k) {
            return false;
        }
    }
    true
}

/// Whether it is known by their kinds that no field of the one list fails with one of the other. `false` says nothing.
///
/// # Errors
///
/// Out of memory.
pub fn agree_by_kinds<J: Judge>(
    alloc: Global,
    graph: &Graph<J>,
    e: bool,
    left: &[Entry],
    right: &[Entry],
    budget: &mut usize,
) -> Result<bool, AllocError>
    ensures agree { IfOk result (λ b. OnTrue b (NoneConflict (J.judgement graph.now.judge) e left.now right.now)) }
    ensures spent { budget.new ≤ budget.old }
    ensures ticks { IfOk result (λ b. OnTrue b (0 < length left.now → budget.new < budget.old)) }
{
    let rows = agreeing_rows(alloc, graph, e, left, right, budget)?;
    Ok(are_all_in(&rows, left.len()))
}

/// Whether no two of some fields fail with each other. `false` says nothing.
///
/// # Errors
///
/// Out of memory.
pub fn agree_together<J: Judge>(
    alloc: Global,
    graph: &Graph<J>,
    e: bool,
    fields: &[Entry],
    budget: &mut usize,
) -> Result<bool, AllocError>
    ensures agree { IfOk result (λ b. OnTrue b (NoneConflict (J.judgement graph.now.judge) e fields.now fields.now)) }
    ensures spent { budget.new ≤ budget.old }
{
    let rows = rows_by_kinds(alloc, graph, e, fields, fields, SOME, budget)?;
    Ok(are_all_in(&rows, fields.len()))
}
