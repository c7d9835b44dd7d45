//! Fields between which a search finds nothing, known of many at once.
ghost use Rattle.std.specs.Prelude.{◌≡◌, ◌<◌, ◌≤◌, ◌⊎◌, ℕ, IfOk, None, Some, length, slice_get, true};
ghost use Rattle.std.specs.Bool.{OnTrue};
ghost use Rattle.bit_matrix.specs.Set.{has};
ghost use Rattle.merge_sets.specs.Judgement.{NoneConflict};
ghost use Rattle.merge_sets.specs.Clear.{AreClear, AreClearBelow, AreClearRows, AreClearRowsBelow, AreLeaves};
ghost use Rattle.merge_sets.specs.World.{world};

use crate::quiet::are_quiet;
use crate::touched::{rows_apart, touched_below};
use crate::unions::unions_below;
use bit_matrix::set::BitSet;
use merge_sets::graph::Graph;
use merge_sets::judge::Judge;
use merge_sets::kinds::{FEW, agree_by_kinds, agreeing_rows};
use merge_sets::node::Entry;
use merge_sets::view::{agree_plainly, are_leaves};
use std::alloc::{AllocError, Global};

/// With fewer fields of a response name, comparing each two is as fast.
pub const WIDE: usize = 32;

/// So many pairs these fields have.
pub const MANY: usize = WIDE * WIDE;

// Whether what stands below each two of some fields is known to merge, the fields told apart by object types or not.
fn are_quiet_below<J: Judge>(
    alloc: Global,
    graph: &Graph<J>,
    e: bool,
    by_objects: bool,
    fields: &[Entry],
    budget: &mut usize,
) -> Result<bool, AllocError>
    ensures clear { IfOk result (λ b.
        OnTrue b (AreClearBelow (world J.judgement graph.now) e fields.now fields.now)) }
    ensures spent { budget.new ≤ budget.old }
    ensures ticks { IfOk result (λ b. OnTrue b (budget.new < budget.old)) }
{
    let mut unions = Vec::new(alloc);
    unions_below(alloc, graph, e, by_objects, fields, &mut unions)?;
    let is_quiet = are_quiet(alloc, graph, unions, by_objects, budget)?;
    Ok(is_quiet)
}

/// Whether what stands below each two of some fields is known to merge. `false` says nothing. It takes what it has
/// looked at there, and what it has asked, off the budget.
///
/// # Errors
///
/// Out of memory.
pub fn are_clear_below<J: Judge>(
    alloc: Global,
    graph: &Graph<J>,
    e: bool,
    fields: &[Entry],
    budget: &mut usize,
) -> Result<bool, AllocError>
    ensures clear { IfOk result (λ b.
        OnTrue b (AreClearBelow (world J.judgement graph.now) e fields.now fields.now)) }
    ensures spent { budget.new ≤ budget.old }
    ensures ticks { IfOk result (λ b. OnTrue b (AreLeaves fields.now ⊎ (budget.new < budget.old))) }
{
    if are_leaves(fields) {
        return Ok(true);
    }
    if are_quiet_below(alloc, graph, e, false, fields, budget)? {
        return Ok(true);
    }
    let is_quiet = are_quiet_below(alloc, graph, e, true, fields, budget)?;
    Ok(is_quiet)
}

// Whether what stands below the fields of two lists is known to merge.
fn are_clear_between<J: Judge>(
    alloc: Global,
    graph: &Graph<J>,
    e: bool,
    left: &[Entry],
    right: &[Entry],
    budget: &mut usize,
) -> Result<bool, AllocError>
    ensures clear { IfOk result (λ b.
        OnTrue b (AreClearBelow (world J.judgement graph.now) e left.now right.now)) }
    ensures spent { budget.new ≤ budget.old }
{
    if are_leaves(left) {
        return Ok(true);
    }
    if are_leaves(right) {
        return Ok(true);
    }
    if left.len().saturating_mul(right.len()) < MANY {
        return Ok(false);
    }
    let mut fields = Vec::from_slice(alloc, left)?;
    fields.extend_from_slice(right)?;
    let is_clear = are_clear_below(alloc, graph, e, fields.as_slice(), budget)?;
    Ok(is_clear)
}

// Whether no field of the one list fails with one of the other. `false` says nothing.
fn are_agreeing<J: Judge>(
    alloc: Global,
    graph: &Graph<J>,
    e: bool,
    left: &[Entry],
    right: &[Entry],
    budget: &mut usize,
) -> Result<bool, AllocError>
    ensures agree { IfOk result (λ b. OnTrue b (NoneConflict (J.judgement graph.now.judge) e left.now right.now)) }
    ensures spent { budget.new ≤ budget.old }
    ensures ticks { IfOk result (λ b. OnTrue b (0 < length left.now → budget.new < budget.old)) }
{
    if agree_plainly(graph, left, right, budget) {
        return Ok(true);
    }
    agree_by_kinds(alloc, graph, e, left, right, budget)
}

/// Whether each field of the one list is known to merge with each of the other. `false` says nothing. What it asks and
/// looks at is taken off the budget.
///
/// # Errors
///
/// Out of memory.
pub fn are_clear<J: Judge>(
    alloc: Global,
    graph: &Graph<J>,
    e: bool,
    left: &[Entry],
    right: &[Entry],
    budget: &mut usize,
) -> Result<bool, AllocError>
    ensures clear { IfOk result (λ b. OnTrue b (AreClear (world J.judgement graph.now) e left.now right.now)) }
    ensures spent { budget.new ≤ budget.old }
    ensures ticks { IfOk result (λ b. OnTrue b (0 < length left.now → budget.new < budget.old)) }
{
    if !are_agreeing(alloc, graph, e, left, right, budget)? {
        return Ok(false);
    }
    let is_clear = are_clear_between(alloc, graph, e, left, right, budget)?;
    Ok(is_clear)
}

// The places of fields below which all merges with what stands below some others, by the names that stand there.
fn rows_below<J: Judge>(
    alloc: Global,
    graph: &Graph<J>,
    e: bool,
    left: &[Entry],
    right: &[Entry],
    budget: &mut usize,
) -> Result<BitSet, AllocError>
    ensures rows { IfOk result (AreClearRowsBelow (world J.judgement graph.now) e left.now right.now) }
    ensures spent { budget.new ≤ budget.old }
{
    if left.len().saturating_mul(right.len()) < MANY {
        return Ok(BitSet::new(alloc));
    }
    let mut fields = Vec::from_slice(alloc, left)?;
    fields.extend_from_slice(right)?;
    let touched = touched_below(alloc, graph, e, fields.as_slice(), budget)?;
    rows_apart(alloc, &touched, left.len(), fields.len())
}

// The places of those fields, of some that are listed, below which nothing stands, or whose place is listed once more.
fn rows_of_both(
    alloc: Global,
    fields: &[Entry],
    rows: &BitSet,
    below: &BitSet,
) -> Result<BitSet, AllocError>
    ensures both { IfOk result (λ both. (k : ℕ) (a : Entry) → slice_get fields.now k ≡ Some a → has both k ≡ true
        → (has rows.now k ≡ true) × ((a.below ≡ None) ⊎ (has below.now k ≡ true))) }
    ensures rows { IfOk result (λ both. (k : ℕ) → has both k ≡ true → has rows.now k ≡ true) }
{
    let mut both = BitSet::new(alloc);
    for k in 0..fields.len() {
        if is_of_both(fields[k], k, rows, below) {
            both.insert(k)?;
        }
    }
    Ok(both)
}

// Whether a place is listed, and nothing stands below its field, or it is listed once more.
fn is_of_both(field: Entry, k: usize, rows: &BitSet, below: &BitSet) -> bool
    ensures { result ≡ true → (has rows.now k ≡ true) × ((field.below ≡ None) ⊎ (has below.now k ≡ true)) }
{
    if !rows.contains(k) {
        return false;
    }
    if field.below.is_none() {
        return true;
    }
    below.contains(k)
}

/// The places of fields of which it is known that they merge with each of some others. Of a place that isn't listed
/// nothing is said. What it asks and looks at is taken off the budget.
///
/// # Errors
///
/// Out of memory.
pub fn clear_rows<J: Judge>(
    alloc: Global,
    graph: &Graph<J>,
    e: bool,
    left: &[Entry],
    right: &[Entry],
    budget: &mut usize,
) -> Result<BitSet, AllocError>
    ensures rows { IfOk result (AreClearRows (world J.judgement graph.now) e left.now right.now) }
    ensures spent { budget.new ≤ budget.old }
    ensures ticks { IfOk result (λ rows. (k : ℕ) → has rows k ≡ true → budget.new < budget.old) }
{
    if left.len() < FEW || right.len() < FEW {
        return Ok(BitSet::new(alloc));
    }
    let rows = agreeing_rows(alloc, graph, e, left, right, budget)?;
    if are_clear_between(alloc, graph, e, left, right, budget)? {
        return Ok(rows);
    }
    let below = rows_below(alloc, graph, e, left, right, budget)?;
    let both = rows_of_both(alloc, left, &rows, &below)?;
    Ok(both)
}
