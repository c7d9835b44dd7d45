//! Pairs of fields that are settled at once, so that no task has to wait: most are.
ghost use Rattle.std.specs.Prelude.{◌≡◌, ◌*◌, ◌≤◌, IfOk, OnOk, Some, false, length, slice_get};
ghost use Rattle.std.specs.Bool.{OnTrue};
ghost use Rattle.merge_search.specs.Settle.{AgreesWith, AgreeFlatly, IsSpreadless, Settles};
ghost use Rattle.merge_sets.specs.Clear.{IsClearBelow};
ghost use Rattle.merge_search.specs.Tasks.{MeetsList};
ghost use Rattle.merge_search.specs.Spending.{Compares, ComparesUpto, CountsAtLeast, LooksFlatly};
ghost use Rattle.merge_search.specs.Spending.{open_cost, settle_cost};
ghost use Rattle.merge_search.specs.State.{Keeps};
ghost use Rattle.merge_sets.specs.World.{world, conflict_of, own_of, HasRoom, Same};
ghost use Rattle.merge_search.specs.declared.state.Search.{Search};

use crate::state::{Search, count_fields, is_full, report};
use merge_sets::finding::Finding;
use merge_sets::graph::Graph;
use merge_sets::judge::Judge;
use merge_sets::node::Entry;
use merge_sets::view::{are_exclusive, are_in_conflict, are_leaves, own, spreads};
use std::alloc::AllocError;

// Of more fields each two are not looked at.
const FEW: usize = 4;

// Whether a set has few fields, and spreads nothing.
fn is_small<J: Judge>(graph: &Graph<J>, s: usize) -> bool
    ensures alone { OnTrue result (IsSpreadless (world J.judgement graph.now) s) }
    ensures few { OnTrue result (length (own_of (world J.judgement graph.now) s) ≤ 4) }
{
    if !spreads(graph, s).is_empty() {
        return false;
    }
    own(graph, s).len() <= FEW
}

// Whether two fields have one response name and fail with each other.
fn fails_with<J: Judge>(graph: &Graph<J>, e: bool, c: Entry, d: Entry) -> Result<bool, AllocError>
    ensures { IfOk result (λ b. b ≡ false → Same c d → conflict_of (world J.judgement graph.now) e c d ≡ false) }
{
    if c.response != d.response {
        return Ok(false);
    }
    are_in_conflict(graph, e, c, d)
}

// Whether a field fails with none of some others that has its response name.
fn agrees_with<J: Judge>(
    graph: &Graph<J>,
    e: bool,
    c: Entry,
    others: &[Entry],
) -> Result<bool, AllocError>
    ensures { IfOk result (λ b. OnTrue b (AgreesWith (world J.judgement graph.now) e c others.now)) }
{
    for d in others {
        if fails_with(graph, e, c, *d)? {
            return Ok(false);
        }
    }
    Ok(true)
}

// Whether no field of the one list fails with one of the other that has its response name.
fn agree_flatly<J: Judge>(
    graph: &Graph<J>,
    e: bool,
    left: &[Entry],
    right: &[Entry],
) -> Result<bool, AllocError>
    ensures { IfOk result (λ b. OnTrue b (AgreeFlatly (world J.judgement graph.now) e left.now right.now)) }
{
    for c in left {
        if !agrees_with(graph, e, *c, right)? {
            return Ok(false);
        }
    }
    Ok(true)
}

// Whether what stands below two fields is seen to merge: few fields, with nothing below those of the first.
fn is_clear_below<J: Judge>(
    graph: &Graph<J>,
    e: bool,
    a: Entry,
    b: Entry,
    i: usize,
    j: usize,
    search: &mut Search,
) -> Result<bool, AllocError>
    requires left { a.below ≡ Some i }
    requires right { b.below ≡ Some j }
    ensures clear { IfOk result (λ is. OnTrue is (IsClearBelow (world J.judgement graph.now) e a b)) }
    ensures keeps { OnOk result (Keeps search.old search.new) }
    ensures counts { let w = world J.judgement graph.now in
        OnOk result (LooksFlatly (length (own_of w i)) (length (own_of w j)) search.old search.new) }
    ensures ticks { let w = world J.judgement graph.now in IfOk result (λ is.
        OnTrue is (CountsAtLeast (length (own_of w i) * length (own_of w j)) search.old search.new)) }
{
    if !is_small(graph, i) {
        return Ok(false);
    }
    if !is_small(graph, j) {
        return Ok(false);
    }
    if !are_leaves(own(graph, i)) {
        return Ok(false);
    }
    let left = own(graph, i);
    let right = own(graph, j);
    count_fields(search, left.len().saturating_mul(right.len()));
    let agree = agree_flatly(graph, are_exclusive(graph, e, a, b), left, right)?;
    Ok(agree)
}

/// Compares two fields of one response name, if that takes no task; else it does nothing, and says so. Where enough was
/// found, there is nothing to do.
///
/// # Errors
///
/// Out of memory.
pub(crate) fn settle<J: Judge>(
    graph: &Graph<J>,
    a: Entry,
    b: Entry,
    e: bool,
    search: &mut Search,
) -> Result<bool, AllocError>
    ensures settled { let w = world J.judgement graph.now in
        IfOk result (λ is. Settles w e a b is search.old search.new) }
    ensures counts { let w = world J.judgement graph.now in
        IfOk result (λ is. Compares (settle_cost w a b is) search.old search.new) }
    ensures ticks { let w = world J.judgement graph.now in
        OnOk result (HasRoom w search.old.found.items → CountsAtLeast 1 search.old search.new) }
{
    if is_full(graph, search) {
        return Ok(true);
    }
    count_fields(search, 1);
    let in_conflict = are_in_conflict(graph, e, a, b)?;
    if in_conflict {
        report(search, Finding::Direct(a, b, e))?;
        return Ok(true);
    }
    match (a.below, b.below) {
        (Some(i), Some(j)) => {
            let is_clear = is_clear_below(graph, e, a, b, i, j, search)?;
            Ok(is_clear)
        }
        _ => Ok(true),
    }
}

/// Compares a field with others of its response name, from a place on, as long as they are settled at once. Returns the
/// place of the first that isn't. The two don't fail by themselves.
///
/// # Errors
///
/// Out of memory.
pub(crate) fn settle_from<J: Judge>(
    graph: &Graph<J>,
    a: Entry,
    fields: &[Entry],
    e: bool,
    n: usize,
    search: &mut Search,
) -> Result<usize, AllocError>
    ensures settled { let w = world J.judgement graph.now in
        IfOk result (λ k. (t : Search) → MeetsList w e a fields.now k search.new t
        → MeetsList w e a fields.now n search.old t) }
    ensures open { let w = world J.judgement graph.now in
        IfOk result (λ k. (b : Entry) → slice_get fields.now k ≡ Some b → conflict_of w e a b ≡ false) }
    ensures counts { let w = world J.judgement graph.now in
        IfOk result (λ k. ComparesUpto w a fields.now n k (open_cost w fields.now k) search.old search.new) }
{
    let mut k = n;
    while k < fields.len() {
        if !settle(graph, a, fields[k], e, search)? {
            return Ok(k);
        }
        k += 1;
    }
    Ok(k)
}
