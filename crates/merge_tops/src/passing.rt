//! Fragments that a search passes over, since nothing in them can conflict. Their pairs are noted and counted
//! nonetheless.
ghost use Rattle.std.specs.Prelude.{◌≡◌, ◌<◌, ℕ, OnOk, IfOk, length, true, false};
ghost use Rattle.std.specs.List.{All, Contains};
ghost use Rattle.bit_matrix.specs.Set.{has};
ghost use Rattle.merge_sets.specs.World.{world, set_of};
ghost use Rattle.merge_search.specs.Spending.{Spends};
ghost use Rattle.merge_search.specs.Work.{Did, Pair};
ghost use Rattle.merge_sets.specs.Plain.{ArePlain, IsOnePlain};
ghost use Rattle.merge_sets.specs.Merging.{MergeWritten};
ghost use Rattle.merge_tops.specs.Tops.{AllBefore, MarkedDone};

use bit_matrix::set::BitSet;
use merge_search::state::{Search, is_compared, note_below, note_pair};
use merge_sets::graph::Graph;
use merge_sets::judge::Judge;
use merge_sets::numbers::set_of_numbers;
use merge_sets::plain::is_plain;
use std::alloc::{AllocError, Global};

/// Passes over two fragments of which one is plain: there is nothing to find, so it only notes that they were compared.
pub(crate) fn pass_over<J: Judge>(
    graph: &Graph<J>,
    f: usize,
    g: usize,
    search: &mut Search,
) -> Result<(), AllocError>
    requires first { f < length graph.now.fragments.items }
    requires second { g < length graph.now.fragments.items }
    requires plain { IsOnePlain (world J.judgement graph.now) f g }
    ensures done { OnOk result (Did (world J.judgement graph.now) (λ M. Pair M false f g) search.old search.new) }
    ensures real { OnOk result (search.new.found.items ≡ search.old.found.items) }
    ensures spends { OnOk result (Spends (world J.judgement graph.now) 0 search.old search.new) }
{
    if f == g {
        return Ok(());
    }
    if is_compared(search, f, g, false) {
        return Ok(());
    }
    note_pair(search, f, g, false)
}

// Notes a fragment, if it is plain, with those of some others that have smaller numbers.
fn note_with<J: Judge>(
    graph: &Graph<J>,
    f: usize,
    list: &BitSet,
    plain: &BitSet,
    search: &mut Search,
) -> Result<(), AllocError>
    requires first { f < length graph.now.fragments.items }
    requires plain { ArePlain (world J.judgement graph.now) plain.now }
    ensures done { let w = world J.judgement graph.now in
        OnOk result (Did w (λ M. has plain.now (set_of w f) ≡ true → (g : ℕ) → has list.now g ≡ true → g < f
        → Pair M false f g) search.old search.new) }
    ensures real { OnOk result (search.new.found.items ≡ search.old.found.items) }
    ensures spends { OnOk result (Spends (world J.judgement graph.now) 0 search.old search.new) }
{
    if is_plain(graph, f, plain) {
        note_below(search, f, list)
    } else {
        Ok(())
    }
}

/// Notes the plain fragments of a list with all of the list: there is nothing to find, and many are noted at once.
pub(crate) fn note_plain<J: Judge>(
    graph: &Graph<J>,
    list: &[usize],
    plain: &BitSet,
    search: &mut Search,
) -> Result<(), AllocError>
    requires list { All (λ g. g < length graph.now.fragments.items) list.now }
    requires plain { ArePlain (world J.judgement graph.now) plain.now }
    ensures done { let w = world J.judgement graph.now in
        OnOk result (Did w (λ M. All (MarkedDone w M plain.now list.now) list.now) search.old search.new) }
    ensures real { OnOk result (search.new.found.items ≡ search.old.found.items) }
    ensures spends { OnOk result (Spends (world J.judgement graph.now) 0 search.old search.new) }
{
    if list.len() < 2 {
        return Ok(());
    }
    let all = set_of_numbers(search.alloc, list)?;
    for f in list {
        note_with(graph, *f, &all, plain, search)?;
    }
    Ok(())
}

/// Notes each two of some fragments that are known to merge, many at once.
///
/// # Errors
///
/// Out of memory.
pub(crate) fn note_merged<J: Judge>(
    graph: &Graph<J>,
    list: &[usize],
    search: &mut Search,
) -> Result<(), AllocError>
    requires list { All (λ g. g < length graph.now.fragments.items) list.now }
    requires merged { let w = world J.judgement graph.now in
        (f g : ℕ) → Contains list.now f → Contains list.now g → MergeWritten w f g }
    ensures done { let w = world J.judgement graph.now in
        OnOk result (Did w (λ M. AllBefore (Pair M false) list.now) search.old search.new) }
    ensures real { OnOk result (search.new.found.items ≡ search.old.found.items) }
    ensures spends { OnOk result (Spends (world J.judgement graph.now) 0 search.old search.new) }
{
    let all = set_of_numbers(search.alloc, list)?;
    for f in list {
        note_below(search, *f, &all)?;
    }
    Ok(())
}
