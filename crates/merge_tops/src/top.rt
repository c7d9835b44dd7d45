//! The search over all sets.
ghost use Rattle.std.specs.Prelude.{◌≡◌, ◌<◌, ◌≤◌, ◌*◌, ◌-◌, ◌∷◌, [], ℕ, List, OnOk, IfOk, length, false};
ghost use Rattle.std.specs.Bool.{OnTrue};
ghost use Rattle.std.specs.List.{All};
ghost use Rattle.merge_sets.specs.World.{world, HasRoom, set_of, spreads_of};
ghost use Rattle.merge_sets.specs.Opening.{Opens};
ghost use Rattle.merge_search.specs.Work.{Did, OwnPairs, Pair};
ghost use Rattle.merge_search.specs.Reports.{Finds, FindsAll, AtFragments, AtPlaces, Judged};
ghost use Rattle.merge_sets.specs.Plain.{ArePlain};
ghost use Rattle.merge_certificates.specs.Quiet.{AreQuiet};
ghost use Rattle.merge_tops.specs.Tops.{AddsUnmarked, AllBefore, AreAllBut, AtListed, AtSpread, AtSpreads, AtTop, Top};
ghost use Rattle.merge_tops.specs.Tops.{AtTwo, AtWithin, MarkedDone, OwnWithin, OwnWritten, SpreadDone, Together};
ghost use Rattle.merge_search.specs.Spending.{Spends, fragments_weight};
ghost use Rattle.merge_tops.specs.TopCosts.{search_cost, set_cost, top_cost};
ghost use Rattle.merge_tops.specs.TopCounts.{OpensAtTop, most_openings, set_lists};
ghost use Rattle.merge_search.specs.Counts.{all_spreads};
ghost use Rattle.merge_search.specs.Weight.{weight};

use crate::asking::{ask_merged, ask_plain};
use crate::counts::{TopCounts, add_counts, no_counts, open_counted};
use crate::inner::search_inner;
use crate::pairs::compare_each;
use crate::passing::{note_merged, note_plain, pass_over};
use bit_matrix::set::BitSet;
use merge_search::search::{compare_fragments, compare_own};
use merge_search::state::{Search, is_full, no_search, put_opening};
use merge_sets::graph::Graph;
use merge_sets::judge::Judge;
use merge_sets::plain::is_plain;
use merge_sets::view::{firsts, group, order, set, spreads};
use std::alloc::{AllocError, Global};

// Compares the own fields of a set, by response names.
fn compare_within<J: Judge>(
    graph: &Graph<J>,
    s: usize,
    plain: &BitSet,
    search: &mut Search,
) -> Result<(), AllocError>
    requires { ArePlain (world J.judgement graph.now) plain.now }
    ensures done { let w = world J.judgement graph.now in
        OnOk result (Did w (λ M. OwnWithin w M s) search.old search.new) }
    ensures real { let w = world J.judgement graph.now in
        OnOk result (FindsAll w false (AtWithin w s) (AtWithin w s) search.old search.new) }
    ensures spends { let w = world J.judgement graph.now in
        OnOk result (Spends w (weight w s * weight w s) search.old search.new) }
{
    for first in firsts(graph, s) {
        compare_each(graph, group(graph, s, first.response), plain, search)?;
    }
    Ok(())
}

// Compares the own fields of a set with those of each fragment that a search from `starts` opens.
fn write_all<J: Judge>(
    graph: &Graph<J>,
    s: usize,
    starts: &[usize],
    opening: &[usize],
    search: &mut Search,
) -> Result<(), AllocError>
    requires { Opens (world J.judgement graph.now) starts.now opening.now }
    ensures done { let w = world J.judgement graph.now in
        OnOk result (Did w (λ M. All (λ h. OwnPairs w M false s (set_of w h)) opening.now) search.old search.new) }
    ensures real { let w = world J.judgement graph.now in
        OnOk result (FindsAll w false (AtSpreads w s starts.now) (AtSpreads w s starts.now) search.old search.new) }
    ensures spends { let w = world J.judgement graph.now in
        OnOk result (Spends w (weight w s * fragments_weight w) search.old search.new) }
{
    for h in opening {
        compare_own(graph, s, set(graph, *h), false, search)?;
    }
    Ok(())
}

// Compares the own fields of a set with some fragments written out, by one search. It always runs.
fn write_out<J: Judge>(
    graph: &Graph<J>,
    s: usize,
    starts: &[usize],
    search: &mut Search,
    counts: &mut TopCounts,
) -> Result<(), AllocError>
    requires { All (λ g. g < length graph.now.fragments.items) starts.now }
    ensures done { let w = world J.judgement graph.now in
        OnOk result (Did w (λ M. All (λ g. OwnWritten w M s g) starts.now) search.old search.new) }
    ensures real { let w = world J.judgement graph.now in
        OnOk result (FindsAll w false (AtSpreads w s starts.now) (AtSpreads w s starts.now) search.old search.new) }
    ensures spends { let w = world J.judgement graph.now in
        OnOk result (Spends w (weight w s * fragments_weight w) search.old search.new) }
    ensures counts { OnOk result (OpensAtTop (world J.judgement graph.now) 1 counts.old counts.new) }
{
    let opening = open_counted(graph, starts, search, counts)?;
    write_all(graph, s, starts, opening.order.as_slice(), search)?;
    put_opening(search, opening)
}

// Adds a fragment, unless it is marked as plain.
fn add_unmarked<J: Judge>(
    graph: &Graph<J>,
    f: usize,
    plain: &BitSet,
    others: &mut Vec<usize>,
) -> Result<(), AllocError>
    requires { ArePlain (world J.judgement graph.now) plain.now }
    ensures { OnOk result (AddsUnmarked (world J.judgement graph.now) f others.old.items others.new.items) }
{
    if is_plain(graph, f, plain) {
        return Ok(());
    }
    others.push(f)?;
    Ok(())
}

// The fragments of a list that aren't marked as plain.
fn unmarked<J: Judge>(
    alloc: Global,
    graph: &Graph<J>,
    list: &[usize],
    plain: &BitSet,
) -> Result<Vec<usize>, AllocError>
    requires { ArePlain (world J.judgement graph.now) plain.now }
    ensures { IfOk result (λ others. AreAllBut (world J.judgement graph.now) list.now list.now others.items) }
{
    let mut others = Vec::new(alloc);
    for g in list {
        add_unmarked(graph, *g, plain, &mut others)?;
    }
    Ok(others)
}

// Compares the own fields of a set with the fragments of a list, written out. Where it has no field, and with what is
// plain, there is nothing to compare.
fn write_own<J: Judge>(
    graph: &Graph<J>,
    s: usize,
    list: &[usize],
    plain: &BitSet,
    search: &mut Search,
    counts: &mut TopCounts,
) -> Result<(), AllocError>
    requires list { All (λ g. g < length graph.now.fragments.items) list.now }
    requires plain { ArePlain (world J.judgement graph.now) plain.now }
    ensures done { let w = world J.judgement graph.now in
        OnOk result (Did w (λ M. All (λ g. OwnWritten w M s g) list.now) search.old search.new) }
    ensures real { let w = world J.judgement graph.now in
        OnOk result (FindsAll w false (AtSpreads w s list.now) (AtSpreads w s list.now) search.old search.new) }
    ensures spends { let w = world J.judgement graph.now in
        OnOk result (Spends w (weight w s * fragments_weight w) search.old search.new) }
    ensures counts { OnOk result (OpensAtTop (world J.judgement graph.now) 1 counts.old counts.new) }
{
    if firsts(graph, s).is_empty() {
        return Ok(());
    }
    let others = unmarked(search.alloc, graph, list, plain)?;
    write_out(graph, s, others.as_slice(), search, counts)
}

// Compares two fragments.
fn compare_pair<J: Judge>(
    graph: &Graph<J>,
    f: usize,
    g: usize,
    plain: &BitSet,
    search: &mut Search,
) -> Result<(), AllocError>
    requires first { f < length graph.now.fragments.items }
    requires second { g < length graph.now.fragments.items }
    requires plain { ArePlain (world J.judgement graph.now) plain.now }
    ensures done { OnOk result (Did (world J.judgement graph.now) (λ M. Pair M false f g) search.old search.new) }
    ensures real { let w = world J.judgement graph.now in
        OnOk result (Finds w false (AtFragments w f g) search.old search.new) }
    ensures spends { OnOk result (Spends (world J.judgement graph.now) 0 search.old search.new) }
{
    if is_plain(graph, g, plain) {
        return pass_over(graph, f, g, search);
    }
    compare_fragments(graph, f, g, false, search)
}

// Compares a spread of a set with each spread. A plain one is left to `note_plain`.
fn compare_spread<J: Judge>(
    graph: &Graph<J>,
    f: usize,
    list: &[usize],
    plain: &BitSet,
    search: &mut Search,
) -> Result<(), AllocError>
    requires first { f < length graph.now.fragments.items }
    requires list { All (λ g. g < length graph.now.fragments.items) list.now }
    requires plain { ArePlain (world J.judgement graph.now) plain.now }
    ensures done { let w = world J.judgement graph.now in
        OnOk result (Did w (λ M. SpreadDone w M plain.now list.now f) search.old search.new) }
    ensures real { let w = world J.judgement graph.now in
        OnOk result (Finds w false (AtListed w f list.now) search.old search.new) }
    ensures spends { OnOk result (Spends (world J.judgement graph.now) 0 search.old search.new) }
{
    if is_plain(graph, f, plain) {
        return Ok(());
    }
    if is_full(graph, search) {
        return Ok(());
    }
    for g in list {
        compare_pair(graph, f, *g, plain, search)?;
    }
    Ok(())
}

// Compares each two spreads of a set.
fn compare_pairs<J: Judge>(
    graph: &Graph<J>,
    list: &[usize],
    plain: &BitSet,
    search: &mut Search,
) -> Result<(), AllocError>
    requires list { All (λ g. g < length graph.now.fragments.items) list.now }
    requires plain { ArePlain (world J.judgement graph.now) plain.now }
    ensures done { let w = world J.judgement graph.now in
        OnOk result (Did w (λ M. AllBefore (Pair M false) list.now) search.old search.new) }
    ensures real { let w = world J.judgement graph.now in
        OnOk result (Finds w false (AtTwo w list.now) search.old search.new) }
    ensures spends { OnOk result (Spends (world J.judgement graph.now) 0 search.old search.new) }
{
    for f in list {
        compare_spread(graph, *f, list, plain, search)?;
    }
    note_plain(graph, list, plain, search)
}

// Compares the spreads of a set with its own fields and with each other.
fn compare_spreads<J: Judge>(
    graph: &Graph<J>,
    s: usize,
    plain: &BitSet,
    search: &mut Search,
    counts: &mut TopCounts,
) -> Result<(), AllocError>
    requires { ArePlain (world J.judgement graph.now) plain.now }
    ensures done { let w = world J.judgement graph.now in
        OnOk result (Did w (λ M. All (λ f. OwnWritten w M s f) (spreads_of w s)
        × AllBefore (Pair M false) (spreads_of w s)) search.old search.new) }
    ensures real { let w = world J.judgement graph.now in
        OnOk result (FindsAll w false (AtPlaces w s) (AtSpread w s) search.old search.new) }
    ensures spends { let w = world J.judgement graph.now in
        OnOk result (Spends w (weight w s * fragments_weight w) search.old search.new) }
    ensures counts { OnOk result (OpensAtTop (world J.judgement graph.now) 1 counts.old counts.new) }
{
    let list = spreads(graph, s);
    if list.is_empty() {
        return Ok(());
    }
    write_own(graph, s, list, plain, search, counts)?;
    compare_pairs(graph, list, plain, search)
}

// Compares all that stands in one set.
fn compare_set<J: Judge>(
    graph: &Graph<J>,
    s: usize,
    plain: &BitSet,
    search: &mut Search,
    counts: &mut TopCounts,
) -> Result<(), AllocError>
    requires { ArePlain (world J.judgement graph.now) plain.now }
    ensures done { let w = world J.judgement graph.now in
        OnOk result (Did w (λ M. Top w M s) search.old search.new) }
    ensures real { let w = world J.judgement graph.now in
        OnOk result (FindsAll w false (AtPlaces w s) (AtTop w s) search.old search.new) }
    ensures spends { let w = world J.judgement graph.now in
        OnOk result (Spends w (top_cost w (weight w s)) search.old search.new) }
    ensures counts { OnOk result (OpensAtTop (world J.judgement graph.now) 1 counts.old counts.new) }
{
    compare_within(graph, s, plain, search)?;
    compare_spreads(graph, s, plain, search, counts)
}

// Passes over a set in which all merges.
fn pass_set<J: Judge>(graph: &Graph<J>, s: usize, search: &mut Search) -> Result<(), AllocError>
    requires { AreQuiet (world J.judgement graph.now) false (s ∷ []) }
    ensures done { let w = world J.judgement graph.now in
        OnOk result (Did w (λ M. Top w M s) search.old search.new) }
    ensures real { let w = world J.judgement graph.now in
        OnOk result (FindsAll w false (AtPlaces w s) (AtTop w s) search.old search.new) }
    ensures spends { OnOk result (Spends (world J.judgement graph.now) 0 search.old search.new) }
{
    note_merged(graph, spreads(graph, s), search)
}

// Compares all that stands in one set, and where that finds something, once more what stands in its inline fragments:
// a conflict there is one of each set round it.
fn search_set<J: Judge>(
    graph: &Graph<J>,
    s: usize,
    plain: &BitSet,
    search: &mut Search,
    counts: &mut TopCounts,
) -> Result<(), AllocError>
    requires { ArePlain (world J.judgement graph.now) plain.now }
    ensures done { let w = world J.judgement graph.now in
        OnOk result (Did w (λ M. Top w M s) search.old search.new) }
    ensures real { let w = world J.judgement graph.now in
        OnOk result (FindsAll w false (AtPlaces w s) (AtTop w s) search.old search.new) }
    ensures spends { let w = world J.judgement graph.now in
        OnOk result (Spends w (set_cost w graph.now.inner.items s) search.old search.new) }
    ensures counts { let w = world J.judgement graph.now in
        OnOk result (OpensAtTop w (set_lists graph.now.inner.items s) counts.old counts.new) }
{
    if is_full(graph, search) {
        return Ok(());
    }
    if ask_merged(graph, s, search)? {
        return pass_set(graph, s, search);
    }
    let start = search.found.len();
    compare_set(graph, s, plain, search, counts)?;
    if search.found.len() == start {
        return Ok(());
    }
    search_inner(graph, s, plain, search, counts)
}

/// Searches the sets of the graph's order, one after the other.
///
/// What is found is true. Unless it is as much as the graph's limit, nothing is missed; but where some set isn't in the
/// order, what stands below one field alone may be. A search that has found enough only ends what it has begun.
///
/// Of `n` fragments at most `n (n - 1)` pairs are compared, and at least those that some set spreads together, unless
/// it found enough. No search opens more than `n` fragments, and all together open each no more often than
/// `most_openings` says: three times for each set, once for each inline fragment, and a hundred times. Fields are
/// compared at most eight times as often as `search_cost` says: by the numbers of fields in and below the sets. Counted
/// with them is what is asked and looked at to pass many at once.
///
/// # Errors
///
/// Out of memory.
pub fn search_all<J: Judge>(alloc: Global, graph: &Graph<J>) -> Result<Search, AllocError>
    ensures judged { IfOk result (λ m. Judged (world J.judgement graph.now) graph.now.order.items m.found.items) }
    ensures few { let n = length graph.now.fragments.items in IfOk result (λ m. m.compared ≤ n * (n - 1)) }
    ensures enough { let w = world J.judgement graph.now in
        IfOk result (λ m. HasRoom w m.found.items → (ps : List (ℕ × ℕ)) → Together w graph.now.order.items ps
        → length ps ≤ m.compared) }
    ensures opened { IfOk result (λ m. m.opened ≤ length graph.now.fragments.items * m.lists) }
    ensures linear { let w = world J.judgement graph.now in
        let most = most_openings w graph.now.inner.items graph.now.order.items in
        IfOk result (λ m. m.opened ≤ length graph.now.fragments.items * most) }
    ensures looked { let w = world J.judgement graph.now in
        let most = most_openings w graph.now.inner.items graph.now.order.items in
        IfOk result (λ m. m.looked ≤ all_spreads w * most) }
    ensures compares { let w = world J.judgement graph.now in
        IfOk result (λ m. m.judged ≤ 8 * search_cost w graph.now.inner.items graph.now.order.items) }
{
    let mut search = no_search(alloc);
    let plain = ask_plain(graph, &mut search)?;
    let mut counts = no_counts();
    for s in order(graph) {
        search_set(graph, *s, &plain, &mut search, &mut counts)?;
    }
    add_counts(&mut search, &counts);
    Ok(search)
}
