//! The fragments that a search below a field opens, each once.
//!
//! A fragment is noted when it is opened. What the same set was compared with before is not opened again, nor is what
//! that spreads: it was asked for then.
ghost use Rattle.std.specs.Prelude.{◌<◌, ◌≡◌, ◌∷◌, [], OnOk, IfOk, length, min, sum_by};
ghost use Rattle.std.specs.List.{All};
ghost use Rattle.merge_sets.specs.World.{world};
ghost use Rattle.merge_search.specs.Counts.{greatest, spread_count};
ghost use Rattle.merge_search.specs.Opened.{OpensBelow, OpensCounted, OpensEach, Pushes};

use crate::repeats::is_settled;
use crate::state::{Search, count_list, note_search, take_opening};
use merge_sets::graph::Graph;
use merge_sets::judge::Judge;
use merge_sets::opening::{Opening, close_all};
use merge_sets::view::{set, spreads};
use std::alloc::AllocError;

// Adds a fragment to those that are open.
fn push_open(opening: &mut Opening, f: usize) -> Result<(), AllocError>
    ensures { OnOk result (Pushes f opening.old opening.new) }
{
    opening.seen.insert(f)?;
    opening.order.push(f)?;
    opening.waiting.push(f)?;
    Ok(())
}

// Opens a fragment for the own fields of a set. It is passed if it is open, or if the two were compared before and are
// not compared again.
fn open_new<J: Judge>(
    graph: &Graph<J>,
    i: usize,
    f: usize,
    e: bool,
    opening: &mut Opening,
    search: &mut Search,
) -> Result<(), AllocError>
    requires set { i < length graph.now.sets.items }
    requires fragment { f < length graph.now.fragments.items }
    ensures { let w = world J.judgement graph.now in
        OnOk result (OpensEach w e i (f ∷ []) opening.old opening.new search.old search.new) }
{
    if opening.seen.contains(f) || is_settled(graph, search, i, f, e) {
        return Ok(());
    }
    note_search(search, i, f, e)?;
    push_open(opening, f)
}

// Opens some fragments.
fn open_each<J: Judge>(
    graph: &Graph<J>,
    i: usize,
    fragments: &[usize],
    e: bool,
    opening: &mut Opening,
    search: &mut Search,
) -> Result<(), AllocError>
    requires set { i < length graph.now.sets.items }
    requires fragments { All (λ f. f < length graph.now.fragments.items) fragments.now }
    ensures { let w = world J.judgement graph.now in
        OnOk result (OpensEach w e i fragments.now opening.old opening.new search.old search.new) }
{
    for f in fragments {
        open_new(graph, i, *f, e, opening, search)?;
    }
    Ok(())
}

// Opens a fragment, and what it reaches, for the own fields of a set.
fn open_from<J: Judge>(
    graph: &Graph<J>,
    i: usize,
    g: usize,
    e: bool,
    opening: &mut Opening,
    search: &mut Search,
) -> Result<(), AllocError>
    requires set { i < length graph.now.sets.items }
    requires fragment { g < length graph.now.fragments.items }
    ensures { let w = world J.judgement graph.now in
        OnOk result (OpensBelow w e i g opening.new.order.items search.old search.new) }
{
    close_all(opening);
    open_new(graph, i, g, e, opening, search)?;
    while let Some(f) = opening.waiting.pop() {
        open_each(graph, i, spreads(graph, set(graph, f)), e, opening, search)?;
    }
    Ok(())
}

/// How many spreads some fragments have together.
pub fn spreads_of_all<J: Judge>(graph: &Graph<J>, fragments: &[usize]) -> u128
    ensures { result ≡ min (sum_by (spread_count (world J.judgement graph.now)) fragments.now) greatest }
{
    let mut count: u128 = 0;
    for f in fragments {
        count = count.saturating_add(spreads(graph, set(graph, *f)).len() as u128);
    }
    count
}

/// Lists the fragments that one reaches, in the order in which a search for the own fields of a set opens them, and
/// notes and counts them.
///
/// All fragments that one spreads are opened in turn, and the search continues with the one that it opened last. What
/// the set was compared with before is neither opened nor followed, unless it is compared once more.
///
/// # Errors
///
/// Out of memory.
pub(crate) fn opened<J: Judge>(
    graph: &Graph<J>,
    i: usize,
    g: usize,
    e: bool,
    search: &mut Search,
) -> Result<Opening, AllocError>
    requires set { i < length graph.now.sets.items }
    requires fragment { g < length graph.now.fragments.items }
    ensures { let w = world J.judgement graph.now in
        IfOk result (λ o. OpensCounted w e i g o.order.items search.old search.new) }
{
    let mut opening = take_opening(search);
    open_from(graph, i, g, e, &mut opening, search)?;
    let looked = spreads_of_all(graph, opening.order.as_slice());
    count_list(search, opening.order.len(), looked);
    Ok(opening)
}
