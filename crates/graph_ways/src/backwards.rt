//! The search backwards along links. From the node of the highest rank on, it begins at each node that it did not meet
//! before, its root, and goes on to all others that lead there and were not met before.
ghost use Rattle.std.specs.Prelude.{◌≡◌, ◌<◌, ◌+◌, ◌^◌, ◌++◌, ◌∷◌, [], None, Some, ℕ, List, IfOk, MatchOption, OnOk};
ghost use Rattle.std.specs.Prelude.{length, replicate, slice_get};
ghost use Rattle.type_system_circles.specs.Graph.{Stands};
ghost use Rattle.graph_ways.specs.Backwards.{Idle, InRound, IsDone, IsOf, Settled, steps_left, to_leave};
ghost use Rattle.graph_ways.specs.Entering.{AreEntering};
ghost use Rattle.graph_ways.specs.Order.{IsOrder, rank};
ghost use Rattle.graph_ways.specs.Ways.{links_to};

use crate::entering::{Entering, links_to};
use crate::items::item_at;
use crate::order::Order;
use language_types::error::OutOfMemory;
use std::alloc::Global;
use type_system_circles::graph::{Link, Node};

/// The state of the search: of each node, the root from which it was met, a link onward to a node of the same root, and
/// how many of the links that lead to it were looked at; the nodes that are waiting for that.
#[derive(Debug, Drop)]
pub(crate) struct Search {
    pub(crate) roots: Vec<Option<usize>>,
    pub(crate) onward: Vec<Option<Link>>,
    pub(crate) entered: Vec<usize>,
    pub(crate) waiting: Vec<usize>,
}

// Meets the node that a link leads from.
fn meet(
    graph: &[Node],
    order: &Order,
    root: usize,
    link: Link,
    search: &mut Search,
) -> Result<(), OutOfMemory>
    requires order { IsOrder graph.now order.now }
    requires round { InRound graph.now order.now root search.old }
    requires stands { Stands graph.now link }
    requires target { IsOf search.old.roots.items root link.edge.target }
    requires new { slice_get search.old.roots.items link.from ≡ Some None }
    ensures round { OnOk result (InRound graph.now order.now root search.new) }
    ensures settled { OnOk result (Settled order.now search.new.roots.items search.new.onward.items link) }
    ensures entered { OnOk result (search.new.entered.items ≡ search.old.entered.items) }
    ensures waits { OnOk result (to_leave search.new ≡ to_leave search.old) }
{
    search.roots[link.from] = Some(root);
    search.onward[link.from] = Some(link);
    search.waiting.push(link.from)?;
    Ok(())
}

// Notes a link onward from the root, if it leads from there.
fn note(graph: &[Node], order: &Order, root: usize, link: Link, search: &mut Search)
    requires round { InRound graph.now order.now root search.old }
    requires stands { Stands graph.now link }
    requires target { IsOf search.old.roots.items root link.edge.target }
    requires met { (a : ℕ) × IsOf search.old.roots.items a link.from }
    ensures round { InRound graph.now order.now root search.new }
    ensures settled { Settled order.now search.new.roots.items search.new.onward.items link }
    ensures entered { search.new.entered.items ≡ search.old.entered.items }
    ensures waits { to_leave search.new ≡ to_leave search.old }
{
    if link.from == root {
        search.onward[root] = Some(link);
    }
}

// Looks at a link that leads to a node of the root.
fn look(
    graph: &[Node],
    order: &Order,
    root: usize,
    link: Link,
    search: &mut Search,
) -> Result<(), OutOfMemory>
    requires order { IsOrder graph.now order.now }
    requires round { InRound graph.now order.now root search.old }
    requires stands { Stands graph.now link }
    requires target { IsOf search.old.roots.items root link.edge.target }
    ensures round { OnOk result (InRound graph.now order.now root search.new) }
    ensures settled { OnOk result (Settled order.now search.new.roots.items search.new.onward.items link) }
    ensures entered { OnOk result (search.new.entered.items ≡ search.old.entered.items) }
    ensures waits { OnOk result (to_leave search.new ≡ to_leave search.old) }
{
    match item_at(search.roots.as_slice(), link.from) {
        None => meet(graph, order, root, link, search),
        Some(_) => {
            note(graph, order, root, link, search);
            Ok(())
        }
    }
}

// Looks at the next of the links that lead to a node.
fn enter(
    graph: &[Node],
    order: &Order,
    root: usize,
    link: Link,
    index: usize,
    search: &mut Search,
) -> Result<(), OutOfMemory>
    requires order { IsOrder graph.now order.now }
    requires round { InRound graph.now order.now root search.old }
    requires target { IsOf search.old.roots.items root link.edge.target }
    requires link { slice_get (links_to graph.now link.edge.target) index ≡ Some link }
    requires next { slice_get search.old.entered.items link.edge.target ≡ Some index }
    requires fits { index + 1 < 2 ^ 64 }
    ensures round { OnOk result (InRound graph.now order.now root search.new) }
    ensures less { OnOk result (steps_left graph.now search.new < steps_left graph.now search.old) }
{
    look(graph, order, root, link, search)?;
    search.entered[link.edge.target] = index + 1;
    Ok(())
}

// Lets go of the node that waits last, of which each link was looked at.
fn leave(graph: &[Node], order: &Order, root: usize, node: usize, search: &mut Search)
    requires round { InRound graph.now order.now root search.old }
    requires last { (front : List ℕ) × (search.old.waiting.items ≡ front ++ node ∷ []) }
    requires done { IsDone graph.now search.old.entered.items node }
    ensures round { InRound graph.now order.now root search.new }
    ensures less { steps_left graph.now search.new < steps_left graph.now search.old }
{
    search.waiting.pop();
}

// Looks at the next link to the node that waits last, or lets go of it.
fn step(
    graph: &[Node],
    order: &Order,
    entering: &[Entering],
    root: usize,
    node: usize,
    search: &mut Search,
) -> Result<(), OutOfMemory>
    requires order { IsOrder graph.now order.now }
    requires entering { AreEntering graph.now entering.now }
    requires round { InRound graph.now order.now root search.old }
    requires last { (front : List ℕ) × (search.old.waiting.items ≡ front ++ node ∷ []) }
    ensures round { OnOk result (InRound graph.now order.now root search.new) }
    ensures less { OnOk result (steps_left graph.now search.new < steps_left graph.now search.old) }
{
    let links = links_to(graph, entering, node);
    let next = item_at(search.entered.as_slice(), node);
    if next < links.len() {
        let link = item_at(links, next);
        return enter(graph, order, root, link, next, search);
    }
    leave(graph, order, root, node, search);
    Ok(())
}

// The node that waits last.
fn last_of(waiting: &[usize]) -> Option<usize>
    ensures { MatchOption result (waiting.now ≡ []) (λ n. (front : List ℕ) × (waiting.now ≡ front ++ n ∷ [])) }
{
    waiting.last().copied()
}

// Searches backwards from a root until no node is waiting.
fn explore(
    graph: &[Node],
    order: &Order,
    entering: &[Entering],
    root: usize,
    search: &mut Search,
) -> Result<(), OutOfMemory>
    requires order { IsOrder graph.now order.now }
    requires entering { AreEntering graph.now entering.now }
    requires round { InRound graph.now order.now root search.old }
    ensures { OnOk result (Idle graph.now order.now (rank order.now root) search.new) }
{
    while let Some(node) = last_of(search.waiting.as_slice()) {
        step(graph, order, entering, root, node, search)?;
    }
    Ok(())
}

// Begins the search from a root.
fn begin(graph: &[Node], order: &Order, root: usize, search: &mut Search) -> Result<(), OutOfMemory>
    requires order { IsOrder graph.now order.now }
    requires idle { Idle graph.now order.now (rank order.now root + 1) search.old }
    requires inside { root < length graph.now }
    requires new { slice_get search.old.roots.items root ≡ Some None }
    ensures { OnOk result (InRound graph.now order.now root search.new) }
{
    search.roots[root] = Some(root);
    search.waiting.push(root)?;
    Ok(())
}

/// Searches backwards from the node of this rank, unless it was met.
///
/// # Errors
///
/// Out of memory.
pub(crate) fn visit(
    graph: &[Node],
    order: &Order,
    entering: &[Entering],
    rank: usize,
    search: &mut Search,
) -> Result<(), OutOfMemory>
    requires order { IsOrder graph.now order.now }
    requires entering { AreEntering graph.now entering.now }
    requires idle { Idle graph.now order.now (rank + 1) search.old }
    requires inside { rank < length graph.now }
    ensures { OnOk result (Idle graph.now order.now rank search.new) }
{
    let root = item_at(order.nodes.as_slice(), rank);
    match item_at(search.roots.as_slice(), root) {
        Some(_) => Ok(()),
        None => {
            begin(graph, order, root, search)?;
            explore(graph, order, entering, root, search)
        }
    }
}

/// The state before the first step.
///
/// # Errors
///
/// Out of memory.
pub(crate) fn new_search(alloc: Global, count: usize) -> Result<Search, OutOfMemory>
    ensures roots { IfOk result (λ s. s.roots.items ≡ replicate count None) }
    ensures onward { IfOk result (λ s. s.onward.items ≡ replicate count None) }
    ensures entered { IfOk result (λ s. s.entered.items ≡ replicate count 0) }
    ensures waiting { IfOk result (λ s. s.waiting.items ≡ []) }
{
    Ok(Search {
        roots: vec![in alloc; None; count]?,
        onward: vec![in alloc; None; count]?,
        entered: vec![in alloc; 0; count]?,
        waiting: Vec::new(alloc),
    })
}
