//! The search for the nodes of a graph that are reachable from some spreads.
ghost use Rattle.std.specs.Prelude.{◌≡◌, ◌∷◌, [], length, false, Some, OnOk, IfOk, IsTrue, ◌↔◌, slice_get, slice_set};
ghost use Rattle.fragment_reach.specs.Search.{IsClear, IsMarked, Marks, MarksReached, WellMarked};

use fragment_graph::graph::{Node, Spread, spreads};
use std::alloc::{AllocError, Global};

// Whether there is a node of this number, without a mark.
fn is_unmarked(marks: &[bool], node: usize) -> bool
    ensures { IsTrue result ↔ (slice_get marks.now node ≡ Some false) }
{
    match marks.get(node) {
        Some(mark) => !*mark,
        None => false,
    }
}

/// Whether there is a node of this number, with a mark.
pub fn is_marked(marks: &[bool], node: usize) -> bool
    ensures { IsTrue result ↔ IsMarked marks.now node }
{
    match marks.get(node) {
        Some(mark) => *mark,
        None => false,
    }
}

// Marks the target of a spread and appends it to the list, if it is a node without a mark.
fn mark(spread: Spread, order: &mut Vec<usize>, marks: &mut Vec<bool>) -> Result<(), AllocError>
    requires { WellMarked order.old.items marks.old.items }
    ensures marks { OnOk result (Marks (spread ∷ []) order.old.items marks.old.items order.new.items marks.new.items) }
    ensures well { OnOk result (WellMarked order.new.items marks.new.items) }
{
    if is_unmarked(marks.as_slice(), spread.target) {
        marks[spread.target] = true;
        order.push(spread.target)?;
    }
    Ok(())
}

// Marks the targets of these spreads.
fn mark_all(
    spreads: &[Spread],
    order: &mut Vec<usize>,
    marks: &mut Vec<bool>,
) -> Result<(), AllocError>
    requires { WellMarked order.old.items marks.old.items }
    ensures marks { OnOk result (Marks spreads.now order.old.items marks.old.items order.new.items marks.new.items) }
    ensures well { OnOk result (WellMarked order.new.items marks.new.items) }
{
    for spread in spreads {
        mark(*spread, order, marks)?;
    }
    Ok(())
}

/// Marks the nodes that are reachable from these spreads, and lists them. No node may have a mark
/// before. Looks at the spreads of each node once.
///
/// # Errors
///
/// Out of memory.
pub fn explore(
    graph: &[Node],
    starts: &[Spread],
    order: &mut Vec<usize>,
    marks: &mut Vec<bool>,
) -> Result<(), AllocError>
    requires { IsClear (length graph.now) order.old.items marks.old.items }
    ensures reached { OnOk result (MarksReached graph.now starts.now marks.new.items) }
    ensures listed { OnOk result (WellMarked order.new.items marks.new.items) }
{
    mark_all(starts, order, marks)?;
    let mut next: usize = 0;
    while next < order.len() {
        let node = order[next];
        mark_all(spreads(graph, node), order, marks)?;
        next += 1;
    }
    Ok(())
}

// Removes the mark of a node.
fn unmark(marks: &mut Vec<bool>, node: usize)
    ensures { marks.new.items ≡ slice_set marks.old.items node false }
{
    if node < marks.len() {
        marks[node] = false;
    }
}

/// Removes the marks of all nodes in the list, and empties the list.
pub fn forget(order: &mut Vec<usize>, marks: &mut Vec<bool>)
    requires { WellMarked order.old.items marks.old.items }
    ensures { IsClear (length marks.old.items) order.new.items marks.new.items }
{
    while let Some(node) = order.pop() {
        unmark(marks, node);
    }
}

/// Marks the nodes that are reachable from these spreads. Looks at the spreads of each node once.
///
/// # Errors
///
/// Out of memory.
pub fn mark_reached(
    alloc: Global,
    graph: &[Node],
    starts: &[Spread],
) -> Result<Vec<bool>, AllocError>
    ensures { IfOk result (λ marks. MarksReached graph.now starts.now marks.items) }
{
    let mut order: Vec<usize> = Vec::new(alloc);
    let mut marks = vec![in alloc; false; graph.len()]?;
    explore(graph, starts, &mut order, &mut marks)?;
    Ok(marks)
}
