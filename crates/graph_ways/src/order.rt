//! The order in which a depth-first search leaves the nodes of a graph.
ghost use Rattle.std.specs.Prelude.{◌≡◌, ◌<◌, ◌+◌, ◌^◌, [], None, Some, IfOk, OnOk, false, true};
ghost use Rattle.std.specs.Prelude.{length, replicate, slice_get};
ghost use Rattle.type_system_circles.specs.Graph.{IsGraph, edges_of};
ghost use Rattle.graph_ways.specs.Leaving.{Along, Ends, Idle, IsLooked, Keeps};
ghost use Rattle.graph_ways.specs.Order.{IsOrder};

use language_types::error::OutOfMemory;
use std::alloc::Global;
use type_system_circles::graph::{Link, Node, edges};

/// Nodes in the order in which a depth-first search leaves them.
///
/// The rank of a node is its index in that order. What the search found from a node has the ranks from `firsts` to its
/// own. `found_by` has the link by which it found a node, and none for a node that it began at.
#[derive(Debug, Drop)]
pub(crate) struct Order {
    pub(crate) nodes: Vec<usize>,
    pub(crate) ranks: Vec<usize>,
    pub(crate) firsts: Vec<usize>,
    pub(crate) found_by: Vec<Option<Link>>,
    pub(crate) looked: Vec<usize>,
}

// The state of the search: of each node, whether it was met; the links from the root; the order so far.
#[derive(Debug, Drop)]
struct Search {
    met: Vec<bool>,
    trail: Vec<Link>,
    order: Order,
}

// Looks at an edge of the node at the end of the links, and goes on along it unless its target was met. Returns the
// node at their end then.
fn look(graph: &[Node], link: Link, index: usize, search: &mut Search) -> Result<usize, OutOfMemory>
    requires graph { IsGraph graph.now }
    requires at { Along graph.now link.from search.old }
    requires edge { slice_get (edges_of graph.now link.from) index ≡ Some link.edge }
    requires next { slice_get search.old.order.looked.items link.from ≡ Some index }
    requires fits { index + 1 < 2 ^ 64 }
    ensures at { IfOk result (λ end. Along graph.now end search.new) }
    ensures keeps { OnOk result (Keeps search.old search.new) }
{
    let target = link.edge.target;
    search.order.looked[link.from] = index + 1;
    if search.met[target] {
        return Ok(link.from);
    }
    search.met[target] = true;
    let first = search.order.nodes.len();
    search.order.firsts[target] = first;
    search.order.found_by[target] = Some(link);
    search.trail.push(link)?;
    Ok(target)
}

// Leaves the node at the end of the links. Returns the one before it, if there is one.
fn leave(graph: &[Node], node: usize, search: &mut Search) -> Result<Option<usize>, OutOfMemory>
    requires at { Along graph.now node search.old }
    requires all { IsLooked graph.now search.old.order.looked.items node }
    ensures ends { IfOk result (λ end. Ends graph.now end search.new) }
    ensures keeps { OnOk result (Keeps search.old search.new) }
{
    let rank = search.order.nodes.len();
    search.order.ranks[node] = rank;
    search.order.nodes.push(node)?;
    match search.trail.pop() {
        Some(link) => Ok(Some(link.from)),
        None => Ok(None),
    }
}

// Looks at the next edge of the node at the end of the links, or leaves the node.
fn step(graph: &[Node], node: usize, search: &mut Search) -> Result<Option<usize>, OutOfMemory>
    requires graph { IsGraph graph.now }
    requires at { Along graph.now node search.old }
    ensures ends { IfOk result (λ end. Ends graph.now end search.new) }
    ensures keeps { OnOk result (Keeps search.old search.new) }
{
    let next = search.order.looked[node];
    let own = edges(graph, node);
    if next < own.len() {
        let link = Link {
            from: node,
            edge: own[next],
        };
        let end = look(graph, link, next, search)?;
        return Ok(Some(end));
    }
    leave(graph, node, search)
}

// Searches what a new node leads to.
fn explore(graph: &[Node], root: usize, search: &mut Search) -> Result<(), OutOfMemory>
    requires graph { IsGraph graph.now }
    requires idle { Idle graph.now search.old }
    requires new { slice_get search.old.met.items root ≡ Some false }
    ensures idle { OnOk result (Idle graph.now search.new) }
    ensures begun { OnOk result (slice_get search.new.met.items root ≡ Some true) }
    ensures keeps { OnOk result (Keeps search.old search.new) }
{
    search.met[root] = true;
    let first = search.order.nodes.len();
    search.order.firsts[root] = first;
    let mut end = Some(root);
    for _ in 0..u64::MAX {
        match end {
            None => return Ok(()),
            Some(node) => {
                end = step(graph, node, search)?;
            }
        }
    }
    Err(OutOfMemory)
}

// Searches what a node leads to, unless it was met.
fn visit(graph: &[Node], root: usize, search: &mut Search) -> Result<(), OutOfMemory>
    requires graph { IsGraph graph.now }
    requires idle { Idle graph.now search.old }
    requires inside { root < length graph.now }
    ensures idle { OnOk result (Idle graph.now search.new) }
    ensures begun { OnOk result (slice_get search.new.met.items root ≡ Some true) }
    ensures keeps { OnOk result (Keeps search.old search.new) }
{
    if search.met[root] {
        return Ok(());
    }
    explore(graph, root, search)
}

// The order before the first step.
fn new_order(alloc: Global, count: usize) -> Result<Order, OutOfMemory>
    ensures nodes { IfOk result (λ o. o.nodes.items ≡ []) }
    ensures ranks { IfOk result (λ o. o.ranks.items ≡ replicate count 0) }
    ensures firsts { IfOk result (λ o. o.firsts.items ≡ replicate count 0) }
    ensures found { IfOk result (λ o. o.found_by.items ≡ replicate count None) }
    ensures looked { IfOk result (λ o. o.looked.items ≡ replicate count 0) }
{
    Ok(Order {
        nodes: Vec::with_capacity(alloc, count)?,
        ranks: vec![in alloc; 0; count]?,
        firsts: vec![in alloc; 0; count]?,
        found_by: vec![in alloc; None; count]?,
        looked: vec![in alloc; 0; count]?,
    })
}

// The state before the first step.
fn new_search(alloc: Global, graph: &[Node]) -> Result<Search, OutOfMemory>
    ensures { IfOk result (Idle graph.now) }
{
    let count = graph.len();
    let order = new_order(alloc, count)?;
    Ok(Search {
        met: vec![in alloc; false; count]?,
        trail: Vec::new(alloc),
        order,
    })
}

/// The order of a search that looks at each edge once, from each node in turn that was not met before.
///
/// # Errors
///
/// Out of memory.
pub(crate) fn order_of(alloc: Global, graph: &[Node]) -> Result<Order, OutOfMemory>
    requires { IsGraph graph.now }
    ensures { IfOk result (IsOrder graph.now) }
{
    let mut search = new_search(alloc, graph)?;
    for root in 0..graph.len() {
        visit(graph, root, &mut search)?;
    }
    let Search { order, .. } = search;
    Ok(order)
}
