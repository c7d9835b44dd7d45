//! A way from a node back to it, along links onward and then along those of the depth-first search.
ghost use Rattle.std.specs.Prelude.{◌≡◌, ◌≢◌, ◌<◌, None, Some, IfOk, IfSome, OnOk, MatchBool, length, slice_get};
ghost use Rattle.type_system_circles.specs.Graph.{Stands};
ghost use Rattle.graph_ways.specs.Onward.{IsClimb, IsOutward, LeadBack};
ghost use Rattle.graph_ways.specs.Order.{IsFrom, IsOrder, number_at, rank};
ghost use Rattle.graph_ways.specs.Ways.{HasNoWayBack, IsWayBack};

use crate::items::item_at;
use crate::onward::Ways;
use crate::order::Order;
use language_types::error::OutOfMemory;
use std::alloc::Global;
use type_system_circles::graph::{Link, Node};

// Links, and the node to which they lead.
#[derive(Debug, Drop)]
struct Path {
    links: Vec<Link>,
    end: usize,
}

fn number_at(numbers: &[usize], node: usize) -> usize
    requires { node < length numbers.now }
    ensures { result ≡ number_at numbers.now node }
{
    numbers[node]
}

// Whether the second node was found from the first, or is it.
fn is_from(graph: &[Node], order: &Order, above: usize, node: usize) -> bool
    requires order { IsOrder graph.now order.now }
    requires above { above < length graph.now }
    requires node { node < length graph.now }
    ensures { MatchBool result (IsFrom order.now above node) (IsFrom order.now above node → ⊥) }
{
    let own = number_at(order.ranks.as_slice(), node);
    let first = number_at(order.firsts.as_slice(), above);
    let last = number_at(order.ranks.as_slice(), above);
    first <= own && own <= last
}

// The link by which a node was found, from one that was found from the first node, or is it.
fn found_by(graph: &[Node], order: &Order, above: usize, node: usize) -> Link
    requires order { IsOrder graph.now order.now }
    requires above { above < length graph.now }
    requires node { node < length graph.now }
    requires from { IsFrom order.now above node }
    requires other { node ≢ above }
    ensures stands { Stands graph.now result }
    ensures target { result.edge.target ≡ node }
    ensures nearer { rank order.now node < rank order.now result.from }
    ensures inside { result.from < length graph.now }
    ensures from { IsFrom order.now above result.from }
{
    match item_at(order.found_by.as_slice(), node) {
        Some(link) => link,
        None => unreachable!(),
    }
}

// The links by which a node was found from another, the last first.
fn climb(
    alloc: Global,
    graph: &[Node],
    order: &Order,
    above: usize,
    node: usize,
) -> Result<Vec<Link>, OutOfMemory>
    requires order { IsOrder graph.now order.now }
    requires above { above < length graph.now }
    requires node { node < length graph.now }
    requires from { IsFrom order.now above node }
    ensures { IfOk result (λ ls. IsClimb graph.now node ls.items above) }
{
    let mut links = Vec::new(alloc);
    let mut place = node;
    while place != above {
        let link = found_by(graph, order, above, place);
        links.push(link)?;
        place = link.from;
    }
    Ok(links)
}

// Goes on along the link onward from the end of the links.
fn go_on(graph: &[Node], ways: &Ways, node: usize, path: &mut Path) -> Result<(), OutOfMemory>
    requires ways { LeadBack graph.now ways.now }
    requires outward { IsOutward graph.now ways.now node path.old }
    requires not { IsFrom ways.now.order path.old.end node → ⊥ }
    ensures outward { OnOk result (IsOutward graph.now ways.now node path.new) }
    ensures nearer { OnOk result ((h : LeadBack graph.now ways.now)
        → h.sound.depth path.new.end < h.sound.depth path.old.end) }
{
    match item_at(ways.onward.as_slice(), path.end) {
        Some(link) => {
            path.links.push(link)?;
            path.end = link.edge.target;
            Ok(())
        }
        None => unreachable!(),
    }
}

// The path of one link.
fn path_along(alloc: Global, graph: &[Node], ways: &Ways, link: Link) -> Result<Path, OutOfMemory>
    requires ways { LeadBack graph.now ways.now }
    requires onward { slice_get ways.now.onward.items link.from ≡ Some (Some link) }
    ensures { IfOk result (IsOutward graph.now ways.now link.from) }
{
    let mut links = Vec::new(alloc);
    links.push(link)?;
    Ok(Path {
        links,
        end: link.edge.target,
    })
}

// The links onward up to a node from which the first was found.
fn outward(alloc: Global, graph: &[Node], ways: &Ways, first: Link) -> Result<Path, OutOfMemory>
    requires ways { LeadBack graph.now ways.now }
    requires onward { slice_get ways.now.onward.items first.from ≡ Some (Some first) }
    ensures outward { IfOk result (IsOutward graph.now ways.now first.from) }
    ensures from { IfOk result (λ p. IsFrom ways.now.order p.end first.from) }
{
    let mut path = path_along(alloc, graph, ways, first)?;
    for _ in 0..graph.len() {
        if is_from(graph, &ways.order, path.end, first.from) {
            return Ok(path);
        }
        go_on(graph, ways, first.from, &mut path)?;
    }
    unreachable!()
}

// The links onward, and those from where they end back to the node.
fn way_along(
    alloc: Global,
    graph: &[Node],
    ways: &Ways,
    first: Link,
) -> Result<Vec<Link>, OutOfMemory>
    requires ways { LeadBack graph.now ways.now }
    requires onward { slice_get ways.now.onward.items first.from ≡ Some (Some first) }
    ensures { IfOk result (λ ls. IsWayBack graph.now first.from ls.items) }
{
    let Path { mut links, end } = outward(alloc, graph, ways, first)?;
    let mut found = climb(alloc, graph, &ways.order, end, first.from)?;
    found.reverse();
    links.extend_from_slice(found.as_slice())?;
    Ok(links)
}

/// A way from a node back to it, by at least one link, if there is one; none for a number past the last node.
///
/// # Errors
///
/// Out of memory.
pub fn way_back(
    alloc: Global,
    graph: &[Node],
    ways: &Ways,
    root: usize,
) -> Result<Option<Vec<Link>>, OutOfMemory>
    requires { LeadBack graph.now ways.now }
    ensures real { IfOk result (λ found. IfSome found (λ ls. IsWayBack graph.now root ls.items)) }
    ensures none { IfOk result (λ found. found ≡ None → HasNoWayBack graph.now root) }
{
    if root >= graph.len() {
        return Ok(None);
    }
    match item_at(ways.onward.as_slice(), root) {
        None => Ok(None),
        Some(first) => {
            let links = way_along(alloc, graph, ways, first)?;
            Ok(Some(links))
        }
    }
}
