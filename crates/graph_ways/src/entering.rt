//! The links that lead to each node of a graph.
ghost use Rattle.std.specs.Prelude.{◌≡◌, ◌<◌, ◌∷◌, [], All, IfOk, OnOk, length, map, replicate};
ghost use Rattle.type_system_circles.specs.Graph.{IsGraph, edges_of};
ghost use Rattle.graph_ways.specs.Entering.{AreBare, AreEntering, Enters};
ghost use Rattle.graph_ways.specs.Ways.{link_from, links_from, links_to};

use language_types::error::OutOfMemory;
use std::alloc::Global;
use type_system_circles::graph::{Edge, Link, Node, edges};

/// The links that lead to one node.
#[derive(Debug, Drop)]
pub(crate) struct Entering {
    pub(crate) links: Vec<Link>,
}

/// The links that lead to each node, in the order of the nodes that they lead from.
///
/// # Errors
///
/// Out of memory.
pub(crate) fn entering_of(alloc: Global, graph: &[Node]) -> Result<Vec<Entering>, OutOfMemory>
    requires { IsGraph graph.now }
    ensures { IfOk result (λ v. AreEntering graph.now v.items) }
{
    let mut entering = no_links(alloc, graph.len())?;
    for node in 0..graph.len() {
        enter_from(node, edges(graph, node), &mut entering)?;
    }
    Ok(entering)
}

fn no_links(alloc: Global, count: usize) -> Result<Vec<Entering>, OutOfMemory>
    ensures { IfOk result (λ v. AreBare count v.items) }
{
    let mut entering = Vec::with_capacity(alloc, count)?;
    for _ in 0..count {
        entering.push(Entering {
            links: Vec::new(alloc),
        })?;
    }
    Ok(entering)
}

// Adds the links from a node.
fn enter_from(from: usize, own: &[Edge], entering: &mut Vec<Entering>) -> Result<(), OutOfMemory>
    requires { All (λ e. e.target < length entering.old.items) own.now }
    ensures { OnOk result (Enters (map (link_from from) own.now) entering.old.items entering.new.items) }
{
    for edge in own {
        enter(Link { from, edge: *edge }, entering)?;
    }
    Ok(())
}

fn enter(link: Link, entering: &mut Vec<Entering>) -> Result<(), OutOfMemory>
    requires { link.edge.target < length entering.old.items }
    ensures { OnOk result (Enters (link ∷ []) entering.old.items entering.new.items) }
{
    entering[link.edge.target].links.push(link)?;
    Ok(())
}

/// The links that lead to a node.
pub(crate) fn links_to<'e>(graph: &[Node], entering: &'e [Entering], node: usize) -> &'e [Link]
    requires entering { AreEntering graph.now entering.now }
    requires node { node < length graph.now }
    ensures { result.now ≡ links_to graph.now node }
{
    match entering.get(node) {
        Some(found) => found.links.as_slice(),
        None => &[],
    }
}
