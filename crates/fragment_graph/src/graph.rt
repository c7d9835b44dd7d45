//! A graph whose edges are spreads; its nodes are numbered from 0.
ghost use Rattle.std.specs.Prelude.{◌≡◌, slice_get};
ghost use Rattle.fragment_graph.specs.Graph.{spreads_of};

use language::position::SourcePosition;

/// A spread: the number of its target, and the position at which it starts.
///
/// A spread of an unknown fragment has a number past the last node.
#[derive(Clone, Copy, Debug)]
pub struct Spread {
    pub target: usize,
    pub place: SourcePosition,
}

/// The spreads of one node.
#[derive(Debug, Drop)]
pub struct Node {
    pub spreads: Vec<Spread>,
}

/// The spreads of a node; the empty list for a number past the last node.
pub fn spreads(graph: &[Node], node: usize) -> &[Spread]
    ensures { result.now ≡ spreads_of graph.now node }
{
    match graph.get(node) {
        Some(found) => found.spreads.as_slice(),
        None => &[],
    }
}

/// The spread of a node at an index, counted from 0.
pub fn spread_at(graph: &[Node], node: usize, index: usize) -> Option<Spread>
    ensures { result ≡ slice_get (spreads_of graph.now node) index }
{
    spreads(graph, node).get(index).copied()
}
