//! Graphs whose nodes are numbered from 0.
ghost use Rattle.std.specs.Prelude.{◌≡◌};
ghost use Rattle.type_system_circles.specs.Graph.{edges_of};

/// An edge to a node, and what it stands for: the index of a field.
#[derive(Clone, Copy, Debug)]
pub struct Edge {
    pub target: usize,
    pub field: usize,
}

/// The edges from one node, in their order.
#[derive(Debug, Drop)]
pub struct Node {
    pub edges: Vec<Edge>,
}

/// An edge, with the node from which it leads.
#[derive(Clone, Copy, Debug)]
pub struct Link {
    pub from: usize,
    pub edge: Edge,
}

/// The edges from a node; none for a number past the last node.
pub fn edges(graph: &[Node], node: usize) -> &[Edge]
    ensures { result.now ≡ edges_of graph.now node }
{
    match graph.get(node) {
        Some(found) => found.edges.as_slice(),
        None => &[],
    }
}
