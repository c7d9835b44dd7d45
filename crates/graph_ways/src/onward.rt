//! From each node of a graph that is on a circle a link onward, along which a way leads back.
ghost use Rattle.std.specs.Prelude.{◌≡◌, [], IfOk, OnOk, length};
ghost use Rattle.type_system_circles.specs.Graph.{IsGraph};
ghost use Rattle.graph_ways.specs.Backwards.{Idle};
ghost use Rattle.graph_ways.specs.Entering.{AreEntering};
ghost use Rattle.graph_ways.specs.Onward.{LeadBack};
ghost use Rattle.graph_ways.specs.Order.{IsOrder};
ghost use Rattle.graph_ways.specs.Ways.{Counts};

use crate::backwards::{Search, new_search, visit};
use crate::entering::{Entering, entering_of};
use crate::order::{Order, order_of};
use language_types::error::OutOfMemory;
use std::alloc::Global;
use type_system_circles::graph::{Link, Node};

/// What two searches found in a graph; [`crate::way_back`] reads ways from it.
#[derive(Debug, Drop)]
pub struct Ways {
    pub(crate) order: Order,
    pub(crate) roots: Vec<Option<usize>>,
    pub(crate) onward: Vec<Option<Link>>,
    pub(crate) entered: Vec<usize>,
}

// Searches backwards from all nodes, beginning with that of the highest rank.
fn search_all(
    graph: &[Node],
    order: &Order,
    entering: &[Entering],
    search: &mut Search,
) -> Result<(), OutOfMemory>
    requires order { IsOrder graph.now order.now }
    requires entering { AreEntering graph.now entering.now }
    requires idle { Idle graph.now order.now (length graph.now) search.old }
    ensures { OnOk result (Idle graph.now order.now 0 search.new) }
{
    let count = graph.len();
    for done in 0..count {
        visit(graph, order, entering, count - 1 - done, search)?;
    }
    Ok(())
}

// Searches backwards, after a depth-first search that left the nodes in this order.
fn onward_of(alloc: Global, graph: &[Node], order: Order) -> Result<Ways, OutOfMemory>
    requires graph { IsGraph graph.now }
    requires order { IsOrder graph.now order }
    ensures { IfOk result (LeadBack graph.now) }
{
    let entering = entering_of(alloc, graph)?;
    let mut search = new_search(alloc, graph.len())?;
    search_all(graph, &order, entering.as_slice(), &mut search)?;
    let Search {
        roots,
        onward,
        entered,
        ..
    } = search;
    Ok(Ways {
        order,
        roots,
        onward,
        entered,
    })
}

/// A link onward from each node that is on a circle. Looks at each edge once from the node that it leads from, and once
/// from the node that it leads to.
///
/// # Errors
///
/// Out of memory.
pub fn ways_of(alloc: Global, graph: &[Node]) -> Result<Ways, OutOfMemory>
    requires { IsGraph graph.now }
    ensures back { IfOk result (LeadBack graph.now) }
    ensures looked { IfOk result (λ w. Counts graph.now w.order.looked.items w.entered.items) }
{
    let order = order_of(alloc, graph)?;
    onward_of(alloc, graph, order)
}
