//! A depth-first search for cycles: each node is new, in work or finished.
ghost use Rattle.std.specs.Prelude.{◌≡◌, ◌≢◌, ◌<◌, ◌++◌, ◌∷◌, [], length, Some, OnOk, IfOk, slice_get, map, replicate};
ghost use Rattle.fragment_graph.specs.Graph.{spreads_of};
ghost use Rattle.fragment_graph.specs.Sound.{SoundAlong, IsSound, IsSoundTo, Keeps, steps_left};
ghost use Rattle.fragment_graph.specs.Searched.{Searched, rank_of};
ghost use Rattle.fragment_graph.specs.declared.search.Colour.TheVariants.{New};

use crate::graph::{Node, Spread, spread_at, spreads};
use std::alloc::{AllocError, Global};

/// A node on a cycle, and the spread in it that continues the cycle.
#[derive(Clone, Copy, Debug)]
pub struct Report {
    pub node: usize,
    pub spread: Spread,
}

// The state of a node: in work, with its index on the path, or finished, with its rank.
#[derive(Clone, Copy, Debug)]
enum Colour {
    New,
    InWork(usize),
    Finished(usize),
}

// A node on the path, and the number of its spreads that were looked at.
#[derive(Clone, Copy, Debug)]
struct Step {
    node: usize,
    looked: usize,
}

// The state of the search.
#[derive(Debug, Drop)]
struct Search {
    colours: Vec<Colour>,
    path: Vec<Step>,
    order: Vec<usize>,
    reports: Vec<Report>,
    looked: u128,
}

/// The result of a search.
#[derive(Debug, Drop)]
pub struct Outcome {
    /// The cycles that the search met.
    pub reports: Vec<Report>,
    /// The nodes, in the order in which they were finished.
    pub order: Vec<usize>,
    /// The index of each node in that order.
    pub ranks: Vec<usize>,
    /// The number of spreads that were looked at.
    pub looked: u128,
}

// The state of a node, if there is a node of this number.
fn colour_at(colours: &[Colour], node: usize) -> Option<Colour>
    ensures { result ≡ slice_get colours.now node }
{
    colours.get(node).copied()
}

// Appends a new node to the path.
fn enter(graph: &[Node], node: usize, search: &mut Search) -> Result<(), AllocError>
    requires sound { IsSoundTo graph.now node search.old }
    requires new { slice_get search.old.colours.items node ≡ Some New }
    ensures sound { OnOk result (IsSound graph.now search.new) }
    ensures begun { OnOk result (slice_get search.new.colours.items node ≢ Some New) }
    ensures keeps { OnOk result (Keeps search.old search.new) }
    ensures left { OnOk result (steps_left graph.now search.new ≡ steps_left graph.now search.old) }
{
    search.colours[node] = Colour::InWork(search.path.len());
    search.path.push(Step { node, looked: 0 })?;
    Ok(())
}

// Reports a node in work, with the spread in it from which the path continues.
fn report_cycle(
    graph: &[Node],
    node: usize,
    depth: usize,
    search: &mut Search,
) -> Result<(), AllocError>
    requires sound { IsSoundTo graph.now node search.old }
    requires in_work { slice_get search.old.colours.items node ≡ Some (Colour.InWork depth) }
    ensures sound { OnOk result (IsSound graph.now search.new) }
    ensures same { search.new.colours.items ≡ search.old.colours.items }
    ensures looked { search.new.looked ≡ search.old.looked }
{
    let step = search.path[depth];
    let spread = spreads(graph, step.node)[step.looked - 1];
    search.reports.push(Report { node, spread })?;
    Ok(())
}

// Continues the path to a node.
fn meet(graph: &[Node], node: usize, search: &mut Search) -> Result<(), AllocError>
    requires { IsSoundTo graph.now node search.old }
    ensures sound { OnOk result (IsSound graph.now search.new) }
    ensures begun { OnOk result (slice_get search.new.colours.items node ≢ Some New) }
    ensures keeps { OnOk result (Keeps search.old search.new) }
    ensures left { OnOk result (steps_left graph.now search.new ≡ steps_left graph.now search.old) }
{
    match colour_at(search.colours.as_slice(), node) {
        None => Ok(()),
        Some(Colour::New) => enter(graph, node, search),
        Some(Colour::InWork(depth)) => report_cycle(graph, node, depth, search),
        Some(Colour::Finished(_)) => Ok(()),
    }
}

// Finishes the node that was taken off the path.
fn finish(graph: &[Node], step: Step, search: &mut Search) -> Result<(), AllocError>
    requires sound { SoundAlong graph.now (search.old.path.items ++ step ∷ []) [] search.old }
    requires none { slice_get (spreads_of graph.now step.node) step.looked ≡ None }
    ensures sound { OnOk result (IsSound graph.now search.new) }
    ensures keeps { OnOk result (Keeps search.old search.new) }
    ensures left { OnOk result (steps_left graph.now search.new < steps_left graph.now search.old) }
{
    search.colours[step.node] = Colour::Finished(search.order.len());
    search.order.push(step.node)?;
    Ok(())
}

// Looks at the next spread of the node that was taken off the path.
fn follow(graph: &[Node], step: Step, search: &mut Search) -> Result<(), AllocError>
    requires { SoundAlong graph.now (search.old.path.items ++ step ∷ []) [] search.old }
    ensures sound { OnOk result (IsSound graph.now search.new) }
    ensures keeps { OnOk result (Keeps search.old search.new) }
    ensures left { OnOk result (steps_left graph.now search.new < steps_left graph.now search.old) }
{
    match spread_at(graph, step.node, step.looked) {
        None => finish(graph, step, search),
        Some(spread) => {
            search.path.push(Step {
                node: step.node,
                looked: step.looked + 1,
            })?;
            search.looked += 1;
            meet(graph, spread.target, search)
        }
    }
}

// Follows the path until it is empty.
fn run(graph: &[Node], search: &mut Search) -> Result<(), AllocError>
    requires { IsSound graph.now search.old }
    ensures sound { OnOk result (SoundAlong graph.now [] [] search.new) }
    ensures empty { OnOk result (search.new.path.items ≡ []) }
    ensures keeps { OnOk result (Keeps search.old search.new) }
{
    while let Some(step) = search.path.pop() {
        follow(graph, step, search)?;
    }
    Ok(())
}

// The state of each node at the start.
fn new_colours(alloc: Global, graph: &[Node]) -> Result<Vec<Colour>, AllocError>
    ensures { IfOk result (λ v. v.items ≡ replicate (length graph.now) New) }
{
    vec![in alloc; Colour::New; graph.len()]
}

// The rank of a finished node.
fn rank(colour: &Colour) -> usize
    ensures { result ≡ rank_of colour.now }
{
    match *colour {
        Colour::Finished(rank) => rank,
        _ => 0,
    }
}

// The rank of each node.
fn all_ranks(alloc: Global, colours: &[Colour]) -> Result<Vec<usize>, AllocError>
    ensures { IfOk result (λ v. v.items ≡ map rank_of colours.now) }
{
    colours.iter().map(|colour| rank(colour)).collect(alloc)
}

/// Searches a graph for cycles. Looks at each spread once.
///
/// # Errors
///
/// Out of memory.
pub fn search_graph(alloc: Global, graph: &[Node]) -> Result<Outcome, AllocError>
    ensures { IfOk result (Searched graph.now) }
{
    let mut search = Search {
        colours: new_colours(alloc, graph)?,
        path: Vec::new(alloc),
        order: Vec::with_capacity(alloc, graph.len())?,
        reports: Vec::new(alloc),
        looked: 0,
    };
    for root in 0..graph.len() {
        meet(graph, root, &mut search)?;
        run(graph, &mut search)?;
    }
    let ranks = all_ranks(alloc, search.colours.as_slice())?;
    let Search {
        order,
        reports,
        looked,
        ..
    } = search;
    Ok(Outcome {
        reports,
        order,
        ranks,
        looked,
    })
}
