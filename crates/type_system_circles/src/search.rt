//! A depth-first search for circles: each node is new, in work or finished.
ghost use Rattle.std.specs.Prelude.{◌≡◌, ◌≢◌, ◌<◌, ◌≤◌, ◌++◌, ◌∷◌, [], length, Some, OnOk, IfOk, slice_get, drop};
ghost use Rattle.std.specs.Prelude.{replicate, ℕ, ◌^◌};
ghost use Rattle.type_system_circles.specs.Graph.{IsGraph, Searched, Stands, edges_of};
ghost use Rattle.type_system_circles.specs.Sound.{At, Ends, Idle, Keeps, Settles};
ghost use Rattle.type_system_circles.specs.declared.search.Colour.TheVariants.{New};

use crate::first::from_first;
use crate::graph::{Link, Node, edges};
use language_types::error::OutOfMemory;
use std::alloc::Global;

/// Links of which each leads to the node of the next, and the last to that of the first.
#[derive(Debug, Drop)]
pub struct Circle {
    pub links: Vec<Link>,
}

/// What a search found: circles, and of each node how many of its edges it looked at.
#[derive(Debug, Drop)]
pub struct Found {
    pub circles: Vec<Circle>,
    pub looked: Vec<usize>,
}

// The state of a node: in work, with its place on the way from the root, or finished, with its rank.
#[derive(Clone, Copy, Debug)]
enum Colour {
    New,
    InWork(usize),
    Finished(usize),
}

// The state of the search: of each node, how many of its edges were looked at; the links from the root; the nodes
// in the order in which they were finished.
#[derive(Debug, Drop)]
struct Search {
    alloc: Global,
    colours: Vec<Colour>,
    looked: Vec<usize>,
    trail: Vec<Link>,
    order: Vec<usize>,
    circles: Vec<Circle>,
}

fn colour_at(colours: &[Colour], node: usize) -> Colour
    requires { node < length colours.now }
    ensures { slice_get colours.now node ≡ Some result }
{
    colours[node]
}

// Goes on along a link to a new node.
fn descend(graph: &[Node], link: Link, search: &mut Search) -> Result<(), OutOfMemory>
    requires at { At graph.now link.from search.old }
    requires stands { Stands graph.now link }
    requires new { slice_get search.old.colours.items link.edge.target ≡ Some New }
    ensures at { OnOk result (At graph.now link.edge.target search.new) }
    ensures settles { OnOk result (Settles link search.old search.new) }
{
    search.trail.push(link)?;
    let depth = search.trail.len();
    search.colours[link.edge.target] = Colour::InWork(depth);
    Ok(())
}

// The links from the node at a depth, and the one that leads back to it.
fn closed(alloc: Global, trail: &[Link], depth: usize, link: Link) -> Result<Vec<Link>, OutOfMemory>
    requires { depth ≤ length trail.now }
    ensures { IfOk result (λ v. v.items ≡ drop depth trail.now ++ link ∷ []) }
{
    let mut links = Vec::new(alloc);
    links.extend_from_slice(&trail[depth..])?;
    links.push(link)?;
    Ok(links)
}

// Tells the circle that a link to a node in work closes.
fn tell(graph: &[Node], link: Link, depth: usize, search: &mut Search) -> Result<(), OutOfMemory>
    requires at { At graph.now link.from search.old }
    requires stands { Stands graph.now link }
    requires in_work { slice_get search.old.colours.items link.edge.target ≡ Some (Colour.InWork depth) }
    ensures at { OnOk result (At graph.now link.from search.new) }
    ensures settles { OnOk result (Settles link search.old search.new) }
{
    let back = closed(search.alloc, search.trail.as_slice(), depth, link)?;
    let turned = from_first(search.alloc, back.as_slice())?;
    search.circles.push(Circle { links: turned })?;
    Ok(())
}

// Follows a link. Returns the node at the end of the links.
fn follow(graph: &[Node], link: Link, search: &mut Search) -> Result<usize, OutOfMemory>
    requires graph { IsGraph graph.now }
    requires at { At graph.now link.from search.old }
    requires stands { Stands graph.now link }
    ensures at { IfOk result (λ end. At graph.now end search.new) }
    ensures settles { OnOk result (Settles link search.old search.new) }
{
    match colour_at(search.colours.as_slice(), link.edge.target) {
        Colour::New => {
            descend(graph, link, search)?;
            Ok(link.edge.target)
        }
        Colour::InWork(depth) => {
            tell(graph, link, depth, search)?;
            Ok(link.from)
        }
        Colour::Finished(_) => Ok(link.from),
    }
}

// Finishes the node at the end of the links. Returns the one before it, if there is one.
fn finish(graph: &[Node], node: usize, search: &mut Search) -> Result<Option<usize>, OutOfMemory>
    requires at { At graph.now node search.old }
    requires all { (n : ℕ) → slice_get search.old.looked.items node ≡ Some n → length (edges_of graph.now node) ≤ n }
    ensures ends { IfOk result (λ end. Ends graph.now end search.new) }
    ensures keeps { OnOk result (Keeps search.old search.new) }
{
    let rank = search.order.len();
    search.order.push(node)?;
    search.colours[node] = Colour::Finished(rank);
    match search.trail.pop() {
        Some(link) => Ok(Some(link.from)),
        None => Ok(None),
    }
}

// Looks at an edge of the node at the end of the links. Returns the node at their end then.
fn look(graph: &[Node], link: Link, index: usize, search: &mut Search) -> Result<usize, OutOfMemory>
    requires graph { IsGraph graph.now }
    requires at { At graph.now link.from search.old }
    requires edge { slice_get (edges_of graph.now link.from) index ≡ Some link.edge }
    requires next { slice_get search.old.looked.items link.from ≡ Some index }
    requires room { index < length (edges_of graph.now link.from) }
    requires fits { length (edges_of graph.now link.from) < 2 ^ 64 }
    ensures at { IfOk result (λ end. At graph.now end search.new) }
    ensures keeps { OnOk result (Keeps search.old search.new) }
{
    let end = follow(graph, link, search)?;
    search.looked[link.from] = index + 1;
    Ok(end)
}

// Looks at the next edge of the node at the end of the links, or finishes the node.
fn step(graph: &[Node], node: usize, search: &mut Search) -> Result<Option<usize>, OutOfMemory>
    requires graph { IsGraph graph.now }
    requires at { At graph.now node search.old }
    ensures ends { IfOk result (λ end. Ends graph.now end search.new) }
    ensures keeps { OnOk result (Keeps search.old search.new) }
{
    let next = search.looked[node];
    let own = edges(graph, node);
    if next < own.len() {
        let link = Link {
            from: node,
            edge: own[next],
        };
        let end = look(graph, link, next, search)?;
        return Ok(Some(end));
    }
    finish(graph, node, search)
}

// Searches what a new node leads to.
fn explore(graph: &[Node], root: usize, search: &mut Search) -> Result<(), OutOfMemory>
    requires graph { IsGraph graph.now }
    requires idle { Idle graph.now search.old }
    requires new { slice_get search.old.colours.items root ≡ Some New }
    ensures idle { OnOk result (Idle graph.now search.new) }
    ensures begun { OnOk result (slice_get search.new.colours.items root ≢ Some New) }
    ensures keeps { OnOk result (Keeps search.old search.new) }
{
    search.colours[root] = Colour::InWork(0);
    let mut end = Some(root);
    for _ in 0..u64::MAX {
        match end {
            None => return Ok(()),
            Some(node) => {
                end = step(graph, node, search)?;
            }
        }
    }
    Err(OutOfMemory)
}

// Searches what a node leads to, unless that is known.
fn visit(graph: &[Node], root: usize, search: &mut Search) -> Result<(), OutOfMemory>
    requires graph { IsGraph graph.now }
    requires idle { Idle graph.now search.old }
    requires inside { root < length graph.now }
    ensures idle { OnOk result (Idle graph.now search.new) }
    ensures begun { OnOk result (slice_get search.new.colours.items root ≢ Some New) }
    ensures keeps { OnOk result (Keeps search.old search.new) }
{
    match colour_at(search.colours.as_slice(), root) {
        Colour::New => explore(graph, root, search),
        Colour::InWork(_) => Ok(()),
        Colour::Finished(_) => Ok(()),
    }
}

// The state before the first step.
fn new_search(alloc: Global, count: usize) -> Result<Search, OutOfMemory>
    ensures colours { IfOk result (λ s. s.colours.items ≡ replicate count New) }
    ensures looked { IfOk result (λ s. s.looked.items ≡ replicate count 0) }
    ensures trail { IfOk result (λ s. s.trail.items ≡ []) }
    ensures order { IfOk result (λ s. s.order.items ≡ []) }
    ensures circles { IfOk result (λ s. s.circles.items ≡ []) }
{
    Ok(Search {
        alloc,
        colours: vec![in alloc; Colour::New; count]?,
        looked: vec![in alloc; 0; count]?,
        trail: Vec::new(alloc),
        order: Vec::with_capacity(alloc, count)?,
        circles: Vec::new(alloc),
    })
}

/// Circles of a graph: at least one that has a link of each. Looks at each edge once.
///
/// # Errors
///
/// Out of memory.
pub fn circles_of(alloc: Global, graph: &[Node]) -> Result<Found, OutOfMemory>
    requires { IsGraph graph.now }
    ensures { IfOk result (Searched graph.now) }
{
    let count = graph.len();
    let mut search = new_search(alloc, count)?;
    for root in 0..count {
        visit(graph, root, &mut search)?;
    }
    let Search {
        circles,
        looked,
        ..
    } = search;
    Ok(Found { circles, looked })
}
