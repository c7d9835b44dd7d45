//! The graph of references: its nodes are the definitions of a document, and an edge leads from the first of a name to
//! the first of a name to which one of the former refers.
ghost use Rattle.std.specs.Prelude.{◌<◌, ◌∷◌, [], IfOk, OnOk, Some, length};
ghost use Rattle.std.specs.List.{flat_map};
ghost use Rattle.sdl_directive_circles.specs.Graph.{AddsLinks, AreBare, AreWithin, HasReferences, link, links_between};
ghost use Rattle.sdl_directive_circles.specs.Graph.{links_of, place_of};
ghost use Rattle.sdl_directive_circles.specs.Uses.{name_value};

use crate::names::Name;
use crate::places::{Places, place_by, place_of, places_of};
use crate::uses::uses_of;
use graphql_reader::type_system::TypeSystemDefinition;
use language::error::OutOfMemory;
use std::alloc::Global;
use type_system_circles::graph::{Edge, Node};

/// The nodes, and the places of names among them.
#[derive(Drop)]
pub(crate) struct References<'d> {
    pub(crate) places: Places<'d>,
    pub(crate) nodes: Vec<Node>,
}

/// What refers to what in a document.
///
/// # Errors
///
/// Out of memory.
pub(crate) fn references_in<'d, 't>(
    alloc: Global,
    document: &'d [TypeSystemDefinition<'t>],
) -> Result<References<'d>, OutOfMemory>
    ensures { IfOk result (HasReferences document.now) }
{
    let places = places_of(alloc, document)?;
    let mut nodes = new_nodes(alloc, document.len())?;
    add_definitions(alloc, document, &places, &mut nodes)?;
    Ok(References { places, nodes })
}

// Nodes without edges.
fn new_nodes(alloc: Global, count: usize) -> Result<Vec<Node>, OutOfMemory>
    ensures { IfOk result (λ v. AreBare count v.items) }
{
    let mut nodes = Vec::with_capacity(alloc, count)?;
    for _ in 0..count {
        nodes.push(Node {
            edges: Vec::new(alloc),
        })?;
    }
    Ok(nodes)
}

fn add_definitions(
    alloc: Global,
    document: &[TypeSystemDefinition<'_>],
    places: &Places<'_>,
    nodes: &mut Vec<Node>,
) -> Result<(), OutOfMemory>
    requires { AreWithin places.now (length nodes.old.items) }
    ensures { OnOk result (AddsLinks (flat_map (links_of places.now) document.now) nodes.old.items nodes.new.items) }
{
    for definition in document {
        add_definition(alloc, definition, places, nodes)?;
    }
    Ok(())
}

fn add_definition(
    alloc: Global,
    definition: &TypeSystemDefinition<'_>,
    places: &Places<'_>,
    nodes: &mut Vec<Node>,
) -> Result<(), OutOfMemory>
    requires { AreWithin places.now (length nodes.old.items) }
    ensures { OnOk result (AddsLinks (links_of places.now definition.now) nodes.old.items nodes.new.items) }
{
    match place_by(places, definition) {
        Some(from) => {
            let uses = uses_of(alloc, definition)?;
            add_links(from, uses.as_slice(), places, nodes)
        }
        None => Ok(()),
    }
}

fn add_links(
    from: usize,
    uses: &[Name<'_>],
    places: &Places<'_>,
    nodes: &mut Vec<Node>,
) -> Result<(), OutOfMemory>
    requires { from < length nodes.old.items }
    ensures { OnOk result (AddsLinks
        (flat_map (λ u. links_between (Some from) (place_of places.now (name_value u))) uses.now)
        nodes.old.items nodes.new.items) }
{
    for name in uses {
        add_link(from, *name, places, nodes)?;
    }
    Ok(())
}

// Adds the edge to what has the name, if the document defines it.
fn add_link(
    from: usize,
    name: Name<'_>,
    places: &Places<'_>,
    nodes: &mut Vec<Node>,
) -> Result<(), OutOfMemory>
    requires { from < length nodes.old.items }
    ensures { OnOk result (AddsLinks (links_between (Some from) (place_of places.now (name_value name.entry)))
        nodes.old.items nodes.new.items) }
{
    match place_of(places, name) {
        Some(target) => add_edge(from, target, nodes),
        None => Ok(()),
    }
}

fn add_edge(from: usize, target: usize, nodes: &mut Vec<Node>) -> Result<(), OutOfMemory>
    requires { from < length nodes.old.items }
    ensures { OnOk result (AddsLinks (link from target ∷ []) nodes.old.items nodes.new.items) }
{
    nodes[from].edges.push(Edge { target, field: 0 })?;
    Ok(())
}
