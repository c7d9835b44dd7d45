//! The graph of input objects: its nodes are the types of a list, and its edges the fields that require one.
ghost use Rattle.std.specs.Prelude.{◌≡◌, ◌↔◌, ◌∷◌, [], IfOk, IsTrue, map};
ghost use Rattle.language_types.specs.References.{list_copied};
ghost use Rattle.language_types.specs.Types.{shape};
ghost use Rattle.meta.specs.Kinds.{input_fields_of};
ghost use Rattle.type_system_inputs.specs.Graph.{edges_from, required_place};

use crate::members::input_fields;
use crate::places::place_of;
use language_types::error::OutOfMemory;
use language_types::types::{Type, TypeModifier};
use name_tables::map::NameMap;
use schema::meta::{Argument, MetaTypeOf};
use std::alloc::Global;
use type_system_circles::graph::{Edge, Node};

/// The graph of these types, whose input objects have these places.
pub(crate) fn graph_of<S, C>(
    alloc: Global,
    types: &[&MetaTypeOf<S, C>],
    places: &NameMap<'_, usize>,
) -> Result<Vec<Node>, OutOfMemory>
    ensures { IfOk result (λ v. map (λ n. n.edges.items) v.items
        ≡ map (λ t. edges_from places.now 0 (input_fields_of t)) (list_copied types.now)) }
{
    let mut graph = Vec::with_capacity(alloc, types.len())?;
    for meta in types {
        graph.push(node_of(alloc, input_fields(*meta), places)?)?;
    }
    Ok(graph)
}

// The node of a type with these fields.
fn node_of<S>(
    alloc: Global,
    fields: &[Argument<S>],
    places: &NameMap<'_, usize>,
) -> Result<Node, OutOfMemory>
    ensures { IfOk result (λ n. n.edges.items ≡ edges_from places.now 0 fields.now) }
{
    let mut edges = Vec::new(alloc);
    for (field, defined) in fields.iter().enumerate() {
        if let Some(target) = required_place(&defined.arg_type, places) {
            edges.push(Edge { target, field })?;
        }
    }
    Ok(Node { edges })
}

// The place of the input object that a type requires.
fn required_place(written: &Type, places: &NameMap<'_, usize>) -> Option<usize>
    ensures { result ≡ required_place places.now (shape written.now) }
{
    if is_required_name(written.modifiers()) {
        return place_of(places, written.innermost_name());
    }
    None
}

// Whether a type with these modifiers is non-null and no list.
fn is_required_name(modifiers: &[TypeModifier]) -> bool
    ensures { IsTrue result ↔ (modifiers.now ≡ TypeModifier.NonNull ∷ []) }
{
    match modifiers.split_last() {
        Some((TypeModifier::NonNull, inner)) => inner.is_empty(),
        _ => false,
    }
}
