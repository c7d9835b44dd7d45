//! The fragments that operations reach (section 5.5.1.4).
ghost use Rattle.std.specs.Prelude.{◌≡◌, [], ◌++◌, ◌↔◌, OnOk, IfOk, IsTrue, Some, List, ℕ};
ghost use Rattle.fragment_graph.specs.Numbers.{number_of};
ghost use Rattle.fragment_graph.specs.DocumentGraph.{IsGraphOf};
ghost use Rattle.jagged_lists.specs.Lists.{Holds};
ghost use Rattle.fragment_reach.specs.OperationSpreads.{resolved_lists, resolved_spreads, resolved_starts};
ghost use Rattle.fragment_reach.specs.Reach.{IsReached};
ghost use Rattle.fragment_reach.specs.ReachedFragments.{IsNameMarked, ReachedOf};
ghost use Rattle.fragment_reach.specs.Search.{IsMarked};

use crate::search::{is_marked, mark_reached};
use fragment_graph::document_graph::{DocumentGraph, add_spreads};
use fragment_graph::graph::Spread;
use fragment_graph::numbers::Numbers;
use jagged_lists::lists::FlatLists;
use language::tree::{Definition, Document};
use std::alloc::{AllocError, Global};

/// The graph of a document, and a mark for each of its nodes that some operation reaches.
#[derive(Drop)]
pub struct ReachedFragments<'g, 'a> {
    pub graph: &'g DocumentGraph<'a>,
    pub marks: Vec<bool>,
}

/// Whether some operation reaches the fragment of this number; `false` for `None`.
pub fn is_reached(reached: &ReachedFragments<'_, '_>, number: Option<usize>) -> bool
    ensures { (name : List ℕ) → number ≡ number_of reached.now.graph.now.numbers name → IsTrue result
        ↔ IsNameMarked reached.now name }
{
    match number {
        Some(found) => is_marked(reached.marks.as_slice(), found),
        None => false,
    }
}

/// Appends the spreads of a definition, if it is an operation.
///
/// # Errors
///
/// Out of memory.
pub fn add_operation<S>(
    numbers: &Numbers<'_>,
    definition: &Definition<'_, S>,
    found: &mut Vec<Spread>,
) -> Result<(), AllocError>
    ensures { OnOk result (found.new.items ≡ found.old.items
        ++ resolved_spreads numbers.now definition.now) }
{
    match definition {
        Definition::Operation(operation) => add_spreads(
            numbers,
            operation.item.selection_set.as_slice(),
            found,
        ),
        Definition::Fragment(_) => Ok(()),
    }
}

/// The spreads inside the operations of a document: one list for each definition, which is empty for
/// a fragment.
///
/// # Errors
///
/// Out of memory.
pub fn operation_spreads<S>(
    alloc: Global,
    numbers: &Numbers<'_>,
    document: Document<'_, S>,
) -> Result<FlatLists<Spread>, AllocError>
    ensures lists { IfOk result (Holds (resolved_lists numbers.now document.now) []) }
    ensures all { IfOk result (λ s. s.items.items ≡ resolved_starts numbers.now document.now) }
{
    let mut found = FlatLists::new(alloc);
    for definition in document {
        add_operation(numbers, definition, &mut found.items)?;
        found.end_list()?;
    }
    Ok(found)
}

// Marks the nodes that some operation reaches, by the spreads inside all operations.
fn mark_reached_fragments<S>(
    alloc: Global,
    document: Document<'_, S>,
    graph: &DocumentGraph<'_>,
    starts: &[Spread],
) -> Result<Vec<bool>, AllocError>
    requires graph { IsGraphOf document.now graph.now }
    requires starts { starts.now ≡ resolved_starts graph.now.numbers document.now }
    ensures { IfOk result (λ marks. (name : List ℕ) (k : ℕ) → number_of graph.now.numbers name ≡ Some k
        → IsMarked marks.items k ↔ IsReached document.now name) }
{
    mark_reached(alloc, graph.nodes.as_slice(), starts)
}

/// The fragments of a document that some operation reaches, by the graph of the document and the
/// spreads inside all operations.
///
/// # Errors
///
/// Out of memory.
pub fn reached_fragments<'g, 'a, S>(
    alloc: Global,
    document: Document<'_, S>,
    graph: &'g DocumentGraph<'a>,
    starts: &[Spread],
) -> Result<ReachedFragments<'g, 'a>, AllocError>
    requires graph { IsGraphOf document.now graph.now }
    requires starts { starts.now ≡ resolved_starts graph.now.numbers document.now }
    ensures reached { IfOk result (ReachedOf document.now) }
    ensures graph { IfOk result (λ r. r.graph.now ≡ graph.now) }
{
    let marks = mark_reached_fragments(alloc, document, graph, starts)?;
    Ok(ReachedFragments { graph, marks })
}
