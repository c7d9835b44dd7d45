//! The index of the scopes of a document: their spreads and the places of their definitions.
ghost use Rattle.std.specs.Prelude.{◌≡◌, ◌-◌, Option, Some, List, ℕ, IfOk, IfSome, IfNone, OnOk, length, slice_get};
ghost use Rattle.std.specs.Prelude.{option_copied};
ghost use Rattle.fragment_graph.specs.Numbers.{NumberedDefinitions};
ghost use Rattle.fragment_reach.specs.Reach.{operation};
ghost use Rattle.operation_scopes.specs.Scopes.{IsLastOf, IsOperationName, operation_name};
ghost use Rattle.operation_scopes.specs.Places.{numbered_places, places_of};
ghost use Rattle.operation_scopes.specs.Index.{AddsDefinition, AddsFragment, AddsOperation, IsIndexOf, NoOperationAt};

use crate::operation_numbers::{OperationNumbers, no_operations, number_operations};
use crate::places::{add_numbered, empty_lists, numbered_places};
use fragment_graph::document_graph::{DocumentGraph, graph_of};
use fragment_graph::graph::Spread;
use fragment_graph::numbers::{NumberedNames, name_count};
use fragment_reach::reached::operation_spreads;
use jagged_lists::lists::FlatLists;
use language::position::Spanning;
use language::tree::{Definition, Document, Operation};
use std::alloc::{AllocError, Global};

/// The scopes of a document. All lists of places ascend.
#[derive(Drop)]
pub struct ScopeIndex<'a> {
    /// The names of the operations, each once, in the order in which they come first.
    pub names: Vec<Option<&'a str>>,
    /// For each of these names, the places of its operations.
    pub operations: Vec<Vec<usize>>,
    /// For the number of each fragment, the places of its definitions.
    pub fragments: Vec<Vec<usize>>,
    /// The spreads inside the fragments.
    pub graph: DocumentGraph<'a>,
    /// The spreads inside the operations: one list for each definition, which is empty for a fragment.
    pub spreads: FlatLists<Spread>,
}

/// The places of the operations of a name, by its index in `names`, counted from 0.
pub fn operation_places<'m>(index: &'m ScopeIndex<'_>, number: usize) -> &'m [usize]
    ensures { result.now ≡ numbered_places index.now.operations.items number }
{
    numbered_places(index.operations.as_slice(), number)
}

// The name of an operation.
fn name_of<'a, S>(operation: &Spanning<Operation<'a, S>>) -> Option<&'a str>
    ensures { option_copied result ≡ operation_name operation.now }
{
    match &operation.item.name {
        Some(name) => Some(name.item),
        None => None,
    }
}

// Adds the place of an operation of this name.
fn add_operation<'a>(
    alloc: Global,
    name: Option<&'a str>,
    place: usize,
    numbers: &mut OperationNumbers<'a>,
    index: &mut ScopeIndex<'a>,
) -> Result<(), AllocError>
    ensures { OnOk result (AddsOperation (option_copied name.entry) place numbers.old numbers.new index.old
        index.new) }
{
    let next = index.names.len();
    match number_operations(numbers, name, next)? {
        Some(number) => add_numbered(&mut index.operations, number, place),
        None => {
            let mut places = Vec::new(alloc);
            places.push(place)?;
            index.names.push(name)?;
            index.operations.push(places)?;
            Ok(())
        }
    }
}

// Adds the place of a definition of the fragment of this number.
fn add_fragment(
    number: Option<usize>,
    place: usize,
    index: &mut ScopeIndex<'_>,
) -> Result<(), AllocError>
    ensures { OnOk result (AddsFragment number place index.old index.new) }
{
    match number {
        Some(number) => add_numbered(&mut index.fragments, number, place),
        None => Ok(()),
    }
}

// Adds the place of a definition, by the number of its name.
fn add_definition<'a, S>(
    alloc: Global,
    definition: &Definition<'a, S>,
    number: Option<usize>,
    place: usize,
    numbers: &mut OperationNumbers<'a>,
    index: &mut ScopeIndex<'a>,
) -> Result<(), AllocError>
    ensures { OnOk result (AddsDefinition definition.now number place numbers.old numbers.new index.old index.new) }
{
    match definition {
        Definition::Operation(operation) => {
            add_operation(alloc, name_of(operation), place, numbers, index)
        }
        Definition::Fragment(_) => add_fragment(number, place, index),
    }
}

/// The index of the scopes of a document, by the numbers of the names of its fragments.
///
/// # Errors
///
/// Out of memory.
pub fn index_scopes<'a, S>(
    alloc: Global,
    document: Document<'a, S>,
    names: NumberedNames<'a>,
) -> Result<ScopeIndex<'a>, AllocError>
    requires { NumberedDefinitions document.now names.numbers names.defined.items }
    ensures { IfOk result (IsIndexOf document.now) }
{
    let graph = graph_of(alloc, document, names)?;
    let fragments = empty_lists(alloc, name_count(&graph.numbers))?;
    let spreads = operation_spreads(alloc, &graph.numbers, document)?;
    let mut numbers = no_operations(alloc, document.len())?;
    let mut index = ScopeIndex {
        names: Vec::new(alloc),
        operations: Vec::new(alloc),
        fragments,
        graph,
        spreads,
    };
    for place in 0..document.len() {
        let number = index.graph.defined[place];
        add_definition(
            alloc,
            &document[place],
            number,
            place,
            &mut numbers,
            &mut index,
        )?;
    }
    Ok(index)
}

// The last of these places.
fn last_place(places: &[usize]) -> Option<usize>
    ensures { result ≡ slice_get places.now (length places.now - 1) }
{
    places.last().copied()
}

// The operation at a place.
fn operation_at<'d, 't, S>(
    document: &'d [Definition<'t, S>],
    place: usize,
) -> Option<&'d Spanning<Operation<'t, S>>>
    ensures some { IfSome result (λ o. slice_get document.now place ≡ Some (Definition.Operation o.now)) }
    ensures none { IfNone result (NoOperationAt document.now place) }
{
    match document.get(place) {
        Some(Definition::Operation(operation)) => Some(operation),
        _ => None,
    }
}

/// The last operation of a name, by the places of all operations of this name.
pub fn last_operation<'d, 't, S>(
    document: &'d [Definition<'t, S>],
    places: &[usize],
) -> Option<&'d Spanning<Operation<'t, S>>>
    ensures some { IfSome result (λ o. (name : Option (List ℕ)) → places.now ≡ places_of document.now (operation name)
        → IsLastOf document.now name o.now) }
    ensures none { IfNone result ((name : Option (List ℕ)) → places.now ≡ places_of document.now (operation name)
        → IsOperationName document.now name → ⊥) }
{
    match last_place(places) {
        Some(place) => operation_at(document, place),
        None => None,
    }
}
