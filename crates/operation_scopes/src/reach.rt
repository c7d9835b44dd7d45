//! The definitions that an operation reaches through spreads.
ghost use Rattle.std.specs.Prelude.{◌≡◌, ◌++◌, [], ℕ, List, Option, IfOk, OnOk};
ghost use Rattle.std.specs.List.{flat_map};
ghost use Rattle.jagged_lists.specs.Lists.{Holds, list_at};
ghost use Rattle.fragment_graph.specs.declared.graph.Spread.{Spread};
ghost use Rattle.fragment_reach.specs.Reach.{operation};
ghost use Rattle.operation_scopes.specs.Index.{IsIndexOf};
ghost use Rattle.operation_scopes.specs.Places.{places_of};
ghost use Rattle.operation_scopes.specs.Scopes.{InReach};
ghost use Rattle.operation_scopes.specs.Searches.{IsReady, fragment_places};

use crate::index::ScopeIndex;
use crate::places::numbered_places;
use fragment_graph::graph::Spread;
use fragment_reach::search::{explore, forget};
use language::tree::Definition;
use std::alloc::{AllocError, Global};

/// The state of a search. It can be used again: between two searches no fragment is marked, and the
/// lists keep their memory.
#[derive(Drop)]
pub struct Search {
    order: Vec<usize>,
    marks: Vec<bool>,
    starts: Vec<Spread>,
    found: Vec<usize>,
}

/// A search over the scopes of a document.
///
/// # Errors
///
/// Out of memory.
pub fn new_search(alloc: Global, index: &ScopeIndex<'_>) -> Result<Search, AllocError>
    ensures { IfOk result (IsReady index.now) }
{
    Ok(Search {
        order: Vec::new(alloc),
        marks: vec![in alloc; false; index.graph.nodes.len()]?,
        starts: Vec::new(alloc),
        found: Vec::new(alloc),
    })
}

/// The places that the last search found.
pub fn found_places(search: &Search) -> &[usize]
    ensures { result.now ≡ search.now.found.items }
{
    search.found.as_slice()
}

// Appends the spreads inside the operation at a place.
fn add_spreads_at(
    index: &ScopeIndex<'_>,
    place: usize,
    found: &mut Vec<Spread>,
) -> Result<(), AllocError>
    ensures { OnOk result ((ls : List (List Spread)) → Holds ls [] index.now.spreads → found.new.items
        ≡ found.old.items ++ list_at ls place) }
{
    found.extend_from_slice(index.spreads.list(place))
}

// Makes the list that of the spreads inside the operations at these places.
fn list_spreads(
    index: &ScopeIndex<'_>,
    places: &[usize],
    found: &mut Vec<Spread>,
) -> Result<(), AllocError>
    ensures { OnOk result ((ls : List (List Spread)) → Holds ls [] index.now.spreads → found.new.items
        ≡ flat_map (list_at ls) places.now) }
{
    found.clear();
    for place in places {
        add_spreads_at(index, *place, found)?;
    }
    Ok(())
}

// Appends the places of the fragment of this number.
fn add_fragment(
    index: &ScopeIndex<'_>,
    number: usize,
    places: &mut Vec<usize>,
) -> Result<(), AllocError>
    ensures { OnOk result (places.new.items ≡ places.old.items ++ fragment_places index.now number) }
{
    places.extend_from_slice(numbered_places(index.fragments.as_slice(), number))
}

// Appends the places of the fragments of these numbers.
fn add_fragments(
    index: &ScopeIndex<'_>,
    order: &[usize],
    places: &mut Vec<usize>,
) -> Result<(), AllocError>
    ensures { OnOk result (places.new.items ≡ places.old.items ++ flat_map (fragment_places index.now) order.now) }
{
    for number in order {
        add_fragment(index, *number, places)?;
    }
    Ok(())
}

// Makes the list that of these places and those of the fragments of these numbers.
fn list_places(
    index: &ScopeIndex<'_>,
    own: &[usize],
    order: &[usize],
    places: &mut Vec<usize>,
) -> Result<(), AllocError>
    ensures { OnOk result (places.new.items ≡ own.now ++ flat_map (fragment_places index.now) order.now) }
{
    places.clear();
    places.extend_from_slice(own)?;
    add_fragments(index, order, places)
}

/// Finds the places of the definitions that the operations of a name reach, each once, by the places
/// of these operations. Looks at each scope once. [`found_places`] returns what it found.
///
/// # Errors
///
/// Out of memory.
pub fn reached_definitions<S>(
    document: &[Definition<'_, S>],
    index: &ScopeIndex<'_>,
    search: &mut Search,
    own: &[usize],
) -> Result<(), AllocError>
    requires index { IsIndexOf document.now index.now }
    requires ready { IsReady index.now search.old }
    ensures reached { OnOk result ((name : Option (List ℕ)) → own.now ≡ places_of document.now (operation name)
        → InReach document.now name search.new.found.items) }
    ensures ready { OnOk result (IsReady index.now search.new) }
{
    list_spreads(index, own, &mut search.starts)?;
    let nodes = index.graph.nodes.as_slice();
    explore(
        nodes,
        search.starts.as_slice(),
        &mut search.order,
        &mut search.marks,
    )?;
    list_places(index, own, search.order.as_slice(), &mut search.found)?;
    forget(&mut search.order, &mut search.marks);
    Ok(())
}
