//! The graph of a document.
ghost use Rattle.std.specs.Prelude.{◌≡◌, ◌<◌, ◌+◌, ◌↔◌, ℕ, List, [], Some, Option, OnOk, IfOk, IfSome, IsSome, length};
ghost use Rattle.std.specs.Prelude.{map, option_and_then, slice_get};
ghost use Rattle.std.specs.List.{flat_map};
ghost use Rattle.fragment_graph.specs.DocumentCycles.{HasNoCycle, SearchedDocument};
ghost use Rattle.merge_field_pairs.specs.Entries.{plain};
ghost use Rattle.merge_field_pairs.specs.Numbered.{AreTidy};
ghost use Rattle.merge_sets.specs.Judgement.{Lawful};
ghost use Rattle.merge_set_table.specs.Known.{known_rank};
ghost use Rattle.merge_set_table.specs.Table.{Falling, numbered};
ghost use Rattle.merge_set_table.specs.Sizes.{table_size};
ghost use Rattle.merge_graph.specs.Sizes.{graph_size};
ghost use Rattle.merge_graph.specs.Definitions.{AreLast, last_place};
ghost use Rattle.merge_graph.specs.Building.{rank_in, AreKnown, AreStretches, stretch_of, Built};
ghost use Rattle.merge_graph.specs.TableGraph.{IsGraphOfTable};
ghost use Rattle.merge_graph.specs.Judging.{judgement_of};
ghost use Rattle.merge_graph.specs.DocumentGraph.{IsGraphOf};
ghost use Rattle.merge_graph.specs.Assembly.{AreRanked, AreInPlaces, joined_order, AreFree, KnowsAll, AddsMissing};
ghost use Rattle.merge_graph.specs.Assembly.{AddsOthers, IsComplete};

use crate::building::{Building, add_definition, add_fragment, no_building};
use crate::definitions::last_places;
use crate::judge::FieldJudge;
use crate::table_graph::graph_of_table;
use fragment_graph::cycles::DocumentCycles;
use language::error::OutOfMemory;
use language::scalar::ScalarValue;
use language::tree::Document;
use merge_set_table::known::KnownFragments;
use merge_sets::graph::Graph;
use schema::model::SchemaTypeOf;
use std::alloc::{AllocError, Global};

// The place that is kept at a number.
fn place_at(places: &[Option<usize>], number: usize) -> Option<usize>
    ensures { result ≡ option_and_then (λ o. o) (slice_get places.now number) }
{
    match places.get(number) {
        Some(place) => *place,
        None => None,
    }
}

// The fragments that have sets: so many, in the order in which the search for cycles finished them.
fn known_fragments<'n, 'a>(cycles: &'n DocumentCycles<'a>, count: usize) -> KnownFragments<'n, 'a>
    ensures { AreKnown (rank_in cycles.now) count (known_rank result) }
{
    KnownFragments {
        numbers: &cycles.graph.numbers,
        ranks: cycles.outcome.ranks.as_slice(),
        count,
    }
}

// Adds the set of the fragment that the search for cycles finished next, by its last definition.
fn add_next<'a, S, C>(
    alloc: Global,
    schema: &'a SchemaTypeOf<S, C>,
    document: Document<'a, S>,
    cycles: &DocumentCycles<'a>,
    last: &[Option<usize>],
    node: usize,
    building: &mut Building<'a, S, C>,
) -> Result<(), OutOfMemory>
    requires ranked { AreRanked document.now cycles.now }
    requires last { AreLast document.now (last_place cycles.now.graph.numbers last.now) }
    requires next { slice_get cycles.now.outcome.order.items (length building.old.fragments.items) ≡ Some node }
    requires free { AreFree document.now (rank_in cycles.now) building.old }
    requires built { Built schema.now document.now (rank_in cycles.now) building.old }
    ensures free { OnOk result (AreFree document.now (rank_in cycles.now) building.new) }
    ensures built { OnOk result (Built schema.now document.now (rank_in cycles.now) building.new) }
    ensures longer { OnOk result (length building.new.fragments.items ≡ length building.old.fragments.items + 1) }
{
    let known = known_fragments(cycles, building.fragments.len());
    match place_at(last, node) {
        Some(place) => add_fragment(alloc, schema, &known, &document[place], place, building),
        None => unreachable!(),
    }
}

// Adds the sets of all fragments, each behind those that it spreads.
fn add_fragments<'a, S, C>(
    alloc: Global,
    schema: &'a SchemaTypeOf<S, C>,
    document: Document<'a, S>,
    cycles: &DocumentCycles<'a>,
    last: &[Option<usize>],
    building: &mut Building<'a, S, C>,
) -> Result<(), OutOfMemory>
    requires ranked { AreRanked document.now cycles.now }
    requires last { AreLast document.now (last_place cycles.now.graph.numbers last.now) }
    requires none { building.old.fragments.items ≡ [] }
    requires free { AreFree document.now (rank_in cycles.now) building.old }
    requires built { Built schema.now document.now (rank_in cycles.now) building.old }
    ensures built { OnOk result (Built schema.now document.now (rank_in cycles.now) building.new) }
    ensures all { OnOk result (KnowsAll (rank_in cycles.now) building.new.fragments.items) }
{
    for node in cycles.outcome.order.as_slice() {
        add_next(alloc, schema, document, cycles, last, *node, building)?;
    }
    Ok(())
}

// Adds the set of the definition at a place, unless it is there.
fn add_missing<'a, S, C>(
    alloc: Global,
    schema: &'a SchemaTypeOf<S, C>,
    document: Document<'a, S>,
    cycles: &DocumentCycles<'a>,
    place: usize,
    building: &mut Building<'a, S, C>,
) -> Result<(), OutOfMemory>
    requires inside { place < length document.now }
    requires sized { length building.old.stretches.items ≡ length document.now }
    ensures sized { OnOk result (length building.new.stretches.items ≡ length document.now) }
    ensures adds { OnOk result (KnowsAll (rank_in cycles.now) building.old.fragments.items
        → Built schema.now document.now (rank_in cycles.now) building.old
        → AddsMissing schema.now document.now (rank_in cycles.now) place building.old building.new) }
{
    if building.stretches[place].is_none() {
        let known = known_fragments(cycles, building.fragments.len());
        add_definition(alloc, schema, &known, &document[place], place, building)?;
    }
    Ok(())
}

// Adds the sets of all definitions that aren't there.
fn add_others<'a, S, C>(
    alloc: Global,
    schema: &'a SchemaTypeOf<S, C>,
    document: Document<'a, S>,
    cycles: &DocumentCycles<'a>,
    building: &mut Building<'a, S, C>,
) -> Result<(), OutOfMemory>
    requires { length building.old.stretches.items ≡ length document.now }
    ensures { OnOk result (KnowsAll (rank_in cycles.now) building.old.fragments.items
        → Built schema.now document.now (rank_in cycles.now) building.old
        → AddsOthers schema.now document.now (rank_in cycles.now) (length document.now) building.old building.new) }
{
    for place in 0..document.len() {
        add_missing(alloc, schema, document, cycles, place, building)?;
    }
    Ok(())
}

// The sets of a document.
fn build<'a, S, C>(
    alloc: Global,
    schema: &'a SchemaTypeOf<S, C>,
    document: Document<'a, S>,
    cycles: &DocumentCycles<'a>,
) -> Result<Building<'a, S, C>, OutOfMemory>
    requires { AreRanked document.now cycles.now }
    ensures { IfOk result (IsComplete schema.now document.now (rank_in cycles.now)) }
{
    let last = last_places(alloc, document, &cycles.graph)?;
    let mut building = no_building(alloc, document.len(), cycles.outcome.order.len())?;
    add_fragments(
        alloc,
        schema,
        document,
        cycles,
        last.as_slice(),
        &mut building,
    )?;
    add_others(alloc, schema, document, cycles, &mut building)?;
    Ok(building)
}

// All sets in the order of a walk: the stretches by their places.
fn joined_orders(
    alloc: Global,
    order: &[usize],
    stretches: &[Option<(usize, usize)>],
) -> Result<Vec<usize>, AllocError>
    requires { AreStretches order.now stretches.now }
    ensures { IfOk result (λ v. v.items ≡ flat_map (stretch_of order.now) stretches.now) }
{
    let mut joined = Vec::with_capacity(alloc, order.len())?;
    for stretch in stretches {
        if let Some((start, end)) = stretch {
            joined.extend_from_slice(&order[*start..*end])?;
        }
    }
    Ok(joined)
}

// The graph of the sets.
fn graph_of_building<'a, S: ScalarValue, C>(
    alloc: Global,
    schema: &'a SchemaTypeOf<S, C>,
    building: Building<'a, S, C>,
) -> Result<Graph<FieldJudge<'a, S, C>>, AllocError>
    requires falling { Falling building.table.sets.items building.fragments.items }
    requires within { AreStretches building.order.items building.stretches.items }
    requires listed { AreInPlaces building }
    ensures is { IfOk result (IsGraphOfTable schema.now (numbered building.entry.table) building.entry.fragments.items
        (joined_order building.entry)) }
    ensures size { IfOk result (λ g. graph_size g + length building.entry.table.order.items
        ≡ table_size building.entry.table + length (joined_order building.entry)) }
    ensures inner { IfOk result (λ g. g.inner.items ≡ building.entry.table.inner.items) }
{
    let order = joined_orders(
        alloc,
        building.order.as_slice(),
        building.stretches.as_slice(),
    )?;
    graph_of_table(alloc, schema, building.table, building.fragments, order)
}

// The graph of a document whose fragments were searched.
fn graph_of_searched<'a, S: ScalarValue, C>(
    alloc: Global,
    schema: &'a SchemaTypeOf<S, C>,
    document: Document<'a, S>,
    cycles: &DocumentCycles<'a>,
) -> Result<Graph<FieldJudge<'a, S, C>>, OutOfMemory>
    requires { AreRanked document.now cycles.now }
    ensures { IfOk result (IsGraphOf schema.now document.now) }
{
    let building = build(alloc, schema, document, cycles)?;
    let graph = graph_of_building(alloc, schema, building)?;
    Ok(graph)
}

/// The graph of a document whose fragments were searched for cycles; `None` if and only if some fragment leads back
/// to itself.
///
/// Each definition's set is in the graph. The set of a fragment is that of its last definition. Where no field
/// repeats an argument, nor a key in one, the judgement of the fields is lawful.
///
/// # Errors
///
/// Out of memory.
pub fn graph_of_document<'a, S: ScalarValue, C>(
    alloc: Global,
    schema: &'a SchemaTypeOf<S, C>,
    document: Document<'a, S>,
    cycles: DocumentCycles<'a>,
) -> Result<Option<Graph<FieldJudge<'a, S, C>>>, OutOfMemory>
    requires { SearchedDocument document.now cycles }
    ensures none { IfOk result (λ g. IsSome g ↔ HasNoCycle document.now) }
    ensures graph { IfOk result (λ g. IfSome g (IsGraphOf schema.now document.now)) }
    ensures lawful { IfOk result (λ g. IfSome g (λ x. AreTidy (map plain x.judge.fields.items)
        → Lawful (judgement_of S.eq x.judge))) }
{
    if !cycles.outcome.reports.is_empty() {
        return Ok(None);
    }
    let graph = graph_of_searched(alloc, schema, document, &cycles)?;
    Ok(Some(graph))
}
