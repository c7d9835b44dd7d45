//! The definitions of a document.
ghost use Rattle.std.specs.Prelude.{◌≡◌, None, IfOk, option_copied, length};
ghost use Rattle.std.specs.List.{All};
ghost use Rattle.fragment_graph.specs.DocumentGraph.{IsGraphOf};
ghost use Rattle.schema.specs.Catalog.{root_type};
ghost use Rattle.merge_graph.specs.Definitions.{type_round, selections_of, AreLast, last_place, noted};

use fragment_graph::document_graph::DocumentGraph;
use fragment_graph::numbers::name_count;
use language::tree::{Definition, Document, OperationType, Selection};
use meta::kinds::MetaTypeOf;
use schema::model::SchemaTypeOf;
use std::alloc::{AllocError, Global};

// The root of the operations of a kind.
fn root_of_kind<S, C>(schema: &SchemaTypeOf<S, C>, kind: OperationType) -> Option<&MetaTypeOf<S, C>>
    ensures { option_copied result ≡ root_type schema.now kind }
{
    match kind {
        OperationType::Query => Some(schema.concrete_query_type()),
        OperationType::Mutation => schema.concrete_mutation_type(),
        OperationType::Subscription => schema.concrete_subscription_type(),
    }
}

/// The type around a definition's set.
pub fn type_of_definition<'a, S, C>(
    schema: &'a SchemaTypeOf<S, C>,
    definition: &Definition<'_, S>,
) -> Option<&'a MetaTypeOf<S, C>>
    ensures { option_copied result ≡ type_round schema.now definition.now }
{
    match definition {
        Definition::Operation(operation) => root_of_kind(schema, operation.item.operation_type),
        Definition::Fragment(fragment) => {
            schema.concrete_type_by_name(fragment.item.type_condition.item)
        }
    }
}

/// The selections of a definition.
pub fn selections<'d, 't, S>(definition: &'d Definition<'t, S>) -> &'d [Selection<'t, S>]
    ensures { result.now ≡ selections_of definition.now }
{
    match definition {
        Definition::Operation(operation) => operation.item.selection_set.as_slice(),
        Definition::Fragment(fragment) => fragment.item.selection_set.as_slice(),
    }
}

// No place at each of so many numbers.
fn no_places(alloc: Global, count: usize) -> Result<Vec<Option<usize>>, AllocError>
    ensures len { IfOk result (λ v. length v.items ≡ count) }
    ensures none { IfOk result (λ v. All (λ o. o ≡ None) v.items) }
{
    vec![in alloc; None; count]
}

// Notes the place of a definition at the number of its name, if it has one.
fn note_place(number: Option<usize>, place: usize, places: &mut Vec<Option<usize>>)
    ensures { places.new.items ≡ noted number place places.old.items }
{
    if let Some(number) = number {
        if number < places.len() {
            places[number] = Some(place);
        }
    }
}

/// The index of the last definition of each fragment, by the number of its name.
///
/// # Errors
///
/// Out of memory.
pub fn last_places<S>(
    alloc: Global,
    document: Document<'_, S>,
    graph: &DocumentGraph<'_>,
) -> Result<Vec<Option<usize>>, AllocError>
    requires { IsGraphOf document.now graph.now }
    ensures { IfOk result (λ v. AreLast document.now (last_place graph.now.numbers v.items)) }
{
    let mut places = no_places(alloc, name_count(&graph.numbers))?;
    for place in 0..graph.defined.len() {
        note_place(graph.defined[place], place, &mut places);
    }
    Ok(places)
}
