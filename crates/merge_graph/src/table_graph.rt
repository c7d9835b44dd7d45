//! The graph of a table of sets.
ghost use Rattle.std.specs.Prelude.{◌≡◌, ◌+◌, IfOk, length, map};
ghost use Rattle.merge_set_table.specs.Table.{Falling, numbered};
ghost use Rattle.merge_set_table.specs.Sizes.{table_size};
ghost use Rattle.merge_graph.specs.Sizes.{graph_size};
ghost use Rattle.merge_graph.specs.Sets.{plain_row, plain_node};
ghost use Rattle.merge_graph.specs.TableGraph.{AreListed, IsGraphOfTable};

use crate::judge::{FieldJudge, judge_fields};
use language::scalar::ScalarValue;
use merge_set_table::table::{NumberedSet, Table};
use merge_sets::graph::Graph;
use merge_sets::groups::make_set;
use merge_sets::node::SetNode;
use schema::model::SchemaTypeOf;
use std::alloc::{AllocError, Global};

// The set for the search, in place of the table's.
fn searched_set(alloc: Global, set: NumberedSet) -> Result<SetNode, AllocError>
    ensures { IfOk result (λ node. plain_node node ≡ plain_row set) }
{
    let NumberedSet { own, spreads, .. } = set;
    make_set(alloc, own, spreads)
}

// The sets for the search. Each of the table's is let go as soon as it isn't needed, so that few stand there twice.
fn searched_sets(alloc: Global, sets: Vec<NumberedSet>) -> Result<Vec<SetNode>, AllocError>
    ensures { IfOk result (λ v. map plain_node v.items ≡ map plain_row sets.items) }
{
    let mut nodes = Vec::with_capacity(alloc, sets.len())?;
    for set in sets {
        nodes.push(searched_set(alloc, set)?)?;
    }
    Ok(nodes)
}

/// The graph of a table, with the sets of its fragments and an order of those that are searched. All findings are asked
/// for.
///
/// # Errors
///
/// Out of memory.
pub fn graph_of_table<'a, S: ScalarValue, C>(
    alloc: Global,
    schema: &'a SchemaTypeOf<S, C>,
    table: Table<'a, S, C>,
    fragments: Vec<usize>,
    order: Vec<usize>,
) -> Result<Graph<FieldJudge<'a, S, C>>, AllocError>
    requires falling { Falling table.sets.items fragments.items }
    requires listed { AreListed fragments.items order.items }
    ensures is { IfOk result (IsGraphOfTable schema.now (numbered table.entry) fragments.items order.items) }
    ensures size { IfOk result (λ g. graph_size g + length table.entry.order.items ≡ table_size table.entry
        + length order.items) }
    ensures inner { IfOk result (λ g. g.inner.items ≡ table.entry.inner.items) }
{
    let sets = searched_sets(alloc, table.sets)?;
    Ok(Graph {
        judge: judge_fields(schema, table.fields),
        sets,
        fragments,
        order,
        inner: table.inner,
        written: table.written,
        limit: 0,
    })
}
