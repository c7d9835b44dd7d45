//! What a search finds in the graph of a document, in words.

use fragment_graph::cycles::search_document;
use fragment_graph::numbers::number_names;
use language::error::OutOfMemory;
use language::scalar::ScalarValue;
use language::tree::Document;
use merge_graph::document::graph_of_document;
use merge_graph::judge::FieldJudge;
use merge_search::state::Search;
use merge_sets::finding::Finding;
use merge_sets::graph::Graph;
use merge_sets::node::Entry;
use merge_tops::top::search_all;
use schema::model::SchemaTypeOf;
use std::alloc::{AllocError, Global};
use std::fmt::Write;

// Where a field starts in its line.
fn column<S, C>(judge: &FieldJudge<'_, S, C>, entry: Entry) -> usize {
    match judge.fields.as_slice().get(entry.field) {
        Some(field) => field.field.span.start.column(),
        None => 0,
    }
}

// A line for a finding.
fn write_finding<S, C>(
    out: &mut String,
    judge: &FieldJudge<'_, S, C>,
    finding: &Finding,
) -> Result<(), AllocError> {
    match *finding {
        Finding::Direct(a, b, _) => writeln!(out, "{} and {}", column(judge, a), column(judge, b)),
        Finding::Nested(a, b, size) => writeln!(
            out,
            "{} and {} for {size}",
            column(judge, a),
            column(judge, b)
        ),
    }
}

// A line for each finding, after a line with the count.
fn lines<S, C>(
    alloc: Global,
    judge: &FieldJudge<'_, S, C>,
    search: &Search,
) -> Result<String, OutOfMemory> {
    let mut told = String::new(alloc);
    writeln!(told, "compared {}", search.compared)?;
    for finding in search.found.as_slice() {
        write_finding(&mut told, judge, finding)?;
    }
    Ok(told)
}

fn lines_of_graph<'a, S: ScalarValue, C>(
    alloc: Global,
    graph: &Graph<FieldJudge<'a, S, C>>,
) -> Result<String, OutOfMemory> {
    let search = search_all(alloc, graph)?;
    lines(alloc, &graph.judge, &search)
}

/// What is found in a document's graph, in lines: `cycle` where the document has a cycle.
///
/// # Errors
///
/// Out of memory.
pub fn found<'a, S: ScalarValue, C>(
    alloc: Global,
    schema: &'a SchemaTypeOf<S, C>,
    document: Document<'a, S>,
) -> Result<String, OutOfMemory> {
    let names = number_names(alloc, document)?;
    let cycles = search_document(alloc, document, names)?;
    match graph_of_document(alloc, schema, document, cycles)? {
        Some(graph) => lines_of_graph(alloc, &graph),
        None => Ok(String::from_str(alloc, "cycle\n")?),
    }
}
