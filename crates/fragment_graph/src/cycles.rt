//! The cycles of the fragments of a document (section 5.5.2.2).
ghost use Rattle.std.specs.Prelude.{◌≡◌, IfOk, map};
ghost use Rattle.fragment_graph.specs.DocumentCycles.{SearchedDocument, name_and_place, told};
ghost use Rattle.fragment_graph.specs.Numbers.{NumberedDefinitions};
ghost use Rattle.fragment_graph.specs.Searched.{Searched};

use crate::document_graph::{DocumentGraph, graph_of};
use crate::numbers::{NumberedNames, Numbers, name};
use crate::search::{Outcome, Report, search_graph};
use language::position::SourcePosition;
use language::tree::Document;
use std::alloc::{AllocError, Global};

/// A fragment on a cycle, and the start of the spread inside it that continues the cycle.
#[derive(Clone, Copy, Debug)]
pub struct CycleReport<'a> {
    pub fragment: &'a str,
    pub place: SourcePosition,
}

/// The graph of a document, the result of the search in it, and the reports by name.
#[derive(Drop)]
pub struct DocumentCycles<'a> {
    pub graph: DocumentGraph<'a>,
    pub outcome: Outcome,
    pub reports: Vec<CycleReport<'a>>,
}

// A report by the name of its fragment.
fn tell<'a>(numbers: &Numbers<'a>, report: &Report) -> CycleReport<'a>
    ensures { name_and_place result ≡ told numbers.now report.now }
{
    CycleReport {
        fragment: name(numbers, report.node),
        place: report.spread.place,
    }
}

// The reports by name.
fn tell_all<'a>(
    alloc: Global,
    numbers: &Numbers<'a>,
    reports: &[Report],
) -> Result<Vec<CycleReport<'a>>, AllocError>
    ensures { IfOk result (λ v. map name_and_place v.items ≡ map (told numbers.now) reports.now) }
{
    let mut all = Vec::new(alloc);
    for report in reports {
        all.push(tell(numbers, report))?;
    }
    Ok(all)
}

/// The result of the search in a graph, and the reports by name.
#[derive(Drop)]
pub struct GraphCycles<'a> {
    pub outcome: Outcome,
    pub reports: Vec<CycleReport<'a>>,
}

/// Searches the graph of a document for cycles. Looks at each spread once.
///
/// # Errors
///
/// Out of memory.
pub fn search_named<'a>(
    alloc: Global,
    graph: &DocumentGraph<'a>,
) -> Result<GraphCycles<'a>, AllocError>
    ensures outcome { IfOk result (λ c. Searched graph.now.nodes.items c.outcome) }
    ensures reports { IfOk result (λ c. map name_and_place c.reports.items
        ≡ map (told graph.now.numbers) c.outcome.reports.items) }
{
    let outcome = search_graph(alloc, graph.nodes.as_slice())?;
    let reports = tell_all(alloc, &graph.numbers, outcome.reports.as_slice())?;
    Ok(GraphCycles { outcome, reports })
}

/// Searches the fragments of a document for cycles (section 5.5.2.2), by the numbers of their names.
/// Looks at each spread once.
///
/// # Errors
///
/// Out of memory.
pub fn search_document<'a, S>(
    alloc: Global,
    document: Document<'a, S>,
    names: NumberedNames<'a>,
) -> Result<DocumentCycles<'a>, AllocError>
    requires { NumberedDefinitions document.now names.numbers names.defined.items }
    ensures { IfOk result (SearchedDocument document.now) }
{
    let graph = graph_of(alloc, document, names)?;
    let GraphCycles { outcome, reports } = search_named(alloc, &graph)?;
    Ok(DocumentCycles {
        graph,
        outcome,
        reports,
    })
}
