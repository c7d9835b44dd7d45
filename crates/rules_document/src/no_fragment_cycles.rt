//! No fragment spreads itself, directly or through other fragments (GraphQL, October 2021, section 5.5.2.2).

ghost use Rattle.std.specs.Prelude.{◌≡◌, ◌∷◌, [], List, None, IfOk, OnOk, OnErr, map, string_bytes};
ghost use Rattle.language.specs.declared.tree.Definition.{Definition};
ghost use Rattle.walk.specs.ContextState.{with_errors};
ghost use Rattle.walk.specs.Rule.{any_value, Appended};
ghost use Rattle.walk.specs.Step.{KeepsPlace};
ghost use Rattle.fragment_graph.specs.DocumentCycles.{name_and_place, HasNoCycle};
ghost use Rattle.fragment_graph.specs.DocumentGraph.{IsGraphOf};
ghost use Rattle.rules_document.specs.AtDocument.{document_step, given_at_end};
ghost use Rattle.rules_document.specs.NoFragmentCycles.{cycle_error, cycle_errors, cycle_message, CycleErrors};
ghost use Rattle.rules_document.specs.AtDocumentLaws.{document_keeps};
ghost use Rattle.rules_document.specs.NoFragmentCyclesLaws.{cycles_silent};

use fragment_graph::cycles::{CycleReport, DocumentCycles, GraphCycles, search_named};
use fragment_graph::document_graph::{DocumentGraph, graph_of};
use language::error::OutOfMemory;
use meta::check::CheckedScalar;
use std::alloc::{AllocError, Global};
use walk::{Criterion, Event, Fresh, Machine, Rule, SettledRule, ValidatorContext, Visitor};

/// Reports, where the document ends, at least one fragment of each cycle of spreads, at a spread inside it on the way
/// back to it.
///
/// It keeps what its search found, for what looks at the fragments after it.
#[derive(Drop)]
pub struct NoFragmentCycles<'a> {
    alloc: Global,
    looked: u128,
    found: Option<DocumentCycles<'a>>,
}

/// Makes the rule, for one document.
pub fn factory<'a>(alloc: Global) -> NoFragmentCycles<'a>
    ensures { ⟦<NoFragmentCycles<'a> as Fresh>⟧.fresh result }
{
    NoFragmentCycles {
        alloc,
        looked: 0,
        found: None,
    }
}

impl<'a> NoFragmentCycles<'a> {
    /// How many spreads inside definitions of fragments the search looked at, in the document that was left last.
    pub fn looked(&self) -> u128
        ensures { result ≡ self.now.looked }
    {
        self.looked
    }

    /// What the search found in the document that was left last.
    pub fn into_found(self) -> Option<DocumentCycles<'a>>
        ensures { result ≡ self.entry.found }
    {
        self.found
    }

    /// Reports the fragments on cycles of a document, by the document's graph, and keeps what the search found.
    ///
    /// # Errors
    ///
    /// Out of memory. The types at hand stay; some of the errors may be reported then.
    pub fn leave<S: CheckedScalar>(
        &mut self,
        ctx: &mut ValidatorContext<'a, S>,
        graph: DocumentGraph<'a>,
    ) -> Result<(), OutOfMemory>
        ensures ok { OnOk result ((document : List (Definition S)) → IsGraphOf document graph.entry
            → Appended (CycleErrors document self.new) ctx.old ctx.new) }
        ensures err { OnErr result (KeepsPlace ctx.old ctx.new) }
    {
        self.looked = 0;
        self.found = None;
        let GraphCycles { outcome, reports } = search_named(self.alloc, &graph)?;
        report_all(self.alloc, ctx, reports.as_slice())?;
        let found = DocumentCycles {
            graph,
            outcome,
            reports,
        };
        self.looked = found.outcome.looked;
        self.found = Some(found);
        Ok(())
    }
}

impl<'a> Fresh for NoFragmentCycles<'a> {
    ghost fresh = { any_value };
}

impl<'a, S, C> Machine<S, C> for NoFragmentCycles<'a> {
    ghost step = { document_step cycle_errors };
}

impl<'a, S, C> Rule<S, C> for NoFragmentCycles<'a> {
    ghost allows = { given_at_end cycle_errors };

    ghost keeps = { document_keeps cycle_errors };
}

impl<'a, S, C> Criterion<S, C> for NoFragmentCycles<'a> {
    ghost finds_nothing = { λ scope t doc. HasNoCycle doc };
}

impl<'a, S, C> SettledRule<S, C> for NoFragmentCycles<'a> {
    ghost silent = { cycles_silent };
}

impl<'a, S: CheckedScalar> Visitor<'a, S> for NoFragmentCycles<'a> {
    fn on(
        &mut self,
        ctx: &mut ValidatorContext<'a, S>,
        event: &Event<'a, S>,
    ) -> Result<(), OutOfMemory> {
        match *event {
            Event::ExitDocument(document) => {
                let names = ctx.numbered_names(document)?;
                let graph = graph_of(self.alloc, document, names)?;
                self.leave(ctx, graph)
            }
            _ => Ok(()),
        }
    }
}

// Reports each of these.
fn report_all<'a, S: CheckedScalar>(
    alloc: Global,
    ctx: &mut ValidatorContext<'a, S>,
    reports: &[CycleReport<'_>],
) -> Result<(), OutOfMemory>
    ensures ok { OnOk result (ctx.new ≡ with_errors ctx.old (map cycle_error (map name_and_place reports.now))) }
    ensures err { OnErr result (KeepsPlace ctx.old ctx.new) }
{
    for cycle in reports {
        report(alloc, ctx, cycle)?;
    }
    Ok(())
}

// Reports a cycle, unless no more errors are kept.
fn report<'a, S: CheckedScalar>(
    alloc: Global,
    ctx: &mut ValidatorContext<'a, S>,
    cycle: &CycleReport<'_>,
) -> Result<(), OutOfMemory>
    ensures ok { OnOk result (ctx.new ≡ with_errors ctx.old (cycle_error (name_and_place cycle.now) ∷ [])) }
    ensures err { OnErr result (KeepsPlace ctx.old ctx.new) }
{
    if ctx.is_full() {
        return Ok(());
    }
    let message = error_message(alloc, cycle.fragment)?;
    ctx.report_error(message.as_str(), &[cycle.place])
}

fn error_message(alloc: Global, name: &str) -> Result<String, AllocError>
    ensures { IfOk result (λ message. string_bytes message ≡ cycle_message name.now) }
{
    format!(in alloc; "Cannot spread fragment \"{name}\"")
}
