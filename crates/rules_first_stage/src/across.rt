//! The rules that look across the document, with one index for all of them.

ghost use Rattle.std.specs.Prelude.{◌≡◌, IfOk, OnErr};
ghost use Rattle.walk.specs.ContextState.{typing};
ghost use Rattle.walk.specs.Step.{KeepsPlace, Stepped};
ghost use Rattle.rules_first_stage.specs.Across.{across_allows, across_fresh, across_step, leaving_document};
ghost use Rattle.rules_first_stage.specs.AcrossLaws.{across_keeps, across_silent};

use fragment_graph::cycles::DocumentCycles;
use language::error::OutOfMemory;
use language::tree::Definition;
use meta::check::CheckedScalar;
use rules_document::no_fragment_cycles::NoFragmentCycles;
use rules_document::no_undefined_variables::{NoUndefinedVariables, report_undefined};
use rules_document::no_unused_fragments::NoUnusedFragments;
use rules_document::no_unused_variables::NoUnusedVariables;
use rules_document::{
    no_fragment_cycles, no_undefined_variables, no_unused_fragments, no_unused_variables,
};
use rules_positions::variables_in_allowed_position;
use rules_positions::variables_in_allowed_position::VariableInAllowedPosition;
use std::alloc::Global;
use variable_usages::document_index::index_document;
use walk::{
    Criterion, Event, Fresh, Machine, MultiVisitorCons, MultiVisitorNil, Rule, SettledRule,
    ValidatorContext, Visitor,
};

/// The five rules that look at the whole document where it is left. Of the events before, only the rule on positions
/// asks.
#[derive(Drop)]
pub struct AcrossDocument<'a> {
    alloc: Global,
    positions: VariableInAllowedPosition<'a>,
    unused_variables: NoUnusedVariables<'a>,
    unused_fragments: NoUnusedFragments,
    undefined_variables: NoUndefinedVariables<'a>,
    cycles: NoFragmentCycles<'a>,
}

/// The rules, made ready for one document.
pub fn factory<'a>(alloc: Global) -> AcrossDocument<'a>
    ensures { ⟦<AcrossDocument<'a> as Fresh>⟧.fresh result }
{
    AcrossDocument {
        alloc,
        positions: variables_in_allowed_position::factory(alloc),
        unused_variables: no_unused_variables::factory(alloc),
        unused_fragments: no_unused_fragments::factory(alloc),
        undefined_variables: no_undefined_variables::factory(alloc),
        cycles: no_fragment_cycles::factory(alloc),
    }
}

impl<'a> AcrossDocument<'a> {
    // Makes the index of a document, and lets each rule report by it, the newest first.
    fn leave<S: CheckedScalar>(
        &mut self,
        ctx: &mut ValidatorContext<'a, S>,
        document: &'a [Definition<'a, S>],
    ) -> Result<(), OutOfMemory>
        ensures stepped { IfOk result (λ _. Stepped across_step (leaving_document document.now (typing ctx.old))
            self.old self.new ctx.old ctx.new) }
        ensures err { OnErr result (KeepsPlace ctx.old ctx.new) }
    {
        let names = ctx.numbered_names(document)?;
        let index = index_document(self.alloc, document, names)?;
        self.positions.leave(ctx, document, &index.scopes)?;
        no_unused_variables::report_unused(self.alloc, ctx, document, &index)?;
        no_unused_fragments::report_unused(self.alloc, ctx, document, &index.scopes)?;
        report_undefined(self.alloc, ctx, document, &index)?;
        self.cycles.leave(ctx, index.scopes.graph)
    }

    /// What the search for cycles of fragments found, in the document that was left last.
    pub fn into_found(self) -> Option<DocumentCycles<'a>>
        ensures { result ≡ self.entry.cycles.found }
    {
        self.cycles.into_found()
    }
}

impl<'a> Fresh for AcrossDocument<'a> {
    ghost fresh = { across_fresh };
}

impl<'a, S, C> Machine<S, C> for AcrossDocument<'a> {
    ghost step = { across_step };
}

impl<'a, S, C> Rule<S, C> for AcrossDocument<'a> {
    ghost allows = { across_allows };

    ghost keeps = { across_keeps };
}

// The list that the rules stand for, the newest first.
type RuleList<'a> = MultiVisitorCons<
    VariableInAllowedPosition<'a>,
    MultiVisitorCons<
        NoUnusedVariables<'a>,
        MultiVisitorCons<
            NoUnusedFragments,
            MultiVisitorCons<
                NoUndefinedVariables<'a>,
                MultiVisitorCons<NoFragmentCycles<'a>, MultiVisitorNil>,
            >,
        >,
    >,
>;

impl<'a, S, C> Criterion<S, C> for AcrossDocument<'a> {
    ghost finds_nothing = { ⟦<RuleList<'a> as Criterion<S, C>>⟧.finds_nothing };
}

impl<'a, S, C> SettledRule<S, C> for AcrossDocument<'a> {
    ghost silent = { across_silent };
}

impl<'a, S: CheckedScalar> Visitor<'a, S> for AcrossDocument<'a> {
    fn on(
        &mut self,
        ctx: &mut ValidatorContext<'a, S>,
        event: &Event<'a, S>,
    ) -> Result<(), OutOfMemory> {
        match *event {
            Event::ExitDocument(document) => self.leave(ctx, document),
            _ => self.positions.on(ctx, event),
        }
    }
}
