//! Each fragment is reached from some operation (GraphQL, October 2021, section 5.5.1.4).

ghost use Rattle.std.specs.Prelude.{◌≡◌, ◌∷◌, [], List, Some, IfOk, OnOk, OnErr, map, string_bytes};
ghost use Rattle.walk.specs.ContextState.{with_errors};
ghost use Rattle.walk.specs.Rule.{any_value};
ghost use Rattle.walk.specs.Step.{KeepsPlace};
ghost use Rattle.fragment_graph.specs.DocumentGraph.{IsNumbered};
ghost use Rattle.fragment_graph.specs.Numbers.{defined_number, number_of, WellNumbered};
ghost use Rattle.operation_scopes.specs.Index.{IsIndexOf};
ghost use Rattle.rules_document.specs.AtDocument.{document_step, given_at_end};
ghost use Rattle.rules_document.specs.AtDocumentLaws.{document_keeps};
ghost use Rattle.rules_document.specs.NoUnusedFragmentsLaws.{unused_silent};
ghost use Rattle.rules_document.specs.MetFragments.{name_and_span, IsKeptFor, NameAndSpan};
ghost use Rattle.rules_document.specs.NoUnusedFragments.{unused_error, unused_errors, NoneUnused, unused_message};
ghost use Rattle.rules_document.specs.NoUnusedFragments.{AddsFragment, AddsUnused, UnusedAmong};

use crate::met_fragments::{MetFragments, meet, none_met};
use fragment_reach::reached::{ReachedFragments, is_reached, reached_fragments};
use language::error::OutOfMemory;
use language::position::Spanning;
use language::tree::{Definition, Document, Fragment};
use meta::check::CheckedScalar;
use operation_scopes::index::{ScopeIndex, index_scopes};
use std::alloc::{AllocError, Global};
use walk::{Criterion, Event, Fresh, Machine, Rule, SettledRule, ValidatorContext, Visitor};

/// Reports, where the document ends, each definition of a fragment that no operation reaches, at the definition's
/// start.
#[derive(Drop)]
pub struct NoUnusedFragments {
    alloc: Global,
}

/// Makes the rule, for one document.
pub fn factory(alloc: Global) -> NoUnusedFragments
    ensures { ⟦<NoUnusedFragments as Fresh>⟧.fresh result }
{
    NoUnusedFragments { alloc }
}

impl Fresh for NoUnusedFragments {
    ghost fresh = { any_value };
}

impl<S, C> Machine<S, C> for NoUnusedFragments {
    ghost step = { document_step unused_errors };
}

impl<S, C> Rule<S, C> for NoUnusedFragments {
    ghost allows = { given_at_end unused_errors };

    ghost keeps = { document_keeps unused_errors };
}

impl<S, C> Criterion<S, C> for NoUnusedFragments {
    ghost finds_nothing = { λ scope t doc. NoneUnused doc };
}

impl<S, C> SettledRule<S, C> for NoUnusedFragments {
    ghost silent = { unused_silent };
}

impl<'a, S: CheckedScalar> Visitor<'a, S> for NoUnusedFragments {
    fn on(
        &mut self,
        ctx: &mut ValidatorContext<'a, S>,
        event: &Event<'a, S>,
    ) -> Result<(), OutOfMemory> {
        match *event {
            Event::ExitDocument(document) => {
                let names = ctx.numbered_names(document)?;
                let index = index_scopes(self.alloc, document, names)?;
                report_unused(self.alloc, ctx, document, &index)
            }
            _ => Ok(()),
        }
    }
}

// Reports a fragment.
fn report_fragment<'a, S: CheckedScalar>(
    alloc: Global,
    ctx: &mut ValidatorContext<'a, S>,
    fragment: &Spanning<Fragment<'_, S>>,
) -> Result<(), OutOfMemory>
    ensures ok { OnOk result (ctx.new ≡ with_errors ctx.old (unused_error (name_and_span fragment.now) ∷ [])) }
    ensures err { OnErr result (KeepsPlace ctx.old ctx.new) }
{
    let message = error_message(alloc, fragment.item.name.item)?;
    ctx.report_error(message.as_str(), &[fragment.span.start])
}

// Reports a fragment that no operation reaches, by the number of its name, the first time that its name and span are
// met.
fn report_once<'a, 'd, S: CheckedScalar>(
    alloc: Global,
    ctx: &mut ValidatorContext<'a, S>,
    reached: &ReachedFragments<'_, '_>,
    met: &mut MetFragments<'d>,
    fragment: &Spanning<Fragment<'d, S>>,
    number: usize,
) -> Result<(), OutOfMemory>
    requires numbered { WellNumbered reached.now.graph.now.numbers }
    requires number { number_of reached.now.graph.now.numbers fragment.now.item.name.item.now ≡ Some number }
    requires kept { IsKeptFor reached.now.graph.now.numbers met.old }
    ensures kept { OnOk result (IsKeptFor reached.now.graph.now.numbers met.new) }
    ensures ok { OnOk result ((fs : List NameAndSpan)
        × AddsFragment reached.now met.old met.new (name_and_span fragment.now) fs
        × (ctx.new ≡ with_errors ctx.old (map unused_error fs))) }
    ensures err { OnErr result (KeepsPlace ctx.old ctx.new) }
{
    if is_reached(reached, Some(number)) {
        return Ok(());
    }
    if meet(met, &reached.graph.numbers, fragment, number)? {
        return report_fragment(alloc, ctx, fragment);
    }
    Ok(())
}

// Reports a definition, if it is an unused fragment's, the first time that its name and span are met.
fn report_if_unused<'a, 'd, S: CheckedScalar>(
    alloc: Global,
    ctx: &mut ValidatorContext<'a, S>,
    reached: &ReachedFragments<'_, '_>,
    met: &mut MetFragments<'d>,
    definition: &Definition<'d, S>,
    number: Option<usize>,
) -> Result<(), OutOfMemory>
    requires numbered { WellNumbered reached.now.graph.now.numbers }
    requires number { number ≡ defined_number reached.now.graph.now.numbers definition.now }
    requires has { IsNumbered reached.now.graph.now.numbers definition.now }
    requires kept { IsKeptFor reached.now.graph.now.numbers met.old }
    ensures kept { OnOk result (IsKeptFor reached.now.graph.now.numbers met.new) }
    ensures ok { OnOk result ((fs : List NameAndSpan) × AddsUnused reached.now met.old met.new definition.now fs
        × (ctx.new ≡ with_errors ctx.old (map unused_error fs))) }
    ensures err { OnErr result (KeepsPlace ctx.old ctx.new) }
{
    match definition {
        Definition::Fragment(fragment) => match number {
            Some(number) => report_once(alloc, ctx, reached, met, fragment, number),
            None => Ok(()),
        },
        Definition::Operation(_) => Ok(()),
    }
}

/// Reports, once, each name and span of a fragment that no operation reaches, by the document's index.
///
/// # Errors
///
/// Out of memory. The types at hand stay; some of the errors may be reported then.
pub fn report_unused<'a, 'd, S: CheckedScalar>(
    alloc: Global,
    ctx: &mut ValidatorContext<'a, S>,
    document: Document<'d, S>,
    index: &ScopeIndex<'_>,
) -> Result<(), OutOfMemory>
    requires { IsIndexOf document.now index.now }
    ensures ok { OnOk result ((fs : List NameAndSpan) × UnusedAmong document.now document.now fs
        × (ctx.new ≡ with_errors ctx.old (map unused_error fs))) }
    ensures err { OnErr result (KeepsPlace ctx.old ctx.new) }
{
    let starts = index.spreads.items.as_slice();
    let reached = reached_fragments(alloc, document, &index.graph, starts)?;
    let mut met = none_met(alloc, &reached.graph.numbers)?;
    for place in 0..document.len() {
        let number = index.graph.defined[place];
        report_if_unused(alloc, ctx, &reached, &mut met, &document[place], number)?;
    }
    Ok(())
}

fn error_message(alloc: Global, name: &str) -> Result<String, AllocError>
    ensures { IfOk result (λ message. string_bytes message ≡ unused_message name.now) }
{
    format!(in alloc; "Fragment \"{name}\" is never used")
}
