//! A fragment stands where an object of its type is possible (GraphQL, October 2021, section 5.5.2.3).

ghost use Rattle.std.specs.Prelude.{◌≡◌, IfOk, OnOk, OnErr, map, option_copied, option_map, string_bytes};
ghost use Rattle.meta.specs.Kinds.{name_of_meta};
ghost use Rattle.schema.specs.Possible.{is_among};
ghost use Rattle.walk.specs.ContextState.{typing, with_errors};
ghost use Rattle.walk.specs.Entering.{everywhere_by, found_by, prepared_step};
ghost use Rattle.walk.specs.Rule.{always, any_value, exactly};
ghost use Rattle.walk.specs.RuleLaws.{everywhere_by_silent};
ghost use Rattle.walk.specs.Step.{KeepsPlace};
ghost use Rattle.walk.proofs.Entering.{prepared_keeps};
ghost use Rattle.rules_fragments.specs.Conditions.{conditions_of};
ghost use Rattle.rules_fragments.specs.PossibleFragmentSpreads.{conditions, impossible_spreads, impossible};
ghost use Rattle.rules_fragments.specs.PossibleFragmentSpreads.{impossible_message, impossible_words, inline_type};
ghost use Rattle.rules_fragments.specs.PossibleFragmentSpreads.{is_interface_below, may_stand, IsPossibleAt};
ghost use Rattle.rules_fragments.specs.PossibleFragmentSpreadsLaws.{none_impossible};

use crate::conditions::Conditions;
use language::error::OutOfMemory;
use language::position::SourcePosition;
use language::tree::InlineFragment;
use meta::MetaTypeOf;
use meta::check::CheckedScalar;
use rules_support::texts::between;
use schema::model::SchemaTypeOf;
use std::alloc::{AllocError, Global};
use walk::{Criterion, Event, Fresh, Machine, Rule, SettledRule, ValidatorContext, Visitor};

/// Reports each spread, and each inline fragment with a condition, at its start, if no object has both the type around
/// it and the fragment's type.
///
/// A fragment on an interface that implements the type around it is not reported. Of several fragments of the same
/// name, the last one whose condition is a type of the schema counts.
#[derive(Drop)]
pub struct PossibleFragmentSpreads<'a, S: CheckedScalar> {
    alloc: Global,
    conditions: Conditions<'a, S, S::Check>,
}

/// Makes the rule, for one document.
pub fn factory<'a, S: CheckedScalar>(alloc: Global) -> PossibleFragmentSpreads<'a, S>
    ensures { ⟦<PossibleFragmentSpreads<'a, S> as Fresh>⟧.fresh result }
{
    PossibleFragmentSpreads {
        alloc,
        conditions: Conditions::new(alloc),
    }
}

impl<'a, S: CheckedScalar> Fresh for PossibleFragmentSpreads<'a, S> {
    ghost fresh = { any_value };
}

impl<'a, S: CheckedScalar> Machine<S, S::Check> for PossibleFragmentSpreads<'a, S> {
    ghost step = { prepared_step (λ a. conditions_of a.conditions) conditions impossible_spreads };
}

impl<'a, S: CheckedScalar> Rule<S, S::Check> for PossibleFragmentSpreads<'a, S> {
    ghost allows = { always (exactly (found_by conditions impossible_spreads)) };

    ghost keeps = { prepared_keeps (λ a. conditions_of a.conditions) conditions impossible_spreads };
}

impl<'a, S: CheckedScalar> Criterion<S, S::Check> for PossibleFragmentSpreads<'a, S> {
    ghost finds_nothing = { everywhere_by conditions
        (λ scope types o. IsPossibleAt scope.schema types o.types.parent o.node) };
}

impl<'a, S: CheckedScalar> SettledRule<S, S::Check> for PossibleFragmentSpreads<'a, S> {
    ghost silent = { everywhere_by_silent conditions impossible_spreads
        (λ scope types o. IsPossibleAt scope.schema types o.types.parent o.node) none_impossible };
}

impl<'a, S: CheckedScalar> Visitor<'a, S> for PossibleFragmentSpreads<'a, S> {
    fn on(
        &mut self,
        ctx: &mut ValidatorContext<'a, S>,
        event: &Event<'a, S>,
    ) -> Result<(), OutOfMemory> {
        match *event {
            Event::EnterDocument(document) => {
                let names = ctx.numbered_names(document)?;
                self.conditions = Conditions::of(self.alloc, ctx.schema, document, names)?;
            }
            Event::EnterFragmentSpread(spread) => {
                let name = spread.item.name.item;
                let condition = self.conditions.get(name);
                report_impossible(self.alloc, ctx, condition, Some(name), spread.span.start)?;
            }
            Event::EnterInlineFragment(fragment) => {
                let condition = type_of_inline(ctx.schema, &fragment.item);
                report_impossible(self.alloc, ctx, condition, None, fragment.span.start)?;
            }
            _ => {}
        }
        Ok(())
    }
}

// The type of an inline fragment's condition, where it is known.
fn type_of_inline<'a, S, C>(
    schema: &'a SchemaTypeOf<S, C>,
    fragment: &InlineFragment<'_, S>,
) -> Option<&'a MetaTypeOf<S, C>>
    ensures { option_copied result ≡ inline_type schema.now fragment.now }
{
    match &fragment.type_condition {
        Some(condition) => schema.concrete_type_by_name(condition.item),
        None => None,
    }
}

// Reports a fragment of a type, where the type around it is known and the fragment may not stand there.
fn report_impossible<'a, S: CheckedScalar>(
    alloc: Global,
    ctx: &mut ValidatorContext<'a, S>,
    condition: Option<&'a MetaTypeOf<S, S::Check>>,
    name: Option<&str>,
    place: SourcePosition,
) -> Result<(), OutOfMemory>
    ensures ok { OnOk result (ctx.new ≡ with_errors ctx.old
        (impossible ctx.old.schema (typing ctx.old).parent (option_copied condition.entry)
        (option_map (λ n. n.now) name.entry) place)) }
    ensures err { OnErr result (KeepsPlace ctx.old ctx.new) }
{
    if let Some(parent) = ctx.parent_type() {
        if let Some(t) = condition {
            if !may_be_spread(ctx.schema, parent, t) {
                let message = error_message(
                    alloc,
                    name,
                    parent.name().unwrap_or(""),
                    t.name().unwrap_or(""),
                )?;
                ctx.report_error(message.as_str(), &[place])?;
            }
        }
    }
    Ok(())
}

// Whether a fragment of a type may stand in a selection set of the type around it.
fn may_be_spread<S, C>(
    schema: &SchemaTypeOf<S, C>,
    parent: &MetaTypeOf<S, C>,
    t: &MetaTypeOf<S, C>,
) -> bool
    ensures { result ≡ may_stand schema.now parent.now t.now }
{
    implements(t, parent) || schema.type_overlap(parent, t)
}

// Whether a type is an interface that lists the other type.
fn implements<S, C>(t: &MetaTypeOf<S, C>, parent: &MetaTypeOf<S, C>) -> bool
    ensures { result ≡ is_interface_below (name_of_meta parent.now) t.now }
{
    match t {
        MetaTypeOf::Interface(interface) => match parent.name() {
            Some(name) => is_text_among(interface.interface_names.as_slice(), name),
            None => false,
        },
        _ => false,
    }
}

fn is_text_among(texts: &[String], name: &str) -> bool
    ensures { result ≡ is_among (map string_bytes texts.now) name.now }
{
    for text in texts {
        if text.as_str() == name {
            return true;
        }
    }
    false
}

fn error_message(
    alloc: Global,
    name: Option<&str>,
    parent: &str,
    t: &str,
) -> Result<String, AllocError>
    ensures { IfOk result (λ message. string_bytes message ≡
        impossible_message (option_map (λ n. n.now) name.entry) parent.now t.now) }
{
    let words = first_words(alloc, name)?;
    let around = between(alloc, words.as_str(), parent, "\" can never be of type \"")?;
    between(alloc, around.as_str(), t, "\"")
}

fn first_words(alloc: Global, name: Option<&str>) -> Result<String, AllocError>
    ensures { IfOk result (λ words. string_bytes words ≡ impossible_words (option_map (λ n. n.now) name.entry)) }
{
    match name {
        Some(name) => between(
            alloc,
            "Fragment \"",
            name,
            "\" cannot be spread here as objects of type \"",
        ),
        None => String::from_str(
            alloc,
            "Fragment cannot be spread here as objects of type \"",
        ),
    }
}
