//! No two directives of a node have the same name, unless it is that of a repeatable directive (GraphQL, October 2021,
//! section 5.7.3).

ghost use Rattle.std.specs.Prelude.{◌≡◌, IfOk, OnOk, OnErr, map};
ghost use Rattle.walk.specs.ContextState.{with_errors};
ghost use Rattle.walk.specs.Entering.{everywhere, finding_step, found};
ghost use Rattle.walk.specs.Rule.{always, any_value, exactly};
ghost use Rattle.walk.specs.RuleLaws.{everywhere_silent};
ghost use Rattle.walk.specs.Step.{KeepsPlace};
ghost use Rattle.walk.proofs.Entering.{finding_keeps};
ghost use Rattle.rules_support.specs.Repeats.{repeats};
ghost use Rattle.rules_arguments.specs.UniqueDirectiveNames.{is_once, once_among, repeated_directive_message};
ghost use Rattle.rules_arguments.specs.UniqueDirectiveNames.{repeated_directives, repeated_in, whole_name};
ghost use Rattle.rules_arguments.specs.UniqueDirectiveNames.{directives_at, AreDistinctDirectives};
ghost use Rattle.rules_arguments.specs.UniqueDirectiveNamesLaws.{none_repeated};

use language::error::OutOfMemory;
use language::position::{SourcePosition, Spanning};
use language::tree::Directive;
use meta::check::CheckedScalar;
use rules_support::repeats::{HasName, report_repeats};
use schema::model::SchemaTypeOf;
use std::alloc::{AllocError, Global};
use std::marker::PhantomData;
use walk::{Criterion, Event, Fresh, Machine, Rule, SettledRule, ValidatorContext, Visitor};

/// Reports each directive whose name an earlier directive of its node has, at the start of the first one of the name
/// and at its own start.
///
/// It reports nothing of an unknown directive, nor of a repeatable one.
#[derive(Drop)]
pub struct UniqueDirectiveNames<'a> {
    alloc: Global,
    document: PhantomData<&'a str>,
}

/// Makes the rule, for one document.
pub fn factory<'a>(alloc: Global) -> UniqueDirectiveNames<'a>
    ensures { ⟦<UniqueDirectiveNames<'a> as Fresh>⟧.fresh result }
{
    UniqueDirectiveNames {
        alloc,
        document: PhantomData,
    }
}

impl<'a> Fresh for UniqueDirectiveNames<'a> {
    ghost fresh = { any_value };
}

impl<'a, S, C> Machine<S, C> for UniqueDirectiveNames<'a> {
    ghost step = { finding_step repeated_directives };
}

impl<'a, S, C> Rule<S, C> for UniqueDirectiveNames<'a> {
    ghost allows = { always (exactly (found repeated_directives)) };

    ghost keeps = { finding_keeps repeated_directives };
}

impl<'a, S, C> Criterion<S, C> for UniqueDirectiveNames<'a> {
    ghost finds_nothing = { everywhere (λ scope o. AreDistinctDirectives scope.schema (directives_at o.node)) };
}

impl<'a, S, C> SettledRule<S, C> for UniqueDirectiveNames<'a> {
    ghost silent = { everywhere_silent repeated_directives
        (λ scope o. AreDistinctDirectives scope.schema (directives_at o.node)) none_repeated };
}

impl<'a, S: CheckedScalar> Visitor<'a, S> for UniqueDirectiveNames<'a> {
    fn on(
        &mut self,
        ctx: &mut ValidatorContext<'a, S>,
        event: &Event<'a, S>,
    ) -> Result<(), OutOfMemory> {
        let alloc = self.alloc;
        match event {
            Event::EnterOperationDefinition(operation) => {
                report(alloc, ctx, &operation.item.directives)
            }
            Event::EnterFragmentDefinition(fragment) => {
                report(alloc, ctx, &fragment.item.directives)
            }
            Event::EnterVariableDefinition(variable) => report(alloc, ctx, &variable.1.directives),
            Event::EnterField(field) => report(alloc, ctx, &field.item.directives),
            Event::EnterFragmentSpread(spread) => report(alloc, ctx, &spread.item.directives),
            Event::EnterInlineFragment(fragment) => report(alloc, ctx, &fragment.item.directives),
            _ => Ok(()),
        }
    }
}

// The name of a directive, with the place where the whole directive starts.
#[derive(Clone, Copy)]
struct Whole<'t> {
    name: &'t str,
    start: SourcePosition,
}

impl HasName for Whole<'_> {
    ghost named = { whole_name };

    fn name(&self) -> &str {
        self.name
    }

    fn place(&self) -> SourcePosition {
        self.start
    }
}

// Reports the repeats among the directives of a node, where there are any.
fn report<'a, S: CheckedScalar>(
    alloc: Global,
    ctx: &mut ValidatorContext<'a, S>,
    directives: &Option<Vec<Spanning<Directive<'_, S>>>>,
) -> Result<(), OutOfMemory>
    ensures ok { OnOk result (ctx.new ≡ with_errors ctx.old (repeated_in ctx.old.schema directives.now)) }
    ensures err { OnErr result (KeepsPlace ctx.old ctx.new) }
{
    match directives {
        Some(list) => report_among(alloc, ctx, list),
        None => Ok(()),
    }
}

fn report_among<'a, S: CheckedScalar>(
    alloc: Global,
    ctx: &mut ValidatorContext<'a, S>,
    directives: &Vec<Spanning<Directive<'_, S>>>,
) -> Result<(), OutOfMemory>
    ensures ok { OnOk result (ctx.new ≡ with_errors ctx.old
        (repeats repeated_directive_message (once_among ctx.old.schema directives.now.items))) }
    ensures err { OnErr result (KeepsPlace ctx.old ctx.new) }
{
    // most nodes have one directive at most, for which the list would ask for memory
    if directives.len() < 2 {
        return Ok(());
    }
    let once = once_among(alloc, ctx.schema, directives)?;
    report_repeats(
        alloc,
        ctx,
        &once,
        "Directive \"",
        "\" may be used only once here",
    )
}

// The directives that the schema knows and that aren't repeatable.
fn once_among<'t, S, C>(
    alloc: Global,
    schema: &SchemaTypeOf<S, C>,
    directives: &Vec<Spanning<Directive<'t, S>>>,
) -> Result<Vec<Whole<'t>>, AllocError>
    ensures { IfOk result (λ once. map whole_name once.items ≡ once_among schema.now directives.now.items) }
{
    let mut once = Vec::new(alloc);
    for directive in directives {
        if is_once(schema, directive) {
            once.push(Whole {
                name: directive.item.name.item,
                start: directive.span.start,
            })?;
        }
    }
    Ok(once)
}

// Whether the schema knows the directive, and it isn't repeatable.
fn is_once<S, C>(schema: &SchemaTypeOf<S, C>, directive: &Spanning<Directive<'_, S>>) -> bool
    ensures { result ≡ is_once schema.now directive.now }
{
    match schema.directive_by_name(directive.item.name.item) {
        Some(known) => !known.is_repeatable,
        None => false,
    }
}
