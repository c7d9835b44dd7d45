//! Each argument is defined by its field or by its directive (GraphQL, October 2021, section 5.4.1).

ghost use Rattle.std.specs.Prelude.{◌≡◌, IfOk, OnOk, OnErr, option_copied, string_bytes};
ghost use Rattle.std.specs.List.{flat_map};
ghost use Rattle.walk.specs.ContextState.{typing, with_errors};
ghost use Rattle.walk.specs.Entering.{everywhere, finding_step, found};
ghost use Rattle.walk.specs.Rule.{always, any_value, exactly};
ghost use Rattle.walk.specs.RuleLaws.{everywhere_silent};
ghost use Rattle.walk.specs.Step.{KeepsPlace};
ghost use Rattle.walk.proofs.Entering.{finding_keeps};
ghost use Rattle.rules_arguments.specs.KnownArgumentNames.{is_known, known_on_field, unknown_message, unknown_name};
ghost use Rattle.rules_arguments.specs.KnownArgumentNames.{unknown_argument, unknown_arguments, unknown_where_known};
ghost use Rattle.rules_arguments.specs.KnownArgumentNames.{unknown_on_field, unknown_on_directive, HasKnown};
ghost use Rattle.rules_arguments.specs.KnownArgumentNamesLaws.{none_unknown};

use crate::bearers::{Bearer, name_of_known};
use events::arguments_of_directive;
use language::error::OutOfMemory;
use language::position::Spanning;
use language::tree::{Arguments, Directive, Field};
use language::value::InputValue;
use meta::check::CheckedScalar;
use meta::named::first_named;
use meta::{Argument, MetaTypeOf};
use rules_support::texts::between;
use std::alloc::{AllocError, Global};
use walk::{Criterion, Event, Fresh, Machine, Rule, SettledRule, ValidatorContext, Visitor};

/// Reports each argument that its field or its directive does not define, at the argument's name.
///
/// It reports nothing of an unknown field or directive. A field without a list of arguments defines none.
#[derive(Drop)]
pub struct KnownArgumentNames {
    alloc: Global,
}

/// Makes the rule, for one document.
pub fn factory(alloc: Global) -> KnownArgumentNames
    ensures { ⟦<KnownArgumentNames as Fresh>⟧.fresh result }
{
    KnownArgumentNames { alloc }
}

impl Fresh for KnownArgumentNames {
    ghost fresh = { any_value };
}

impl<S, C> Machine<S, C> for KnownArgumentNames {
    ghost step = { finding_step unknown_arguments };
}

impl<S, C> Rule<S, C> for KnownArgumentNames {
    ghost allows = { always (exactly (found unknown_arguments)) };

    ghost keeps = { finding_keeps unknown_arguments };
}

impl<S, C> Criterion<S, C> for KnownArgumentNames {
    ghost finds_nothing = { everywhere (λ scope o. HasKnown scope.schema o.types.parent o.node) };
}

impl<S, C> SettledRule<S, C> for KnownArgumentNames {
    ghost silent = { everywhere_silent unknown_arguments
        (λ scope o. HasKnown scope.schema o.types.parent o.node) none_unknown };
}

impl<'a, S: CheckedScalar> Visitor<'a, S> for KnownArgumentNames {
    fn on(
        &mut self,
        ctx: &mut ValidatorContext<'a, S>,
        event: &Event<'a, S>,
    ) -> Result<(), OutOfMemory> {
        match event {
            Event::EnterField(field) => report_on_field(self.alloc, ctx, &field.item),
            Event::EnterDirective(directive) => {
                report_on_directive(self.alloc, ctx, &directive.item)
            }
            _ => Ok(()),
        }
    }
}

// Reports the unknown arguments of a field.
fn report_on_field<'a, S: CheckedScalar>(
    alloc: Global,
    ctx: &mut ValidatorContext<'a, S>,
    field: &Field<'_, S>,
) -> Result<(), OutOfMemory>
    ensures ok { OnOk result (ctx.new ≡ with_errors ctx.old (unknown_on_field (typing ctx.old).parent field.now)) }
    ensures err { OnErr result (KeepsPlace ctx.old ctx.new) }
{
    if field.arguments.is_none() {
        return Ok(());
    }
    let parent = ctx.parent_type();
    let name = field.name.item;
    let bearer = Bearer::Field(name, name_of_known(parent));
    let known = known_on_field(parent, name);
    report(alloc, ctx, bearer, known, &field.arguments)
}

// The arguments of the parent type's first field of the name, where there is such a field: none where it has no list of
// them.
fn known_on_field<'a, S, C>(
    parent: Option<&'a MetaTypeOf<S, C>>,
    name: &str,
) -> Option<&'a [Argument<S>]>
    ensures { option_copied result ≡ known_on_field (option_copied parent.entry) name.now }
{
    match &parent?.field_by_name(name)?.arguments {
        Some(arguments) => Some(arguments.as_slice()),
        None => Some(&[]),
    }
}

// Reports the unknown arguments of a directive.
fn report_on_directive<'a, S: CheckedScalar>(
    alloc: Global,
    ctx: &mut ValidatorContext<'a, S>,
    directive: &Directive<'_, S>,
) -> Result<(), OutOfMemory>
    ensures ok { OnOk result (ctx.new ≡ with_errors ctx.old (unknown_on_directive ctx.old.schema directive.now)) }
    ensures err { OnErr result (KeepsPlace ctx.old ctx.new) }
{
    let name = directive.name.item;
    let known = arguments_of_directive(ctx.schema, name);
    report(
        alloc,
        ctx,
        Bearer::Directive(name),
        known,
        &directive.arguments,
    )
}

// Reports each argument that is not among the known ones, if both lists are there.
fn report<'a, S: CheckedScalar>(
    alloc: Global,
    ctx: &mut ValidatorContext<'a, S>,
    bearer: Bearer<'_>,
    known: Option<&[Argument<S>]>,
    written: &Option<Spanning<Arguments<'_, S>>>,
) -> Result<(), OutOfMemory>
    ensures ok { OnOk result (ctx.new ≡ with_errors ctx.old
        (unknown_where_known (unknown_message bearer.entry) (option_copied known.entry) written.now)) }
    ensures err { OnErr result (KeepsPlace ctx.old ctx.new) }
{
    if let Some(known) = known {
        if let Some(list) = written {
            report_each(alloc, ctx, bearer, known, &list.item.items)?;
        }
    }
    Ok(())
}

fn report_each<'a, S: CheckedScalar>(
    alloc: Global,
    ctx: &mut ValidatorContext<'a, S>,
    bearer: Bearer<'_>,
    known: &[Argument<S>],
    written: &Vec<(Spanning<&str>, Spanning<InputValue<S>>)>,
) -> Result<(), OutOfMemory>
    ensures ok { OnOk result (ctx.new ≡ with_errors ctx.old
        (flat_map (unknown_argument (unknown_message bearer.entry) known.now) written.now.items)) }
    ensures err { OnErr result (KeepsPlace ctx.old ctx.new) }
{
    for argument in written {
        report_unknown(alloc, ctx, bearer, known, &argument.0)?;
    }
    Ok(())
}

// Reports the name of an argument that is not among the known ones.
fn report_unknown<'a, S: CheckedScalar>(
    alloc: Global,
    ctx: &mut ValidatorContext<'a, S>,
    bearer: Bearer<'_>,
    known: &[Argument<S>],
    name: &Spanning<&str>,
) -> Result<(), OutOfMemory>
    ensures ok { OnOk result (ctx.new ≡ with_errors ctx.old
        (unknown_name (unknown_message bearer.entry) known.now name.now)) }
    ensures err { OnErr result (KeepsPlace ctx.old ctx.new) }
{
    if !is_known(known, name.item) {
        let message = error_message(alloc, bearer, name.item)?;
        ctx.report_error(message.as_str(), &[name.span.start])?;
    }
    Ok(())
}

fn is_known<S>(known: &[Argument<S>], name: &str) -> bool
    ensures { result ≡ is_known known.now name.now }
{
    first_named(known, name).is_some()
}

fn error_message(alloc: Global, bearer: Bearer<'_>, argument: &str) -> Result<String, AllocError>
    ensures { IfOk result (λ message. string_bytes message ≡ unknown_message bearer.entry argument.now) }
{
    match bearer {
        Bearer::Field(name, parent) => {
            let field = between(alloc, "Unknown argument \"", argument, "\" on field \"")?;
            let around = between(alloc, field.as_str(), name, "\" of type \"")?;
            between(alloc, around.as_str(), parent, "\"")
        }
        Bearer::Directive(name) => {
            let directive = between(alloc, "Unknown argument \"", argument, "\" on directive \"")?;
            between(alloc, directive.as_str(), name, "\"")
        }
    }
}
