//! Each argument of a non-null type without a default value is given (GraphQL, October 2021, section 5.4.2.1).

ghost use Rattle.std.specs.Prelude.{◌≡◌, IfOk, OnOk, OnErr, option_copied, string_bytes};
ghost use Rattle.std.specs.List.{flat_map};
ghost use Rattle.language_types.specs.Types.{is_never_null, printed, shape};
ghost use Rattle.walk.specs.ContextState.{typing, with_errors};
ghost use Rattle.walk.specs.Entering.{everywhere, finding_step, found};
ghost use Rattle.walk.specs.Rule.{always, any_value, exactly};
ghost use Rattle.walk.specs.RuleLaws.{everywhere_silent};
ghost use Rattle.walk.specs.Step.{KeepsPlace};
ghost use Rattle.walk.proofs.Entering.{finding_keeps};
ghost use Rattle.rules_arguments.specs.ProvidedNonNullArguments.{is_given, is_required, missing_argument};
ghost use Rattle.rules_arguments.specs.ProvidedNonNullArguments.{missing_where_known, missing_message};
ghost use Rattle.rules_arguments.specs.ProvidedNonNullArguments.{missing_on_field, missing_on_directive};
ghost use Rattle.rules_arguments.specs.ProvidedNonNullArguments.{missing_arguments, words_before, HasRequired};
ghost use Rattle.rules_arguments.specs.ProvidedNonNullArgumentsLaws.{none_missing};

use crate::bearers::{Bearer, name_of_known};
use events::{arguments_of_directive, arguments_of_field};
use language::error::OutOfMemory;
use language::position::{SourcePosition, Spanning};
use language::tree::{Arguments, Directive, Field};
use language::types::{Type, TypeModifier};
use meta::Argument;
use meta::check::CheckedScalar;
use rules_support::texts::between;
use std::alloc::{AllocError, Global};
use walk::{Criterion, Event, Fresh, Machine, Rule, SettledRule, ValidatorContext, Visitor};

/// Reports each required argument that is not given, at the start of its field or of its directive.
///
/// An argument of a non-null type is required. On a field a default value makes it optional; on a directive it does
/// not.
#[derive(Drop)]
pub struct ProvidedNonNullArguments {
    alloc: Global,
}

/// Makes the rule, for one document.
pub fn factory(alloc: Global) -> ProvidedNonNullArguments
    ensures { ⟦<ProvidedNonNullArguments as Fresh>⟧.fresh result }
{
    ProvidedNonNullArguments { alloc }
}

impl Fresh for ProvidedNonNullArguments {
    ghost fresh = { any_value };
}

impl<S, C> Machine<S, C> for ProvidedNonNullArguments {
    ghost step = { finding_step missing_arguments };
}

impl<S, C> Rule<S, C> for ProvidedNonNullArguments {
    ghost allows = { always (exactly (found missing_arguments)) };

    ghost keeps = { finding_keeps missing_arguments };
}

impl<S, C> Criterion<S, C> for ProvidedNonNullArguments {
    ghost finds_nothing = { everywhere (λ scope o. HasRequired scope.schema o.types.parent o.node) };
}

impl<S, C> SettledRule<S, C> for ProvidedNonNullArguments {
    ghost silent = { everywhere_silent missing_arguments
        (λ scope o. HasRequired scope.schema o.types.parent o.node) none_missing };
}

impl<'a, S: CheckedScalar> Visitor<'a, S> for ProvidedNonNullArguments {
    fn on(
        &mut self,
        ctx: &mut ValidatorContext<'a, S>,
        event: &Event<'a, S>,
    ) -> Result<(), OutOfMemory> {
        match event {
            Event::EnterField(field) => report_on_field(self.alloc, ctx, field),
            Event::EnterDirective(directive) => report_on_directive(self.alloc, ctx, directive),
            _ => Ok(()),
        }
    }
}

// Reports the missing arguments of a field.
fn report_on_field<'a, S: CheckedScalar>(
    alloc: Global,
    ctx: &mut ValidatorContext<'a, S>,
    field: &Spanning<Field<'_, S>>,
) -> Result<(), OutOfMemory>
    ensures ok { OnOk result (ctx.new ≡ with_errors ctx.old (missing_on_field (typing ctx.old).parent field.now)) }
    ensures err { OnErr result (KeepsPlace ctx.old ctx.new) }
{
    let parent = ctx.parent_type();
    let name = field.item.name.item;
    let bearer = Bearer::Field(name, name_of_known(parent));
    let known = arguments_of_field(parent, name);
    report(
        alloc,
        ctx,
        bearer,
        field.span.start,
        known,
        &field.item.arguments,
    )
}

// Reports the missing arguments of a directive.
fn report_on_directive<'a, S: CheckedScalar>(
    alloc: Global,
    ctx: &mut ValidatorContext<'a, S>,
    directive: &Spanning<Directive<'_, S>>,
) -> Result<(), OutOfMemory>
    ensures ok { OnOk result (ctx.new ≡ with_errors ctx.old (missing_on_directive ctx.old.schema directive.now)) }
    ensures err { OnErr result (KeepsPlace ctx.old ctx.new) }
{
    let name = directive.item.name.item;
    let bearer = Bearer::Directive(name);
    let known = arguments_of_directive(ctx.schema, name);
    report(
        alloc,
        ctx,
        bearer,
        directive.span.start,
        known,
        &directive.item.arguments,
    )
}

// Reports each of the known arguments that is required and not among those that were written.
fn report<'a, S: CheckedScalar>(
    alloc: Global,
    ctx: &mut ValidatorContext<'a, S>,
    bearer: Bearer<'_>,
    place: SourcePosition,
    known: Option<&[Argument<S>]>,
    written: &Option<Spanning<Arguments<'_, S>>>,
) -> Result<(), OutOfMemory>
    ensures ok { OnOk result (ctx.new ≡ with_errors ctx.old
        (missing_where_known (is_required bearer.entry) (words_before bearer.entry) place (option_copied known.entry)
        written.now)) }
    ensures err { OnErr result (KeepsPlace ctx.old ctx.new) }
{
    match known {
        Some(known) => report_each(alloc, ctx, bearer, place, known, written),
        None => Ok(()),
    }
}

fn report_each<'a, S: CheckedScalar>(
    alloc: Global,
    ctx: &mut ValidatorContext<'a, S>,
    bearer: Bearer<'_>,
    place: SourcePosition,
    known: &[Argument<S>],
    written: &Option<Spanning<Arguments<'_, S>>>,
) -> Result<(), OutOfMemory>
    ensures ok { OnOk result (ctx.new ≡ with_errors ctx.old
        (flat_map (missing_argument (is_required bearer.entry) (words_before bearer.entry) place written.now)
        known.now)) }
    ensures err { OnErr result (KeepsPlace ctx.old ctx.new) }
{
    for argument in known {
        report_missing(alloc, ctx, bearer, place, argument, written)?;
    }
    Ok(())
}

// Reports an argument that is required and not among those that were written.
fn report_missing<'a, S: CheckedScalar>(
    alloc: Global,
    ctx: &mut ValidatorContext<'a, S>,
    bearer: Bearer<'_>,
    place: SourcePosition,
    argument: &Argument<S>,
    written: &Option<Spanning<Arguments<'_, S>>>,
) -> Result<(), OutOfMemory>
    ensures ok { OnOk result (ctx.new ≡ with_errors ctx.old
        (missing_argument (is_required bearer.entry) (words_before bearer.entry) place written.now argument.now)) }
    ensures err { OnErr result (KeepsPlace ctx.old ctx.new) }
{
    if is_required(bearer, argument) && !is_given(written, argument.name.as_str()) {
        let message = error_message(alloc, bearer, argument)?;
        ctx.report_error(message.as_str(), &[place])?;
    }
    Ok(())
}

// Whether the argument is required.
fn is_required<S>(bearer: Bearer<'_>, argument: &Argument<S>) -> bool
    ensures { result ≡ is_required bearer.entry argument.now }
{
    match bearer {
        Bearer::Field(_, _) => is_never_null(&argument.arg_type)
            && argument.default_value.is_none(),
        Bearer::Directive(_) => is_never_null(&argument.arg_type),
    }
}

fn is_never_null(t: &Type) -> bool
    ensures { result ≡ is_never_null (shape t.now) }
{
    matches!(t.modifier(), Some(TypeModifier::NonNull))
}

// Whether an argument of the name was written.
fn is_given<S>(written: &Option<Spanning<Arguments<'_, S>>>, name: &str) -> bool
    ensures { result ≡ is_given written.now name.now }
{
    match written {
        Some(list) => list.item.get(name).is_some(),
        None => false,
    }
}

fn error_message<S>(
    alloc: Global,
    bearer: Bearer<'_>,
    argument: &Argument<S>,
) -> Result<String, AllocError>
    ensures { IfOk result (λ message. string_bytes message
        ≡ missing_message (words_before bearer.entry) (string_bytes argument.now.name)
        (printed (shape argument.now.arg_type))) }
{
    let before = words_before(alloc, bearer)?;
    let named = between(
        alloc,
        before.as_str(),
        argument.name.as_str(),
        "\" of type \"",
    )?;
    let t = type_text(alloc, &argument.arg_type)?;
    between(
        alloc,
        named.as_str(),
        t.as_str(),
        "\" is required but not provided",
    )
}

// The words before the name of a missing argument.
fn words_before(alloc: Global, bearer: Bearer<'_>) -> Result<String, AllocError>
    ensures { IfOk result (λ words. string_bytes words ≡ words_before bearer.entry) }
{
    match bearer {
        Bearer::Field(name, _) => between(alloc, "Field \"", name, "\" argument \""),
        Bearer::Directive(name) => between(alloc, "Directive \"@", name, "\" argument \""),
    }
}

fn type_text(alloc: Global, t: &Type) -> Result<String, AllocError>
    ensures { IfOk result (λ text. string_bytes text ≡ printed (shape t.now)) }
{
    format!(in alloc; "{t}")
}
