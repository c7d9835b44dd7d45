//! Each directive is defined by the schema, and is allowed where it stands (GraphQL, October 2021, sections 5.7.1 and
//! 5.7.2).

ghost use Rattle.std.specs.Prelude.{◌≡◌, IfOk, OnOk, OnErr, string_bytes};
ghost use Rattle.std.specs.List.{flat_map};
ghost use Rattle.schema_validation.specs.Locations.{location_words};
ghost use Rattle.walk.specs.ContextState.{with_errors};
ghost use Rattle.walk.specs.Entering.{everywhere, finding_step, found};
ghost use Rattle.walk.specs.Rule.{always, any_value, exactly};
ghost use Rattle.walk.specs.RuleLaws.{everywhere_silent};
ghost use Rattle.walk.specs.Step.{KeepsPlace};
ghost use Rattle.walk.proofs.Entering.{finding_keeps};
ghost use Rattle.rules_arguments.specs.KnownDirectives.{is_listed, is_one_place, misplaced_message, operation_place};
ghost use Rattle.rules_arguments.specs.KnownDirectives.{unknown_directive_message, unsuitable, unsuitable_among};
ghost use Rattle.rules_arguments.specs.KnownDirectives.{unsuitable_directives, HasSuitable};
ghost use Rattle.rules_arguments.specs.KnownDirectivesLaws.{none_unsuitable};

use language::error::OutOfMemory;
use language::position::Spanning;
use language::tree::{Directive, OperationType};
use meta::check::CheckedScalar;
use rules_support::texts::between;
use schema::model::DirectiveLocation;
use std::alloc::{AllocError, Global};
use walk::{Criterion, Event, Fresh, Machine, Rule, SettledRule, ValidatorContext, Visitor};

/// Reports each directive that the schema does not define, and each that is not allowed at its node, at the directive's
/// start.
#[derive(Drop)]
pub struct KnownDirectives {
    alloc: Global,
}

/// Makes the rule, for one document.
pub fn factory(alloc: Global) -> KnownDirectives
    ensures { ⟦<KnownDirectives as Fresh>⟧.fresh result }
{
    KnownDirectives { alloc }
}

impl Fresh for KnownDirectives {
    ghost fresh = { any_value };
}

impl<S, C> Machine<S, C> for KnownDirectives {
    ghost step = { finding_step unsuitable_directives };
}

impl<S, C> Rule<S, C> for KnownDirectives {
    ghost allows = { always (exactly (found unsuitable_directives)) };

    ghost keeps = { finding_keeps unsuitable_directives };
}

impl<S, C> Criterion<S, C> for KnownDirectives {
    ghost finds_nothing = { everywhere (λ scope o. HasSuitable scope.schema o.node) };
}

impl<S, C> SettledRule<S, C> for KnownDirectives {
    ghost silent = { everywhere_silent unsuitable_directives
        (λ scope o. HasSuitable scope.schema o.node) none_unsuitable };
}

impl<'a, S: CheckedScalar> Visitor<'a, S> for KnownDirectives {
    fn on(
        &mut self,
        ctx: &mut ValidatorContext<'a, S>,
        event: &Event<'a, S>,
    ) -> Result<(), OutOfMemory> {
        let alloc = self.alloc;
        match event {
            Event::EnterOperationDefinition(operation) => {
                let place = operation_place(operation.item.operation_type);
                report(alloc, ctx, &place, &operation.item.directives)
            }
            Event::EnterFragmentDefinition(fragment) => {
                let place = DirectiveLocation::FragmentDefinition;
                report(alloc, ctx, &place, &fragment.item.directives)
            }
            Event::EnterVariableDefinition(variable) => {
                let place = DirectiveLocation::VariableDefinition;
                report(alloc, ctx, &place, &variable.1.directives)
            }
            Event::EnterField(field) => {
                let place = DirectiveLocation::Field;
                report(alloc, ctx, &place, &field.item.directives)
            }
            Event::EnterFragmentSpread(spread) => {
                let place = DirectiveLocation::FragmentSpread;
                report(alloc, ctx, &place, &spread.item.directives)
            }
            Event::EnterInlineFragment(fragment) => {
                let place = DirectiveLocation::InlineFragment;
                report(alloc, ctx, &place, &fragment.item.directives)
            }
            _ => Ok(()),
        }
    }
}

// Where the directives of an operation stand.
fn operation_place(kind: OperationType) -> DirectiveLocation
    ensures { result ≡ operation_place kind }
{
    match kind {
        OperationType::Query => DirectiveLocation::Query,
        OperationType::Mutation => DirectiveLocation::Mutation,
        OperationType::Subscription => DirectiveLocation::Subscription,
    }
}

// Reports each of the directives, if there are any, that is not known or not allowed at the place.
fn report<'a, S: CheckedScalar>(
    alloc: Global,
    ctx: &mut ValidatorContext<'a, S>,
    place: &DirectiveLocation,
    directives: &Option<Vec<Spanning<Directive<'_, S>>>>,
) -> Result<(), OutOfMemory>
    ensures ok { OnOk result (ctx.new ≡ with_errors ctx.old
        (unsuitable_among ctx.old.schema place.now directives.now)) }
    ensures err { OnErr result (KeepsPlace ctx.old ctx.new) }
{
    match directives {
        Some(list) => report_each(alloc, ctx, place, list),
        None => Ok(()),
    }
}

fn report_each<'a, S: CheckedScalar>(
    alloc: Global,
    ctx: &mut ValidatorContext<'a, S>,
    place: &DirectiveLocation,
    directives: &Vec<Spanning<Directive<'_, S>>>,
) -> Result<(), OutOfMemory>
    ensures ok { OnOk result (ctx.new ≡ with_errors ctx.old
        (flat_map (unsuitable ctx.old.schema place.now) directives.now.items)) }
    ensures err { OnErr result (KeepsPlace ctx.old ctx.new) }
{
    for directive in directives {
        report_unsuitable(alloc, ctx, place, directive)?;
    }
    Ok(())
}

// Reports a directive that is not known or not allowed at the place.
fn report_unsuitable<'a, S: CheckedScalar>(
    alloc: Global,
    ctx: &mut ValidatorContext<'a, S>,
    place: &DirectiveLocation,
    directive: &Spanning<Directive<'_, S>>,
) -> Result<(), OutOfMemory>
    ensures ok { OnOk result (ctx.new ≡ with_errors ctx.old (unsuitable ctx.old.schema place.now directive.now)) }
    ensures err { OnErr result (KeepsPlace ctx.old ctx.new) }
{
    let name = directive.item.name.item;
    match ctx.schema.directive_by_name(name) {
        Some(known) => {
            if !is_listed(place, known.locations.as_slice()) {
                let message = misplaced_message(alloc, name, place)?;
                ctx.report_error(message.as_str(), &[directive.span.start])?;
            }
        }
        None => {
            let message = unknown_message(alloc, name)?;
            ctx.report_error(message.as_str(), &[directive.span.start])?;
        }
    }
    Ok(())
}

fn is_listed(place: &DirectiveLocation, locations: &[DirectiveLocation]) -> bool
    ensures { result ≡ is_listed place.now locations.now }
{
    for location in locations {
        if is_one_place(location, place) {
            return true;
        }
    }
    false
}

fn is_one_place(one: &DirectiveLocation, other: &DirectiveLocation) -> bool
    ensures { result ≡ is_one_place one.now other.now }
{
    one == other
}

fn unknown_message(alloc: Global, name: &str) -> Result<String, AllocError>
    ensures { IfOk result (λ message. string_bytes message ≡ unknown_directive_message name.now) }
{
    between(alloc, "Unknown directive \"", name, "\"")
}

fn misplaced_message(
    alloc: Global,
    name: &str,
    place: &DirectiveLocation,
) -> Result<String, AllocError>
    ensures { IfOk result (λ message. string_bytes message ≡ misplaced_message name.now (location_words place.now)) }
{
    let after = format!(in alloc; "\" may not be used on {place}")?;
    between(alloc, "Directive \"", name, after.as_str())
}
