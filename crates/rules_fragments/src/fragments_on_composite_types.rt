//! The type condition of a fragment is an object, an interface or a union (GraphQL, October 2021, section 5.5.1.3).

ghost use Rattle.std.specs.Prelude.{◌≡◌, IfOk, OnOk, OnErr, Some, option_map, string_bytes};
ghost use Rattle.walk.specs.ContextState.{with_errors};
ghost use Rattle.walk.specs.Entering.{everywhere, finding_step, found};
ghost use Rattle.walk.specs.Rule.{always, any_value, exactly};
ghost use Rattle.walk.specs.RuleLaws.{everywhere_silent};
ghost use Rattle.walk.specs.Step.{KeepsPlace};
ghost use Rattle.walk.proofs.Entering.{finding_keeps};
ghost use Rattle.rules_fragments.specs.FragmentsOnCompositeTypes.{fragments_on_other_types, not_composite_message};
ghost use Rattle.rules_fragments.specs.FragmentsOnCompositeTypes.{on_other_type, IsOnComposite};
ghost use Rattle.rules_fragments.specs.FragmentsOnCompositeTypesLaws.{none_on_other_type};

use language::error::OutOfMemory;
use language::position::Spanning;
use meta::check::CheckedScalar;
use rules_support::texts::between;
use std::alloc::{AllocError, Global};
use walk::{Criterion, Event, Fresh, Machine, Rule, SettledRule, ValidatorContext, Visitor};

/// Reports each named or inline fragment whose condition is a scalar, an enum or an input object, at the condition.
#[derive(Drop)]
pub struct FragmentsOnCompositeTypes {
    alloc: Global,
}

/// Makes the rule, for one document.
pub fn factory(alloc: Global) -> FragmentsOnCompositeTypes
    ensures { ⟦<FragmentsOnCompositeTypes as Fresh>⟧.fresh result }
{
    FragmentsOnCompositeTypes { alloc }
}

impl Fresh for FragmentsOnCompositeTypes {
    ghost fresh = { any_value };
}

impl<S, C> Machine<S, C> for FragmentsOnCompositeTypes {
    ghost step = { finding_step fragments_on_other_types };
}

impl<S, C> Rule<S, C> for FragmentsOnCompositeTypes {
    ghost allows = { always (exactly (found fragments_on_other_types)) };

    ghost keeps = { finding_keeps fragments_on_other_types };
}

impl<S, C> Criterion<S, C> for FragmentsOnCompositeTypes {
    ghost finds_nothing = { everywhere (λ scope o. IsOnComposite scope.schema o.node) };
}

impl<S, C> SettledRule<S, C> for FragmentsOnCompositeTypes {
    ghost silent = { everywhere_silent fragments_on_other_types
        (λ scope o. IsOnComposite scope.schema o.node) none_on_other_type };
}

impl<'a, S: CheckedScalar> Visitor<'a, S> for FragmentsOnCompositeTypes {
    fn on(
        &mut self,
        ctx: &mut ValidatorContext<'a, S>,
        event: &Event<'a, S>,
    ) -> Result<(), OutOfMemory> {
        match event {
            Event::EnterFragmentDefinition(fragment) => {
                let name = fragment.item.name.item;
                report_condition(self.alloc, ctx, Some(name), &fragment.item.type_condition)
            }
            Event::EnterInlineFragment(fragment) => match &fragment.item.type_condition {
                Some(condition) => report_condition(self.alloc, ctx, None, condition),
                None => Ok(()),
            },
            _ => Ok(()),
        }
    }
}

// Reports the condition of a fragment with a name, or of an inline one, where it is a type that is not composite.
fn report_condition<'a, S: CheckedScalar>(
    alloc: Global,
    ctx: &mut ValidatorContext<'a, S>,
    name: Option<&str>,
    condition: &Spanning<&str>,
) -> Result<(), OutOfMemory>
    ensures ok { OnOk result (ctx.new ≡ with_errors ctx.old
        (on_other_type ctx.old.schema (option_map (λ n. n.now) name.entry) (Some condition.now))) }
    ensures err { OnErr result (KeepsPlace ctx.old ctx.new) }
{
    if let Some(t) = ctx.schema.concrete_type_by_name(condition.item) {
        if !t.is_composite() {
            let message = error_message(alloc, name, condition.item)?;
            ctx.report_error(message.as_str(), &[condition.span.start])?;
        }
    }
    Ok(())
}

fn error_message(alloc: Global, name: Option<&str>, t: &str) -> Result<String, AllocError>
    ensures { IfOk result (λ message. string_bytes message ≡
        not_composite_message (option_map (λ n. n.now) name.entry) t.now) }
{
    match name {
        Some(name) => {
            let words = between(
                alloc,
                "Fragment \"",
                name,
                "\" cannot condition non composite type \"",
            )?;
            format!(in alloc; "{words}{t}")
        }
        None => between(
            alloc,
            "Fragment cannot condition on non composite type \"",
            t,
            "\"",
        ),
    }
}
