//! No field asks for the schema itself (GraphQL, October 2021, section 4.2): a rule for services that do not show their
//! schema.

ghost use Rattle.std.specs.Prelude.{◌≡◌, IfOk, OnErr, OnOk, string_bytes};
ghost use Rattle.walk.specs.ContextState.{with_errors};
ghost use Rattle.walk.specs.Entering.{everywhere, finding_step, found};
ghost use Rattle.walk.specs.Rule.{always, any_value, exactly};
ghost use Rattle.walk.specs.RuleLaws.{everywhere_silent};
ghost use Rattle.walk.specs.Step.{KeepsPlace};
ghost use Rattle.walk.proofs.Entering.{finding_keeps};
ghost use Rattle.rules_fields.specs.DisableIntrospection.{introspection_field, introspection_fields};
ghost use Rattle.rules_fields.specs.DisableIntrospection.{introspection_message, AsksNoSchema};
ghost use Rattle.rules_fields.specs.DisableIntrospectionLaws.{none_introspection};

use language::error::OutOfMemory;
use language::position::Spanning;
use meta::check::CheckedScalar;
use rules_support::texts::between;
use std::alloc::{AllocError, Global};
use walk::{Criterion, Event, Fresh, Machine, Rule, SettledRule, ValidatorContext, Visitor};

/// Reports each field `__schema` or `__type`, at its name.
#[derive(Drop)]
pub struct DisableIntrospection {
    alloc: Global,
}

/// Makes the rule, for one document.
pub fn factory(alloc: Global) -> DisableIntrospection
    ensures { ⟦<DisableIntrospection as Fresh>⟧.fresh result }
{
    DisableIntrospection { alloc }
}

impl Fresh for DisableIntrospection {
    ghost fresh = { any_value };
}

impl<S, C> Machine<S, C> for DisableIntrospection {
    ghost step = { finding_step introspection_fields };
}

impl<S, C> Rule<S, C> for DisableIntrospection {
    ghost allows = { always (exactly (found introspection_fields)) };

    ghost keeps = { finding_keeps introspection_fields };
}

impl<S, C> Criterion<S, C> for DisableIntrospection {
    ghost finds_nothing = { everywhere (λ scope o. AsksNoSchema o.node) };
}

impl<S, C> SettledRule<S, C> for DisableIntrospection {
    ghost silent = { everywhere_silent introspection_fields (λ scope o. AsksNoSchema o.node) none_introspection };
}

impl<'a, S: CheckedScalar> Visitor<'a, S> for DisableIntrospection {
    fn on(
        &mut self,
        ctx: &mut ValidatorContext<'a, S>,
        event: &Event<'a, S>,
    ) -> Result<(), OutOfMemory> {
        if let Event::EnterField(field) = event {
            report_asking(self.alloc, ctx, &field.item.name)?;
        }
        Ok(())
    }
}

// Reports the name of a field that asks for the schema.
fn report_asking<'a, S: CheckedScalar>(
    alloc: Global,
    ctx: &mut ValidatorContext<'a, S>,
    name: &Spanning<&str>,
) -> Result<(), OutOfMemory>
    ensures ok { OnOk result (ctx.new ≡ with_errors ctx.old (introspection_field name.now)) }
    ensures err { OnErr result (KeepsPlace ctx.old ctx.new) }
{
    if name.item == "__schema" || name.item == "__type" {
        let message = error_message(alloc, name.item)?;
        ctx.report_error(message.as_str(), &[name.span.start])?;
    }
    Ok(())
}

fn error_message(alloc: Global, name: &str) -> Result<String, AllocError>
    ensures { IfOk result (λ message. string_bytes message ≡ introspection_message name.now) }
{
    between(
        alloc,
        "GraphQL introspection is not allowed, but the operation contained `",
        name,
        "`",
    )
}
