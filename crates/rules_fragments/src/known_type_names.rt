//! Each type that a document names is a type of the schema (GraphQL, October 2021, sections 5.5.1.2 and 5.8.2).

ghost use Rattle.std.specs.Prelude.{◌≡◌, IfOk, OnOk, OnErr, string_bytes};
ghost use Rattle.walk.specs.ContextState.{with_errors};
ghost use Rattle.walk.specs.Entering.{everywhere, finding_step, found};
ghost use Rattle.walk.specs.Rule.{always, any_value, exactly};
ghost use Rattle.walk.specs.RuleLaws.{everywhere_silent};
ghost use Rattle.walk.specs.Step.{KeepsPlace};
ghost use Rattle.walk.proofs.Entering.{finding_keeps};
ghost use Rattle.rules_fragments.specs.KnownTypeNames.{unknown_type, unknown_type_message, unknown_types, NamesKnown};
ghost use Rattle.rules_fragments.specs.KnownTypeNamesLaws.{none_unknown};

use language::error::OutOfMemory;
use language::position::SourcePosition;
use meta::check::CheckedScalar;
use std::alloc::{AllocError, Global};
use walk::{Criterion, Event, Fresh, Machine, Rule, SettledRule, ValidatorContext, Visitor};

/// Reports each type condition, and each type of a variable, whose name no type of the schema has, at its start.
#[derive(Drop)]
pub struct KnownTypeNames {
    alloc: Global,
}

/// Makes the rule, for one document.
pub fn factory(alloc: Global) -> KnownTypeNames
    ensures { ⟦<KnownTypeNames as Fresh>⟧.fresh result }
{
    KnownTypeNames { alloc }
}

impl Fresh for KnownTypeNames {
    ghost fresh = { any_value };
}

impl<S, C> Machine<S, C> for KnownTypeNames {
    ghost step = { finding_step unknown_types };
}

impl<S, C> Rule<S, C> for KnownTypeNames {
    ghost allows = { always (exactly (found unknown_types)) };

    ghost keeps = { finding_keeps unknown_types };
}

impl<S, C> Criterion<S, C> for KnownTypeNames {
    ghost finds_nothing = { everywhere (λ scope o. NamesKnown scope.schema o.node) };
}

impl<S, C> SettledRule<S, C> for KnownTypeNames {
    ghost silent = { everywhere_silent unknown_types (λ scope o. NamesKnown scope.schema o.node) none_unknown };
}

impl<'a, S: CheckedScalar> Visitor<'a, S> for KnownTypeNames {
    fn on(
        &mut self,
        ctx: &mut ValidatorContext<'a, S>,
        event: &Event<'a, S>,
    ) -> Result<(), OutOfMemory> {
        match event {
            Event::EnterFragmentDefinition(fragment) => {
                let condition = &fragment.item.type_condition;
                report_unknown(self.alloc, ctx, condition.item, condition.span.start)
            }
            Event::EnterInlineFragment(fragment) => match &fragment.item.type_condition {
                Some(condition) => {
                    report_unknown(self.alloc, ctx, condition.item, condition.span.start)
                }
                None => Ok(()),
            },
            Event::EnterVariableDefinition(definition) => {
                let var_type = &definition.1.var_type;
                let name = var_type.item.innermost_name();
                report_unknown(self.alloc, ctx, name, var_type.span.start)
            }
            _ => Ok(()),
        }
    }
}

// Reports a name at a place, where no type of the schema has it.
fn report_unknown<'a, S: CheckedScalar>(
    alloc: Global,
    ctx: &mut ValidatorContext<'a, S>,
    name: &str,
    place: SourcePosition,
) -> Result<(), OutOfMemory>
    ensures ok { OnOk result (ctx.new ≡ with_errors ctx.old (unknown_type ctx.old.schema name.now place)) }
    ensures err { OnErr result (KeepsPlace ctx.old ctx.new) }
{
    if ctx.schema.concrete_type_by_name(name).is_none() {
        let message = error_message(alloc, name)?;
        ctx.report_error(message.as_str(), &[place])?;
    }
    Ok(())
}

fn error_message(alloc: Global, name: &str) -> Result<String, AllocError>
    ensures { IfOk result (λ message. string_bytes message ≡ unknown_type_message name.now) }
{
    format!(in alloc; "Unknown type \"{name}\"")
}
