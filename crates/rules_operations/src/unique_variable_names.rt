//! No two variables of an operation have the same name (GraphQL, October 2021, section 5.8.1).

ghost use Rattle.std.specs.Prelude.{◌≡◌, OnOk, OnErr};
ghost use Rattle.walk.specs.ContextState.{with_errors};
ghost use Rattle.walk.specs.Entering.{everywhere, finding_step, found};
ghost use Rattle.walk.specs.Rule.{always, any_value, exactly};
ghost use Rattle.walk.specs.RuleLaws.{everywhere_silent};
ghost use Rattle.walk.specs.Step.{KeepsPlace};
ghost use Rattle.walk.proofs.Entering.{finding_keeps};
ghost use Rattle.rules_operations.specs.UniqueVariableNames.{repeated_among, repeated_variables, HasDistinctVariables};
ghost use Rattle.rules_operations.specs.UniqueVariableNamesLaws.{none_repeated};

use language::error::OutOfMemory;
use language::position::Spanning;
use language::tree::VariableDefinitions;
use meta::check::CheckedScalar;
use rules_support::repeats::report_repeats;
use std::alloc::Global;
use std::marker::PhantomData;
use walk::{Criterion, Event, Fresh, Machine, Rule, SettledRule, ValidatorContext, Visitor};

/// Reports each variable whose name an earlier variable of its operation has: at the first variable of the name, and at
/// its own.
#[derive(Drop)]
pub struct UniqueVariableNames<'a> {
    alloc: Global,
    document: PhantomData<&'a str>,
}

/// Makes the rule, for one document.
pub fn factory<'a>(alloc: Global) -> UniqueVariableNames<'a>
    ensures { ⟦<UniqueVariableNames<'a> as Fresh>⟧.fresh result }
{
    UniqueVariableNames {
        alloc,
        document: PhantomData,
    }
}

impl<'a> Fresh for UniqueVariableNames<'a> {
    ghost fresh = { any_value };
}

impl<'a, S, C> Machine<S, C> for UniqueVariableNames<'a> {
    ghost step = { finding_step repeated_variables };
}

impl<'a, S, C> Rule<S, C> for UniqueVariableNames<'a> {
    ghost allows = { always (exactly (found repeated_variables)) };

    ghost keeps = { finding_keeps repeated_variables };
}

impl<'a, S, C> Criterion<S, C> for UniqueVariableNames<'a> {
    ghost finds_nothing = { everywhere (λ scope o. HasDistinctVariables o.node) };
}

impl<'a, S, C> SettledRule<S, C> for UniqueVariableNames<'a> {
    ghost silent = { everywhere_silent repeated_variables (λ scope o. HasDistinctVariables o.node) none_repeated };
}

impl<'a, S: CheckedScalar> Visitor<'a, S> for UniqueVariableNames<'a> {
    fn on(
        &mut self,
        ctx: &mut ValidatorContext<'a, S>,
        event: &Event<'a, S>,
    ) -> Result<(), OutOfMemory> {
        if let Event::EnterOperationDefinition(operation) = event {
            report(self.alloc, ctx, &operation.item.variable_definitions)?;
        }
        Ok(())
    }
}

// Reports the repeats among an operation's variables, where it has any.
fn report<'a, S: CheckedScalar>(
    alloc: Global,
    ctx: &mut ValidatorContext<'a, S>,
    definitions: &Option<Spanning<VariableDefinitions<'_, S>>>,
) -> Result<(), OutOfMemory>
    ensures ok { OnOk result (ctx.new ≡ with_errors ctx.old (repeated_among definitions.now)) }
    ensures err { OnErr result (KeepsPlace ctx.old ctx.new) }
{
    match definitions {
        Some(list) => report_repeats(
            alloc,
            ctx,
            &list.item.items,
            "There can only be one variable named ",
            "",
        ),
        None => Ok(()),
    }
}
