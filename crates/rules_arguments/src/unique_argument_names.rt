//! No two arguments of a field or of a directive have the same name (GraphQL, October 2021, section 5.4.2).

ghost use Rattle.std.specs.Prelude.{◌≡◌, OnOk, OnErr};
ghost use Rattle.walk.specs.ContextState.{with_errors};
ghost use Rattle.walk.specs.Entering.{everywhere, finding_step, found};
ghost use Rattle.walk.specs.Rule.{always, any_value, exactly};
ghost use Rattle.walk.specs.RuleLaws.{everywhere_silent};
ghost use Rattle.walk.specs.Step.{KeepsPlace};
ghost use Rattle.walk.proofs.Entering.{finding_keeps};
ghost use Rattle.rules_arguments.specs.UniqueArgumentNames.{repeated_arguments, repeated_in, HasDistinctArguments};
ghost use Rattle.rules_arguments.specs.UniqueArgumentNamesLaws.{none_repeated};

use language::error::OutOfMemory;
use language::position::Spanning;
use language::tree::Arguments;
use meta::check::CheckedScalar;
use rules_support::repeats::report_repeats;
use std::alloc::Global;
use walk::{Criterion, Event, Fresh, Machine, Rule, SettledRule, ValidatorContext, Visitor};

/// Reports each argument whose name an earlier argument of its list has: at the first argument of the name, and at its
/// own.
#[derive(Drop)]
pub struct UniqueArgumentNames {
    alloc: Global,
}

/// Makes the rule, for one document.
pub fn factory(alloc: Global) -> UniqueArgumentNames
    ensures { ⟦<UniqueArgumentNames as Fresh>⟧.fresh result }
{
    UniqueArgumentNames { alloc }
}

impl Fresh for UniqueArgumentNames {
    ghost fresh = { any_value };
}

impl<S, C> Machine<S, C> for UniqueArgumentNames {
    ghost step = { finding_step repeated_arguments };
}

impl<S, C> Rule<S, C> for UniqueArgumentNames {
    ghost allows = { always (exactly (found repeated_arguments)) };

    ghost keeps = { finding_keeps repeated_arguments };
}

impl<S, C> Criterion<S, C> for UniqueArgumentNames {
    ghost finds_nothing = { everywhere (λ scope o. HasDistinctArguments o.node) };
}

impl<S, C> SettledRule<S, C> for UniqueArgumentNames {
    ghost silent = { everywhere_silent repeated_arguments (λ scope o. HasDistinctArguments o.node) none_repeated };
}

impl<'a, S: CheckedScalar> Visitor<'a, S> for UniqueArgumentNames {
    fn on(
        &mut self,
        ctx: &mut ValidatorContext<'a, S>,
        event: &Event<'a, S>,
    ) -> Result<(), OutOfMemory> {
        match event {
            Event::EnterField(field) => report(self.alloc, ctx, &field.item.arguments),
            Event::EnterDirective(directive) => report(self.alloc, ctx, &directive.item.arguments),
            _ => Ok(()),
        }
    }
}

// Reports the repeats among arguments, where there are any.
fn report<'a, S: CheckedScalar>(
    alloc: Global,
    ctx: &mut ValidatorContext<'a, S>,
    arguments: &Option<Spanning<Arguments<'_, S>>>,
) -> Result<(), OutOfMemory>
    ensures ok { OnOk result (ctx.new ≡ with_errors ctx.old (repeated_in arguments.now)) }
    ensures err { OnErr result (KeepsPlace ctx.old ctx.new) }
{
    match arguments {
        Some(list) => report_repeats(
            alloc,
            ctx,
            &list.item.items,
            "There can only be one argument named \"",
            "\"",
        ),
        None => Ok(()),
    }
}
