//! No two fields of an input object have the same name (GraphQL, October 2021, section 5.6.3).

ghost use Rattle.walk.specs.Entering.{everywhere, finding_step, found};
ghost use Rattle.walk.specs.Rule.{always, any_value, exactly};
ghost use Rattle.walk.specs.RuleLaws.{everywhere_silent};
ghost use Rattle.walk.proofs.Entering.{finding_keeps};
ghost use Rattle.rules_arguments.specs.UniqueInputFieldNames.{repeated_keys, HasDistinctKeys};
ghost use Rattle.rules_arguments.specs.UniqueInputFieldNamesLaws.{none_repeated};

use language::error::OutOfMemory;
use meta::check::CheckedScalar;
use rules_support::repeats::report_repeats;
use std::alloc::Global;
use walk::{Criterion, Event, Fresh, Machine, Rule, SettledRule, ValidatorContext, Visitor};

/// Reports each key that stands earlier in its object value: at the first key of the name, and at its own.
#[derive(Drop)]
pub struct UniqueInputFieldNames {
    alloc: Global,
}

/// Makes the rule, for one document.
pub fn factory(alloc: Global) -> UniqueInputFieldNames
    ensures { ⟦<UniqueInputFieldNames as Fresh>⟧.fresh result }
{
    UniqueInputFieldNames { alloc }
}

impl Fresh for UniqueInputFieldNames {
    ghost fresh = { any_value };
}

impl<S, C> Machine<S, C> for UniqueInputFieldNames {
    ghost step = { finding_step repeated_keys };
}

impl<S, C> Rule<S, C> for UniqueInputFieldNames {
    ghost allows = { always (exactly (found repeated_keys)) };

    ghost keeps = { finding_keeps repeated_keys };
}

impl<S, C> Criterion<S, C> for UniqueInputFieldNames {
    ghost finds_nothing = { everywhere (λ scope o. HasDistinctKeys o.node) };
}

impl<S, C> SettledRule<S, C> for UniqueInputFieldNames {
    ghost silent = { everywhere_silent repeated_keys (λ scope o. HasDistinctKeys o.node) none_repeated };
}

impl<'a, S: CheckedScalar> Visitor<'a, S> for UniqueInputFieldNames {
    fn on(
        &mut self,
        ctx: &mut ValidatorContext<'a, S>,
        event: &Event<'a, S>,
    ) -> Result<(), OutOfMemory> {
        if let Event::EnterObjectValue(object) = event {
            report_repeats(
                self.alloc,
                ctx,
                object.item,
                "There can only be one input field named \"",
                "\"",
            )?;
        }
        Ok(())
    }
}
