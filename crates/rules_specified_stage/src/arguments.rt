//! The rules on arguments, keys of objects and directives as one type: the type of a list of all rules is long, and
//! takes long to compare.

ghost use Rattle.rules_first_stage.specs.Along.{along, step_along};
ghost use Rattle.rules_first_stage.specs.AlongLaws.{keeps_along, silent_along};
ghost use Rattle.rules_arguments.specs.KnownArgumentNamesLaws.{none_unknown as known_arguments};
ghost use Rattle.rules_arguments.specs.KnownDirectivesLaws.{none_unsuitable as suitable_directives};
ghost use Rattle.rules_arguments.specs.ProvidedNonNullArgumentsLaws.{none_missing as given_where_required};
ghost use Rattle.rules_arguments.specs.UniqueArgumentNamesLaws.{none_repeated as distinct_arguments};
ghost use Rattle.rules_arguments.specs.UniqueDirectiveNamesLaws.{none_repeated as distinct_directives};
ghost use Rattle.rules_arguments.specs.UniqueInputFieldNamesLaws.{none_repeated as distinct_keys};
ghost use Rattle.walk.specs.RuleLaws.{everywhere_silent, nil_silent, pair_silent};
ghost use Rattle.rules_specified_stage.specs.ArgumentRules.{argument_rules};

use language::error::OutOfMemory;
use meta::check::CheckedScalar;
use rules_first_stage::rules::{OfArguments, of_arguments};
use std::alloc::Global;
use walk::{Criterion, Event, Fresh, Machine, Rule, SettledRule, ValidatorContext, Visitor};

/// The rules on arguments, keys of objects and directives (GraphQL, October 2021, sections 5.4, 5.6.3 and 5.7).
#[derive(Drop)]
pub struct ArgumentRules<'a> {
    rules: OfArguments<'a>,
}

/// The rules, made ready for one document.
pub fn factory<'a>(alloc: Global) -> ArgumentRules<'a>
    ensures { ⟦<ArgumentRules<'a> as Fresh>⟧.fresh result }
{
    ArgumentRules {
        rules: of_arguments(alloc),
    }
}

impl<'a> Fresh for ArgumentRules<'a> {
    ghost fresh = { along (λ a. a.rules) ⟦<OfArguments<'a> as Fresh>⟧.fresh };
}

impl<'a, S: CheckedScalar> Machine<S, S::Check> for ArgumentRules<'a> {
    ghost step = { step_along (λ a. a.rules) ⟦<OfArguments<'a> as Machine<S, S::Check>>⟧.step };
}

impl<'a, S: CheckedScalar> Rule<S, S::Check> for ArgumentRules<'a> {
    ghost allows = { along (λ a. a.rules) ⟦<OfArguments<'a> as Rule<S, S::Check>>⟧.allows };

    ghost keeps = { keeps_along (λ a. a.rules) ⟦<OfArguments<'a> as Machine<S, S::Check>>⟧.step
        ⟦<OfArguments<'a> as Fresh>⟧.fresh ⟦<OfArguments<'a> as Rule<S, S::Check>>⟧.allows argument_rules.keeps };
}

impl<'a, S: CheckedScalar> Criterion<S, S::Check> for ArgumentRules<'a> {
    ghost finds_nothing = { ⟦<OfArguments<'a> as Criterion<S, S::Check>>⟧.finds_nothing };
}

impl<'a, S: CheckedScalar> SettledRule<S, S::Check> for ArgumentRules<'a> {
    ghost silent = { silent_along (λ a. a.rules) ⟦<OfArguments<'a> as Rule<S, S::Check>>⟧.allows
        ⟦<OfArguments<'a> as Criterion<S, S::Check>>⟧.finds_nothing
        (pair_silent _ _ _ _ (everywhere_silent _ _ distinct_directives)
        (pair_silent _ _ _ _ (everywhere_silent _ _ distinct_keys)
        (pair_silent _ _ _ _ (everywhere_silent _ _ distinct_arguments)
        (pair_silent _ _ _ _ (everywhere_silent _ _ given_where_required)
        (pair_silent _ _ _ _ (everywhere_silent _ _ suitable_directives)
        (pair_silent _ _ _ _ (everywhere_silent _ _ known_arguments)
        nil_silent)))))) };
}

impl<'a, S: CheckedScalar> Visitor<'a, S> for ArgumentRules<'a> {
    fn on(
        &mut self,
        ctx: &mut ValidatorContext<'a, S>,
        event: &Event<'a, S>,
    ) -> Result<(), OutOfMemory> {
        self.rules.on(ctx, event)
    }
}
