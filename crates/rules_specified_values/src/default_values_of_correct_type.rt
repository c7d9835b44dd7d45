//! The default value of each variable conforms to the variable's type (GraphQL, October 2021, section 5.6.1), which may
//! be non-null.

ghost use Rattle.language_values.specs.ValuesPrinted.{printed_value};
ghost use Rattle.walk.specs.Entering.{everywhere, given, relating_step};
ghost use Rattle.walk.specs.Rule.{always, any_value};
ghost use Rattle.walk.proofs.Entering.{relating_keeps};
ghost use Rattle.rules_values.specs.GivenLaws.{given_silent};
ghost use Rattle.rules_specified_values.specs.DefaultValuesOfCorrectType.{ConformingDefault, faulty_defaults};
ghost use Rattle.rules_specified_values.specs.DefaultValuesOfCorrectTypeLaws.{defaults_conform};

use language_types::error::OutOfMemory;
use meta::check::CheckedScalar;
use rules_values::default_values_of_correct_type::report_faulty_default;
use std::alloc::Global;
use walk::{Criterion, Event, Fresh, Machine, Rule, SettledRule, ValidatorContext, Visitor};

/// Reports each default value of a variable that does not conform to the variable's type, at the value's start. For a
/// non-null type `null` does not. It skips types whose name the schema does not know.
///
/// A value that conforms takes no memory beyond what the checks of its scalars and enum values take.
#[derive(Drop)]
pub struct DefaultValuesOfCorrectType {
    alloc: Global,
}

/// Makes the rule, for one document.
pub fn factory(alloc: Global) -> DefaultValuesOfCorrectType
    ensures { ⟦<DefaultValuesOfCorrectType as Fresh>⟧.fresh result }
{
    DefaultValuesOfCorrectType { alloc }
}

impl Fresh for DefaultValuesOfCorrectType {
    ghost fresh = { any_value };
}

impl<S: CheckedScalar> Machine<S, S::Check> for DefaultValuesOfCorrectType {
    ghost step = { relating_step (faulty_defaults S.may_answer (printed_value S.text S.str_of)) };
}

impl<S: CheckedScalar> Rule<S, S::Check> for DefaultValuesOfCorrectType {
    ghost allows = { always (given (faulty_defaults S.may_answer (printed_value S.text S.str_of))) };

    ghost keeps = { relating_keeps (faulty_defaults S.may_answer (printed_value S.text S.str_of)) };
}

impl<S: CheckedScalar> Criterion<S, S::Check> for DefaultValuesOfCorrectType {
    ghost finds_nothing = { everywhere (λ scope o. ConformingDefault S.may_answer scope.schema o.node) };
}

impl<S: CheckedScalar> SettledRule<S, S::Check> for DefaultValuesOfCorrectType {
    ghost silent = { given_silent (faulty_defaults S.may_answer (printed_value S.text S.str_of))
        (λ scope o. ConformingDefault S.may_answer scope.schema o.node)
        (defaults_conform S.may_answer (printed_value S.text S.str_of) S.one_answer) };
}

impl<'a, S: CheckedScalar> Visitor<'a, S> for DefaultValuesOfCorrectType {
    fn on(
        &mut self,
        ctx: &mut ValidatorContext<'a, S>,
        event: &Event<'a, S>,
    ) -> Result<(), OutOfMemory> {
        if let Event::EnterVariableDefinition(definition) = event {
            if let Some(value) = &definition.1.default_value {
                let t = &definition.1.var_type.item;
                report_faulty_default(self.alloc, ctx, definition.0.item, t, value)?;
            }
        }
        Ok(())
    }
}
