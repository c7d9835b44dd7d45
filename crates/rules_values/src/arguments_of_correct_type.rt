//! The value of each argument conforms to the argument's type (GraphQL, October 2021, section 5.6.1).

ghost use Rattle.std.specs.Prelude.{◌≡◌, IfOk, OnOk, OnErr, string_bytes};
ghost use Rattle.language_values.specs.ValuesPrinted.{printed_value};
ghost use Rattle.walk.specs.ContextState.{typing};
ghost use Rattle.walk.specs.Entering.{everywhere, given, relating_step};
ghost use Rattle.walk.specs.Rule.{always, any_value, Appended};
ghost use Rattle.walk.specs.Step.{KeepsPlace};
ghost use Rattle.walk.proofs.Entering.{relating_keeps};
ghost use Rattle.rules_values.specs.ArgumentsOfCorrectTypeLaws.{arguments_right};
ghost use Rattle.rules_values.specs.GivenLaws.{given_silent};
ghost use Rattle.rules_values.specs.ArgumentsOfCorrectType.{HasRightValue, wrong_argument_message, wrong_arguments};
ghost use Rattle.rules_values.specs.Faults.{reported};

use crate::faults::fault_at;
use language_types::error::OutOfMemory;
use language_types::position::Spanning;
use language_values::value::InputValue;
use meta::check::CheckedScalar;
use std::alloc::{AllocError, Global};
use walk::{Criterion, Event, Fresh, Machine, Rule, SettledRule, ValidatorContext, Visitor};

/// Reports each argument's value that does not conform to its type, at the value's start. The type is that of the first
/// argument of the name which the field or the directive defines; without such an argument nothing is reported.
///
/// A value that conforms takes no memory beyond what the checks of its scalars and enum values take.
#[derive(Drop)]
pub struct ArgumentsOfCorrectType {
    alloc: Global,
}

/// Makes the rule, for one document.
pub fn factory(alloc: Global) -> ArgumentsOfCorrectType
    ensures { ⟦<ArgumentsOfCorrectType as Fresh>⟧.fresh result }
{
    ArgumentsOfCorrectType { alloc }
}

impl Fresh for ArgumentsOfCorrectType {
    ghost fresh = { any_value };
}

impl<S: CheckedScalar> Machine<S, S::Check> for ArgumentsOfCorrectType {
    ghost step = { relating_step (wrong_arguments S.may_answer (printed_value S.text S.str_of)) };
}

impl<S: CheckedScalar> Rule<S, S::Check> for ArgumentsOfCorrectType {
    ghost allows = { always (given (wrong_arguments S.may_answer (printed_value S.text S.str_of))) };

    ghost keeps = { relating_keeps (wrong_arguments S.may_answer (printed_value S.text S.str_of)) };
}

impl<S: CheckedScalar> Criterion<S, S::Check> for ArgumentsOfCorrectType {
    ghost finds_nothing = { everywhere (λ scope o. HasRightValue S.may_answer scope.schema o.node o.types.input) };
}

impl<S: CheckedScalar> SettledRule<S, S::Check> for ArgumentsOfCorrectType {
    ghost silent = { given_silent (wrong_arguments S.may_answer (printed_value S.text S.str_of))
        (λ scope o. HasRightValue S.may_answer scope.schema o.node o.types.input)
        (arguments_right S.may_answer (printed_value S.text S.str_of) S.one_answer) };
}

impl<'a, S: CheckedScalar> Visitor<'a, S> for ArgumentsOfCorrectType {
    fn on(
        &mut self,
        ctx: &mut ValidatorContext<'a, S>,
        event: &Event<'a, S>,
    ) -> Result<(), OutOfMemory> {
        if let Event::EnterArgument(argument) = event {
            report(self.alloc, ctx, argument)?;
        }
        Ok(())
    }
}

// Reports the value of an argument, if it has a fault.
fn report<'a, S: CheckedScalar>(
    alloc: Global,
    ctx: &mut ValidatorContext<'a, S>,
    argument: &(Spanning<&str>, Spanning<InputValue<S>>),
) -> Result<(), OutOfMemory>
    ensures ok { OnOk result (Appended
        (reported S.may_answer (printed_value S.text S.str_of) ctx.old.schema
        (wrong_argument_message argument.now.0.item.now) (typing ctx.old).input argument.now.1) ctx.old ctx.new) }
    ensures err { OnErr result (KeepsPlace ctx.old ctx.new) }
{
    if let Some(written) = ctx.current_input_type_literal() {
        let value = &argument.1;
        if let Some(fault) = fault_at(alloc, ctx, written, &value.item)? {
            let message = error_message(alloc, argument.0.item, fault.as_str())?;
            ctx.report_error(message.as_str(), &[value.span.start])?;
        }
    }
    Ok(())
}

fn error_message(alloc: Global, name: &str, fault: &str) -> Result<String, AllocError>
    ensures { IfOk result (λ message. string_bytes message ≡ wrong_argument_message name.now fault.now) }
{
    format!(in alloc; "Invalid value for argument \"{name}\", reason: {fault}")
}
