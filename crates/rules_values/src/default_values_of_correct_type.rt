//! The default value of each variable conforms to the variable's type (GraphQL, October 2021, section 5.6.1). As in
//! juniper, only a variable whose type may be null has one.

ghost use Rattle.std.specs.Prelude.{◌≡◌, Some, IfOk, OnOk, OnErr, string_bytes};
ghost use Rattle.language_types.specs.Types.{is_never_null, printed, shape};
ghost use Rattle.language_values.specs.ValuesPrinted.{printed_value};
ghost use Rattle.walk.specs.Entering.{everywhere, given, relating_step};
ghost use Rattle.walk.specs.Rule.{always, any_value, Appended};
ghost use Rattle.walk.specs.Step.{KeepsPlace};
ghost use Rattle.walk.proofs.Entering.{relating_keeps};
ghost use Rattle.rules_values.specs.DefaultValuesOfCorrectTypeLaws.{defaults_right};
ghost use Rattle.rules_values.specs.GivenLaws.{given_silent};
ghost use Rattle.rules_values.specs.DefaultValuesOfCorrectType.{HasRightDefault, default_of, needless_default_message};
ghost use Rattle.rules_values.specs.DefaultValuesOfCorrectType.{wrong_default_message, wrong_defaults};
ghost use Rattle.rules_values.specs.Faults.{reported};

use crate::faults::fault_at;
use language_types::error::OutOfMemory;
use language_types::position::Spanning;
use language_types::types::Type;
use language_values::value::InputValue;
use meta::check::CheckedScalar;
use std::alloc::{AllocError, Global};
use walk::{Criterion, Event, Fresh, Machine, Rule, SettledRule, ValidatorContext, Visitor};

/// Reports each default value of a variable with a non-null type, and each that does not conform to a nullable type, at
/// the value's start. It skips nullable types whose name the schema does not know.
///
/// A value that conforms takes no memory beyond what the checks of its scalars and enum values take.
#[derive(Drop)]
pub struct DefaultValuesOfCorrectType {
    alloc: Global,
}

/// Makes the rule, for one document.
pub fn factory(alloc: Global) -> DefaultValuesOfCorrectType
    ensures { ⟦<DefaultValuesOfCorrectType as Fresh>⟧.fresh result }
{
    DefaultValuesOfCorrectType { alloc }
}

impl Fresh for DefaultValuesOfCorrectType {
    ghost fresh = { any_value };
}

impl<S: CheckedScalar> Machine<S, S::Check> for DefaultValuesOfCorrectType {
    ghost step = { relating_step (wrong_defaults S.may_answer (printed_value S.text S.str_of)) };
}

impl<S: CheckedScalar> Rule<S, S::Check> for DefaultValuesOfCorrectType {
    ghost allows = { always (given (wrong_defaults S.may_answer (printed_value S.text S.str_of))) };

    ghost keeps = { relating_keeps (wrong_defaults S.may_answer (printed_value S.text S.str_of)) };
}

impl<S: CheckedScalar> Criterion<S, S::Check> for DefaultValuesOfCorrectType {
    ghost finds_nothing = { everywhere (λ scope o. HasRightDefault S.may_answer scope.schema o.node) };
}

impl<S: CheckedScalar> SettledRule<S, S::Check> for DefaultValuesOfCorrectType {
    ghost silent = { given_silent (wrong_defaults S.may_answer (printed_value S.text S.str_of))
        (λ scope o. HasRightDefault S.may_answer scope.schema o.node)
        (defaults_right S.may_answer (printed_value S.text S.str_of) S.one_answer) };
}

impl<'a, S: CheckedScalar> Visitor<'a, S> for DefaultValuesOfCorrectType {
    fn on(
        &mut self,
        ctx: &mut ValidatorContext<'a, S>,
        event: &Event<'a, S>,
    ) -> Result<(), OutOfMemory> {
        if let Event::EnterVariableDefinition(definition) = event {
            if let Some(value) = &definition.1.default_value {
                let t = &definition.1.var_type.item;
                report(self.alloc, ctx, definition.0.item, t, value)?;
            }
        }
        Ok(())
    }
}

// Reports the default value of a variable, if it is needless or has a fault.
fn report<'a, S: CheckedScalar>(
    alloc: Global,
    ctx: &mut ValidatorContext<'a, S>,
    name: &str,
    t: &'a Type,
    value: &Spanning<InputValue<S>>,
) -> Result<(), OutOfMemory>
    ensures ok { OnOk result (Appended
        (default_of S.may_answer (printed_value S.text S.str_of) (is_never_null (shape t.now)) ctx.old.schema name.now
        (shape t.now) value.now) ctx.old ctx.new) }
    ensures err { OnErr result (KeepsPlace ctx.old ctx.new) }
{
    if is_never_null(t) {
        let message = needless_default_message(alloc, name, t)?;
        return ctx.report_error(message.as_str(), &[value.span.start]);
    }
    report_faulty_default(alloc, ctx, name, t, value)
}

/// Reports the default value of a variable of this name and type, if it has a fault.
///
/// # Errors
///
/// Out of memory, also in a check of a scalar or an enum. The types at hand stay.
pub fn report_faulty_default<'a, S: CheckedScalar>(
    alloc: Global,
    ctx: &mut ValidatorContext<'a, S>,
    name: &str,
    t: &'a Type,
    value: &Spanning<InputValue<S>>,
) -> Result<(), OutOfMemory>
    ensures ok { OnOk result (Appended
        (reported S.may_answer (printed_value S.text S.str_of) ctx.old.schema
        (wrong_default_message name.now (printed (shape t.now))) (Some (shape t.now)) value.now) ctx.old ctx.new) }
    ensures err { OnErr result (KeepsPlace ctx.old ctx.new) }
{
    if let Some(fault) = fault_at(alloc, ctx, t.as_borrowed(), &value.item)? {
        let message = wrong_default_message(alloc, name, t, fault.as_str())?;
        ctx.report_error(message.as_str(), &[value.span.start])?;
    }
    Ok(())
}

fn is_never_null(t: &Type) -> bool
    ensures { result ≡ is_never_null (shape t.now) }
{
    t.is_non_null()
}

fn needless_default_message(alloc: Global, name: &str, t: &Type) -> Result<String, AllocError>
    ensures { IfOk result (λ message. string_bytes message ≡
        needless_default_message name.now (printed (shape t.now))) }
{
    format!(in alloc;
        "Argument \"{name}\" has type \"{t}\" and is not nullable, so it can't have a default value"
    )
}

fn wrong_default_message(
    alloc: Global,
    name: &str,
    t: &Type,
    fault: &str,
) -> Result<String, AllocError>
    ensures { IfOk result (λ message. string_bytes message ≡
        wrong_default_message name.now (printed (shape t.now)) fault.now) }
{
    format!(in alloc;
        "Invalid default value for argument \"{name}\", expected type \"{t}\", reason: {fault}"
    )
}
