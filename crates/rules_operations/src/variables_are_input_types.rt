//! The type of a variable is an input type (GraphQL, October 2021, section 5.8.2).

ghost use Rattle.std.specs.Prelude.{◌≡◌, IfOk, OnOk, OnErr, option_copied, string_bytes};
ghost use Rattle.language_types.specs.Types.{shape};
ghost use Rattle.schema.specs.Catalog.{type_in};
ghost use Rattle.walk.specs.ContextState.{with_errors};
ghost use Rattle.walk.specs.Entering.{everywhere, finding_step, found};
ghost use Rattle.walk.specs.Rule.{always, any_value, exactly};
ghost use Rattle.walk.specs.RuleLaws.{everywhere_silent};
ghost use Rattle.walk.specs.Step.{KeepsPlace};
ghost use Rattle.walk.proofs.Entering.{finding_keeps};
ghost use Rattle.rules_operations.specs.VariablesAreInputTypes.{non_input, non_input_message, non_input_variables};
ghost use Rattle.rules_operations.specs.VariablesAreInputTypes.{HasInputType};
ghost use Rattle.rules_operations.specs.VariablesAreInputTypesLaws.{none_non_input};

use language::error::OutOfMemory;
use language::position::Spanning;
use language::tree::VariableDefinition;
use language::types::Type;
use meta::MetaTypeOf;
use meta::check::CheckedScalar;
use rules_support::texts::between;
use schema::model::SchemaTypeOf;
use std::alloc::{AllocError, Global};
use walk::{Criterion, Event, Fresh, Machine, Rule, SettledRule, ValidatorContext, Visitor};

/// Reports each variable whose innermost type is an object, an interface or a union, at its type.
///
/// The name of the struct is juniper's.
#[derive(Drop)]
pub struct UniqueVariableNames {
    alloc: Global,
}

/// Makes the rule, for one document.
pub fn factory(alloc: Global) -> UniqueVariableNames
    ensures { ⟦<UniqueVariableNames as Fresh>⟧.fresh result }
{
    UniqueVariableNames { alloc }
}

impl Fresh for UniqueVariableNames {
    ghost fresh = { any_value };
}

impl<S, C> Machine<S, C> for UniqueVariableNames {
    ghost step = { finding_step non_input_variables };
}

impl<S, C> Rule<S, C> for UniqueVariableNames {
    ghost allows = { always (exactly (found non_input_variables)) };

    ghost keeps = { finding_keeps non_input_variables };
}

impl<S, C> Criterion<S, C> for UniqueVariableNames {
    ghost finds_nothing = { everywhere (λ scope o. HasInputType scope.schema o.node) };
}

impl<S, C> SettledRule<S, C> for UniqueVariableNames {
    ghost silent = { everywhere_silent non_input_variables
        (λ scope o. HasInputType scope.schema o.node) none_non_input };
}

impl<'a, S: CheckedScalar> Visitor<'a, S> for UniqueVariableNames {
    fn on(
        &mut self,
        ctx: &mut ValidatorContext<'a, S>,
        event: &Event<'a, S>,
    ) -> Result<(), OutOfMemory> {
        if let Event::EnterVariableDefinition(definition) = event {
            report_non_input(self.alloc, ctx, definition)?;
        }
        Ok(())
    }
}

// Reports a variable whose type is known and no input type.
fn report_non_input<'a, S: CheckedScalar>(
    alloc: Global,
    ctx: &mut ValidatorContext<'a, S>,
    definition: &(Spanning<&str>, VariableDefinition<'_, S>),
) -> Result<(), OutOfMemory>
    ensures ok { OnOk result (ctx.new ≡ with_errors ctx.old (non_input ctx.old.schema definition.now)) }
    ensures err { OnErr result (KeepsPlace ctx.old ctx.new) }
{
    let var_type = &definition.1.var_type;
    if let Some(t) = innermost_type(ctx.schema, &var_type.item) {
        if !t.is_input() {
            let message = error_message(alloc, definition.0.item, &var_type.item)?;
            ctx.report_error(message.as_str(), &[var_type.span.start])?;
        }
    }
    Ok(())
}

// The type of the innermost name, where it is known.
fn innermost_type<'a, S, C>(
    schema: &'a SchemaTypeOf<S, C>,
    var_type: &Type,
) -> Option<&'a MetaTypeOf<S, C>>
    ensures { option_copied result ≡ type_in (shape var_type.now).name schema.now }
{
    schema.concrete_type_by_name(var_type.innermost_name())
}

fn error_message(alloc: Global, name: &str, var_type: &Type) -> Result<String, AllocError>
    ensures { IfOk result (λ message. string_bytes message ≡ non_input_message name.now (shape var_type.now)) }
{
    let words = between(
        alloc,
        "Variable \"",
        name,
        "\" cannot be of non-input type \"",
    )?;
    let printed = format!(in alloc; "{var_type}")?;
    between(alloc, words.as_str(), printed.as_str(), "\"")
}
