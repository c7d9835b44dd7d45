//! The errors of a document, by the rules of the schema's dialect.
ghost use Rattle.std.specs.Prelude.{IfOk, OnOk, true};
ghost use Rattle.answers.specs.Answers.{AreErrorsOf};
ghost use Rattle.walk.specs.ContextState.{IsMadeFor};
ghost use Rattle.walk.specs.Rule.{AppendsAllowed};
ghost use Rattle.validation.specs.RootRules.{introspection};

use crate::choices::Choices;
use crate::rules::AnswerRules;
use graphql_reader::SourceScalar;
use language::error::OutOfMemory;
use schema::model::SchemaType;
use std::alloc::Global;
use validation::dialects::clean_by_each_dialect;
use validation::rules::disable_introspection;
use validation::{Definition, visit_dialect_rules};
use walk::{MultiVisitorNil, RuleError, ValidatorContext, visit_rules};

/// The errors of a document in ascending order, as far as they are chosen.
///
/// # Errors
///
/// Out of memory.
pub fn errors_of(
    alloc: Global,
    schema: &SchemaType<SourceScalar>,
    document: &[Definition<'_, SourceScalar>],
    choices: Choices,
) -> Result<Vec<RuleError>, OutOfMemory>
    ensures { IfOk result
        (λ errors. AreErrorsOf ⟦<SourceScalar as AnswerRules>⟧.rules choices schema.now document.now errors.items) }
{
    clean_by_each_dialect::<SourceScalar>();
    let mut ctx = ValidatorContext::new(alloc, schema, document)?;
    ctx.set_limit(choices.max_errors);
    visit_dialect_rules(&mut ctx, document)?;
    report_introspection(&mut ctx, document, choices.is_closed)?;
    ctx.into_errors()
}

// Reports fields that ask for the schema, where introspection is closed.
fn report_introspection<'a>(
    ctx: &mut ValidatorContext<'a, SourceScalar>,
    document: &'a [Definition<'_, SourceScalar>],
    is_closed: bool,
) -> Result<(), OutOfMemory>
    ensures { OnOk result (IsMadeFor ctx.old document.now
        → AppendsAllowed (introspection is_closed) document.now ctx.old ctx.new) }
{
    if is_closed {
        return visit_introspection(ctx, document);
    }
    Ok(())
}

// Reports fields that ask for the schema.
fn visit_introspection<'a>(
    ctx: &mut ValidatorContext<'a, SourceScalar>,
    document: &'a [Definition<'_, SourceScalar>],
) -> Result<(), OutOfMemory>
    ensures { OnOk result (IsMadeFor ctx.old document.now
        → AppendsAllowed (introspection true) document.now ctx.old ctx.new) }
{
    let mut rule = MultiVisitorNil.with_rule(disable_introspection::factory(ctx.allocator()));
    visit_rules(&mut rule, ctx, document)?;
    Ok(())
}
