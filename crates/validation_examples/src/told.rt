//! What is reported of documents, as texts.

ghost use Rattle.std.specs.Prelude.{◌≡◌, IfOk, string_bytes};
ghost use Rattle.validation_examples.specs.Told.{TellsAll, TellsVisit, error_lines};

use language::error::OutOfMemory;
use language::tree::Definition;
use meta::check::CheckedScalar;
use schema::model::SchemaType;
use std::alloc::Global;
use validation::rules::visit_all_rules;
use validation::{AllRules, MultiVisitorNil, RuleError, ValidatorContext, Visitor, visit};

/// The errors, a line each.
///
/// # Errors
///
/// Out of memory.
pub fn lines(alloc: Global, errors: Vec<RuleError>) -> Result<String, OutOfMemory>
    ensures { IfOk result (λ told. string_bytes told ≡ error_lines errors.items) }
{
    let mut told = String::new(alloc);
    for error in errors {
        writeln!(told, "{error}")?;
    }
    Ok(told)
}

/// The errors of a validation, a line each, and then the number of pairs that were compared.
///
/// # Errors
///
/// Out of memory.
pub fn told_by_all<'a, S: CheckedScalar>(
    alloc: Global,
    schema: &'a SchemaType<S>,
    document: &'a [Definition<'_, S>],
) -> Result<String, OutOfMemory>
    ensures { IfOk result (λ told. TellsAll ⟦<S as AllRules<'a>>⟧.rules schema.now document.now (string_bytes told)) }
{
    let mut ctx = ValidatorContext::new(alloc, schema, document)?;
    let compared = visit_all_rules(&mut ctx, document)?;
    let mut told = lines(alloc, ctx.into_errors()?)?;
    write!(told, "{compared}")?;
    Ok(told)
}

/// The errors of a rule alone, a line each.
///
/// # Errors
///
/// Out of memory, or an error of the rule.
pub fn told_by_one<'a, S: CheckedScalar, V: Visitor<'a, S> + Drop>(
    alloc: Global,
    schema: &'a SchemaType<S>,
    rule: V,
    document: &'a [Definition<'_, S>],
) -> Result<String, OutOfMemory>
    ensures { IfOk result (λ told. TellsVisit V.step rule schema.now document.now (string_bytes told)) }
{
    let mut ctx = ValidatorContext::new(alloc, schema, document)?;
    let mut rules = MultiVisitorNil.with(rule);
    visit(&mut rules, &mut ctx, document)?;
    lines(alloc, ctx.into_errors()?)
}
