//! Values of variables, checked after a validation that reported nothing, with no other check of the operation.

ghost use Rattle.std.specs.Prelude.{◌≡◌, IfNone, IfOk, IfSome, option_copied};
ghost use Rattle.validation_examples.specs.ValuesAfter.{FaultsAfter, NothingToJudge, first_operation};

use language::error::OutOfMemory;
use language::position::Spanning;
use language::tree::{Definition, Operation};
use language::value::Variables;
use meta::check::CheckedScalar;
use schema::model::SchemaType;
use std::alloc::Global;
use validation::laws::clean_documents;
use validation::rules::visit_all_rules;
use validation::{AllRules, RuleError, ValidatorContext, validate_input_values};

/// The faults of the values for the first operation of a document, if the document has no errors and begins with an
/// operation.
///
/// # Errors
///
/// Out of memory.
pub fn values_after<'a, 't, S: CheckedScalar>(
    alloc: Global,
    schema: &'a SchemaType<S>,
    document: &'a [Definition<'t, S>],
    values: &Variables<S>,
) -> Result<Option<Vec<RuleError>>, OutOfMemory>
    ensures judged { IfOk result
        (λ answer. IfSome answer (λ errors. FaultsAfter ⟦<S as AllRules<'a>>⟧.rules S.may_answer S.text S.str_of
        schema.now document.now values.now errors.items)) }
    ensures nothing { IfOk result
        (λ answer. IfNone answer (NothingToJudge ⟦<S as AllRules<'a>>⟧.rules S.may_answer S.text S.str_of
        schema.now document.now)) }
{
    // The types of the variables of a document without errors are input types.
    clean_documents::<S>();
    let mut ctx = ValidatorContext::new(alloc, schema, document)?;
    visit_all_rules(&mut ctx, document)?;
    if ctx.has_errors() {
        return Ok(None);
    }
    match first_operation(document) {
        Some(operation) => { Ok(Some(validate_input_values(alloc, values, operation, schema)?)) }
        None => Ok(None),
    }
}

// The operation that a document begins with.
fn first_operation<'d, 't, S>(
    document: &'d [Definition<'t, S>],
) -> Option<&'d Spanning<Operation<'t, S>>>
    ensures { option_copied result ≡ first_operation document.now }
{
    match document.first() {
        Some(Definition::Operation(operation)) => Some(operation),
        Some(Definition::Fragment(_)) | None => None,
    }
}
