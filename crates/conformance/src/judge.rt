//! The errors that this repository's code reports of a document.
ghost use Rattle.std.specs.Prelude.{◌≡◌, IfOk, string_bytes};
ghost use Rattle.conformance.specs.Told.{TellsConflicts, TellsErrors, error_lines};

use crate::asked::told_of_text;
use crate::variables::errors_of_values;
use sample_reader::{ReadError, read_document};
use samples::build::Checks;
use samples::{boxes, pets};
use std::alloc::{AllocError, Global};
use validation::rules::overlapping_fields_can_be_merged;
use validation::walk::visit_rules;
use validation::{
    DefaultScalarValue, Definition, DialectRules, MultiVisitorNil, RootNode, RuleError,
    ScalarValue, SchemaType, ValidatorContext,
};

/// Appends the errors of a document, one per line, or where it can't be parsed. Whether there is such a kind of rows.
///
/// # Errors
///
/// Out of memory.
pub fn tell_errors(
    alloc: Global,
    checks: Checks,
    kind: &str,
    text: &str,
    came: &mut String,
) -> Result<bool, AllocError> {
    match errors_of_kind(alloc, checks, kind, text) {
        Ok(None) => return Ok(false),
        Ok(Some(errors)) => came.push_str(errors.as_str())?,
        Err(ReadError::Fault(place)) => writeln!(came, "unread from {place}")?,
        Err(ReadError::OutOfMemory) => came.push_str("out of memory\n")?,
    }
    Ok(true)
}

// The sample types are accepted, so only out of memory refuses them.
fn errors_of_kind(
    alloc: Global,
    checks: Checks,
    kind: &str,
    text: &str,
) -> Result<Option<String>, ReadError> {
    let (sample, mode) = kind.split_once(' ').unwrap_or((kind, ""));
    let types = match sample {
        "pets" => pets::types(alloc, checks)?,
        "boxes" => boxes::types(alloc, checks)?,
        _ => return Ok(None),
    };
    match SchemaType::<DefaultScalarValue>::new(
        alloc,
        types,
        "QueryRoot",
        "_EmptyMutation",
        "_EmptySubscription",
    ) {
        Ok(schema) => errors_by_mode(alloc, RootNode::new(schema), mode, text),
        Err(_) => Err(ReadError::OutOfMemory),
    }
}

// Whether introspection is disabled makes the root node.
fn errors_by_mode(
    alloc: Global,
    root: RootNode,
    mode: &str,
    text: &str,
) -> Result<Option<String>, ReadError> {
    let root = match mode {
        "closed" => root.disable_introspection(),
        "reopened" => root.disable_introspection().enable_introspection(),
        _ => root,
    };
    Ok(Some(told_by_mode(alloc, &root, mode, text)?))
}

// By every rule; by the rule `overlapping_fields_can_be_merged` alone; by the check of variable values; or what is
// asked.
fn told_by_mode(
    alloc: Global,
    root: &RootNode,
    mode: &str,
    text: &str,
) -> Result<String, ReadError> {
    match mode {
        "" | "closed" | "reopened" => errors_of_text(alloc, root, text.as_bytes()),
        "merge" => conflicts_of_text(alloc, &root.schema, text.as_bytes()),
        "variables" => errors_of_values(alloc, &root.schema, text),
        _ => told_of_text(alloc, &root.schema, mode, text),
    }
}

fn errors_of_text(alloc: Global, root: &RootNode, text: &[u8]) -> Result<String, ReadError> {
    let document = read_document(alloc, text)?;
    errors_of(alloc, root, document.as_slice())
}

// The errors of all rules, with `disable_introspection` if introspection is disabled.
fn errors_of(
    alloc: Global,
    root: &RootNode,
    document: &[Definition<'_, DefaultScalarValue>],
) -> Result<String, ReadError>
    ensures { IfOk result
        (λ text. TellsErrors (⟦<DefaultScalarValue as DialectRules<'static>>⟧.rules_of root.now.schema.dialect)
        root.now.max_errors root.now.introspection_disabled root.now.schema document.now (string_bytes text)) }
{
    let errors = root.validate(alloc, document)?;
    let text = lines_of(alloc, errors.as_slice())?;
    Ok(text)
}

fn conflicts_of_text(
    alloc: Global,
    schema: &SchemaType<DefaultScalarValue>,
    text: &[u8],
) -> Result<String, ReadError> {
    let document = read_document(alloc, text)?;
    conflicts_of(alloc, schema, document.as_slice())
}

// The errors of the rule `overlapping_fields_can_be_merged` alone.
fn conflicts_of<'a>(
    alloc: Global,
    schema: &'a SchemaType<DefaultScalarValue>,
    document: &'a [Definition<'_, DefaultScalarValue>],
) -> Result<String, ReadError>
    ensures { IfOk result (λ text. TellsConflicts ⟦<DefaultScalarValue as ScalarValue>⟧.eq schema.now document.now
        (string_bytes text)) }
{
    let mut ctx = ValidatorContext::new(alloc, schema, document)?;
    let rule = overlapping_fields_can_be_merged::factory(alloc);
    let mut rules = MultiVisitorNil.with_rule(rule);
    visit_rules(&mut rules, &mut ctx, document)?;
    let errors = ctx.into_errors()?;
    let text = lines_of(alloc, errors.as_slice())?;
    Ok(text)
}

/// The errors, one per line.
///
/// # Errors
///
/// Out of memory.
pub fn lines_of(alloc: Global, errors: &[RuleError]) -> Result<String, ReadError>
    ensures { IfOk result (λ s. string_bytes s ≡ error_lines errors.now) }
{
    let mut text = String::new(alloc);
    for error in errors {
        writeln!(text, "{error}")?;
    }
    Ok(text)
}
