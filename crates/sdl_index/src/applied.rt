//! The directives of a definition that have a meaning: `@deprecated` and `@specifiedBy` (sections 3.13.3 and 3.13.4).
use graphql_reader::SourceScalar;
use language::error::OutOfMemory;
use language::position::Spanning;
use language::tree::Directive;
use language::value::InputValue;
use meta::deprecation::DeprecationStatus;
use meta::texts::copy_text;
use std::alloc::Global;

type Applied<'a> = Option<Vec<Spanning<Directive<'a, SourceScalar>>>>;

/// Whether a definition with these directives is deprecated, and for which reason. The default reason is that of
/// section 3.13.3.
///
/// # Errors
///
/// Out of memory.
pub fn deprecation(
    alloc: Global,
    directives: &Applied<'_>,
) -> Result<DeprecationStatus, OutOfMemory> {
    let Some(directive) = first_named(directives, "deprecated") else {
        return Ok(DeprecationStatus::Current);
    };
    let reason = match value_of(directive, "reason") {
        Some(value) => text_of(value),
        None => Some("No longer supported"),
    };
    Ok(DeprecationStatus::Deprecated(copy_text(alloc, reason)?))
}

/// The URL of `@specifiedBy`, if it is among these directives.
pub fn specified_by<'n>(directives: &'n Applied<'_>) -> Option<&'n str> {
    match first_named(directives, "specifiedBy") {
        Some(directive) => match value_of(directive, "url") {
            Some(value) => text_of(value),
            None => None,
        },
        None => None,
    }
}

// The first directive with this name.
fn first_named<'n, 'a>(
    directives: &'n Applied<'a>,
    name: &str,
) -> Option<&'n Directive<'a, SourceScalar>> {
    let Some(directives) = directives else {
        return None;
    };
    for directive in directives.as_slice() {
        if directive.item.name.item == name {
            return Some(&directive.item);
        }
    }
    None
}

// The value of the argument with this name.
fn value_of<'n>(
    directive: &'n Directive<'_, SourceScalar>,
    name: &str,
) -> Option<&'n InputValue<SourceScalar>> {
    let Some(arguments) = &directive.arguments else {
        return None;
    };
    match arguments.item.get(name) {
        Some(value) => Some(&value.item),
        None => None,
    }
}

// The text of a string value.
fn text_of(value: &InputValue<SourceScalar>) -> Option<&str> {
    match value {
        InputValue::Scalar(SourceScalar::String(text)) => Some(text.as_str()),
        _ => None,
    }
}
