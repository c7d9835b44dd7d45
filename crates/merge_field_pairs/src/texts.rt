//! The texts for two fields that can't be merged: the reasons themselves, those below a field, and the error's message.
ghost use Rattle.std.specs.Prelude.{◌≡◌, IfOk, codes, map, string_bytes};
ghost use Rattle.language_types.specs.Types.{shape};
ghost use Rattle.merge_field_pairs.specs.Entries.{plain};
ghost use Rattle.merge_field_pairs.specs.Texts.{direct_text, names_text, arguments_text, types_text, nested_text};
ghost use Rattle.merge_field_pairs.specs.Texts.{joined, message_text};

use crate::direct::DirectReason;
use crate::entry::Entry;
use language::error::OutOfMemory;
use language::types::Type;
use std::alloc::Global;

/// The text of a reason for two fields, in their order; empty for types that are not both known.
///
/// # Errors
///
/// Out of memory.
pub fn reason_text<S, C>(
    alloc: Global,
    reason: DirectReason,
    left: &Entry<'_, S, C>,
    right: &Entry<'_, S, C>,
) -> Result<String, OutOfMemory>
    ensures { IfOk result (λ s. string_bytes s ≡ direct_text reason (plain left.now) (plain right.now)) }
{
    match reason {
        DirectReason::DifferentNames => {
            let (l, r) = (left.field, right.field);
            different_names(alloc, l.item.name.item, r.item.name.item)
        }
        DirectReason::DifferentArguments => different_arguments(alloc),
        DirectReason::DifferentTypes => match (left.metadata, right.metadata) {
            (Some(l), Some(r)) => different_types(alloc, &l.field_type, &r.field_type),
            _ => Ok(String::new(alloc)),
        },
    }
}

/// The text for two fields of different names.
///
/// # Errors
///
/// Out of memory.
pub fn different_names(alloc: Global, first: &str, second: &str) -> Result<String, OutOfMemory>
    ensures { IfOk result (λ s. string_bytes s ≡ names_text first.now second.now) }
{
    Ok(format!(in alloc; "{first} and {second} are different fields")?)
}

/// The text for two fields with different arguments.
///
/// # Errors
///
/// Out of memory.
pub fn different_arguments(alloc: Global) -> Result<String, OutOfMemory>
    ensures { IfOk result (λ s. string_bytes s ≡ arguments_text) }
{
    Ok(String::from_str(alloc, "they have differing arguments")?)
}

/// The text for two fields whose types conflict.
///
/// # Errors
///
/// Out of memory.
pub fn different_types(alloc: Global, first: &Type, second: &Type) -> Result<String, OutOfMemory>
    ensures { IfOk result (λ s. string_bytes s ≡ types_text (shape first.now) (shape second.now)) }
{
    Ok(format!(in alloc; "they return conflicting types {first} and {second}")?)
}

/// The text for two fields that conflict by the fields below them.
///
/// # Errors
///
/// Out of memory.
pub fn subfields_text(
    alloc: Global,
    response_name: &str,
    reason: &str,
) -> Result<String, OutOfMemory>
    ensures { IfOk result (λ s. string_bytes s ≡ nested_text response_name.now reason.now) }
{
    Ok(format!(in alloc; "subfields \"{response_name}\" conflict because {reason}")?)
}

/// Joins the texts of several conflicts below two fields.
///
/// # Errors
///
/// Out of memory.
pub fn joined_texts(alloc: Global, texts: &[String]) -> Result<String, OutOfMemory>
    ensures { IfOk result (λ s. string_bytes s ≡ joined (map string_bytes texts.now)) }
{
    Ok(texts.join(alloc, " and ")?)
}

/// The message of the error for two fields that can't be merged.
///
/// # Errors
///
/// Out of memory.
pub fn error_message(
    alloc: Global,
    response_name: &str,
    reason: &str,
) -> Result<String, OutOfMemory>
    ensures { IfOk result (λ s. string_bytes s ≡ message_text response_name.now reason.now) }
{
    Ok(format!(in alloc;
        "Fields \"{response_name}\" conflict because {reason}. Use different aliases on the fields to fetch both if this was intentional"
    )?)
}
