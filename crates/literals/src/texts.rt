//! The texts of faults.
ghost use Rattle.std.specs.Prelude.{◌≡◌, ◌++◌, IfOk, List, OnOk, codes, map, string_bytes, ℕ};
ghost use Rattle.language_values.specs.ValuesPrinted.{printed_value, comma_separated};
ghost use Rattle.literals.specs.Expected.{expected_type};
ghost use Rattle.literals.specs.Judged.{printed_name, printed_type};
ghost use Rattle.literals.specs.Texts.{null_text, enum_text, value_text, no_check_text, list_text, no_object_text};
ghost use Rattle.literals.specs.Texts.{field_text, unknown_text, length_text, missing_text, quoted};

use crate::expected::{Expected, name_text};
use language_values::scalar::ScalarValue;
use language_values::value::InputValue;
use meta::kinds::MetaTypeOf;
use std::alloc::{AllocError, Global};

/// The text for a null where the type is non-null.
///
/// # Errors
///
/// Out of memory.
pub fn null_fault<S, C>(alloc: Global, at: Expected<'_, '_, S, C>) -> Result<String, AllocError>
    ensures { IfOk result (λ t. string_bytes t ≡ null_text (printed_type (expected_type at.entry))) }
{
    format!(in alloc; "\"null\" specified for not nullable type \"{at}\"")
}

/// The text for a value that is not one of the enum.
///
/// # Errors
///
/// Out of memory.
pub fn enum_fault<S: ScalarValue, C>(
    alloc: Global,
    meta: &MetaTypeOf<S, C>,
    value: &InputValue<S>,
) -> Result<String, AllocError>
    ensures { IfOk result (λ t. string_bytes t
        ≡ enum_text (printed_value S.text S.str_of value.now) (printed_name meta.now)) }
{
    let name = name_text(meta);
    format!(in alloc; "Invalid value \"{value}\" for enum \"{name}\"")
}

/// The text for a value that the check of its type refused.
///
/// # Errors
///
/// Out of memory.
pub fn value_fault<S: ScalarValue, C>(
    alloc: Global,
    meta: &MetaTypeOf<S, C>,
    value: &InputValue<S>,
) -> Result<String, AllocError>
    ensures { IfOk result (λ t. string_bytes t
        ≡ value_text (printed_value S.text S.str_of value.now) (printed_name meta.now)) }
{
    let name = name_text(meta);
    format!(in alloc; "Invalid value \"{value}\" for type \"{name}\"")
}

/// The text for a value of a type without a check.
///
/// # Errors
///
/// Out of memory.
pub fn no_check_fault<S, C>(alloc: Global, meta: &MetaTypeOf<S, C>) -> Result<String, AllocError>
    ensures { IfOk result (λ t. string_bytes t ≡ no_check_text (printed_name meta.now)) }
{
    let name = name_text(meta);
    format!(in alloc; "Parser error for \"{name}\": no parser present")
}

/// The text for a list where the type is not a list.
///
/// # Errors
///
/// Out of memory.
pub fn list_fault(alloc: Global) -> Result<String, AllocError>
    ensures { IfOk result (λ t. string_bytes t ≡ list_text) }
{
    String::from_str(alloc, "Input lists are not literals")
}

/// The text for an object where the type is not an input object.
///
/// # Errors
///
/// Out of memory.
pub fn no_object_fault<S, C>(alloc: Global, meta: &MetaTypeOf<S, C>) -> Result<String, AllocError>
    ensures { IfOk result (λ t. string_bytes t ≡ no_object_text (printed_name meta.now)) }
{
    let name = name_text(meta);
    format!(in alloc; "\"{name}\" is not an input object")
}

/// Adds the text that stands before that of the fault of an input field.
///
/// # Errors
///
/// Out of memory. Some of it may have been added.
pub fn add_field_start<S, C>(
    meta: &MetaTypeOf<S, C>,
    key: &str,
    text: &mut String,
) -> Result<(), AllocError>
    ensures { (fault : List ℕ) → OnOk result (string_bytes text.new ++ fault
        ≡ string_bytes text.old ++ field_text (printed_name meta.now) key.now fault) }
{
    let name = name_text(meta);
    write!(text, "Error on \"{name}\" field \"{key}\": ")
}

/// The text for a key that the input object does not have.
///
/// # Errors
///
/// Out of memory.
pub fn unknown_fault<S, C>(
    alloc: Global,
    meta: &MetaTypeOf<S, C>,
    key: &str,
) -> Result<String, AllocError>
    ensures { IfOk result (λ t. string_bytes t ≡ unknown_text (printed_name meta.now) key.now) }
{
    let name = name_text(meta);
    format!(in alloc; "Field \"{key}\" does not exist on type \"{name}\"")
}

/// The text for a list of another length than expected.
///
/// # Errors
///
/// Out of memory.
pub fn length_fault<S: ScalarValue>(
    alloc: Global,
    expected: usize,
    value: &InputValue<S>,
    found: usize,
) -> Result<String, AllocError>
    ensures { IfOk result (λ t. string_bytes t ≡ length_text expected (printed_value S.text S.str_of value.now) found) }
{
    format!(in alloc; "Expected list of length {expected}, but \"{value}\" has length {found}")
}

/// The text for an object without these required input fields.
///
/// # Errors
///
/// Out of memory.
pub fn missing_fields_fault<S, C>(
    alloc: Global,
    meta: &MetaTypeOf<S, C>,
    names: &[&str],
) -> Result<String, AllocError>
    ensures { IfOk result (λ t. string_bytes t ≡ codes "\"" ++ (printed_name meta.now ++ (codes "\" is missing fields: "
        ++ comma_separated (map (λ n. quoted n.now) names.now)))) }
{
    let name = name_text(meta);
    let list = quoted_list(alloc, names)?;
    format!(in alloc; "\"{name}\" is missing fields: {list}")
}

/// The names in quotes, separated by a comma and a space.
fn quoted_list(alloc: Global, names: &[&str]) -> Result<String, AllocError>
    ensures { IfOk result (λ t. string_bytes t ≡ comma_separated (map (λ n. quoted n.now) names.now)) }
{
    let mut list = String::new(alloc);
    let mut is_first = true;
    for name in names {
        list.push_str(if is_first { "\"" } else { ", \"" })?;
        list.push_str(*name)?;
        list.push_str("\"")?;
        is_first = false;
    }
    Ok(list)
}
