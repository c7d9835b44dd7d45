//! The messages of faults.
ghost use Rattle.std.specs.Prelude.{◌≡◌, ◌++◌, IfOk, codes, string_bytes};
ghost use Rattle.language_types.specs.Types.{borrowed_shape, printed};
ghost use Rattle.language_values.specs.ValuesPrinted.{printed_value};
ghost use Rattle.variable_values.specs.Faults.{here, unknown_field, under};
ghost use Rattle.variable_values.specs.Messages.{required_text, told_after};
ghost use Rattle.variable_values.specs.Places.{before};
ghost use Rattle.variable_values.specs.Texts.{null_text, length_text, scalar_text, list_text, object_text, enum_text};
ghost use Rattle.variable_values.specs.Texts.{no_name_text, no_object_text, input_text};

use crate::place::Place;
use language::scalar::ScalarValue;
use language::types::BorrowedType;
use language::value::InputValue;
use std::alloc::{AllocError, Global};

/// The message for a missing or null value of a variable whose type is never null.
///
/// # Errors
///
/// Out of memory.
pub fn required_message(
    alloc: Global,
    variable: &str,
    required: BorrowedType<'_>,
) -> Result<String, AllocError>
    ensures { IfOk result (λ t. string_bytes t ≡ required_text variable.now (borrowed_shape required.entry)) }
{
    format!(in alloc; "Variable \"${variable}\" of required type \"{required}\" was not provided.")
}

/// The message for null where the type is never null.
///
/// # Errors
///
/// Out of memory.
pub fn null_message(
    alloc: Global,
    place: &Place<'_>,
    expected: BorrowedType<'_>,
) -> Result<String, AllocError>
    ensures { IfOk result (λ t. string_bytes t
        ≡ told_after (before place.now) (here (null_text (printed (borrowed_shape expected.entry))))) }
{
    format!(in alloc; "{place}Expected \"{expected}\", found null.")
}

/// The message for a list of another length than the expected one.
///
/// # Errors
///
/// Out of memory.
pub fn length_message(
    alloc: Global,
    place: &Place<'_>,
    expected: usize,
    found: usize,
) -> Result<String, AllocError>
    ensures { IfOk result (λ t. string_bytes t ≡ told_after (before place.now) (here (length_text expected found))) }
{
    format!(in alloc; "{place}Expected list of {expected} elements, found {found} elements.")
}

/// The message for a value that the check of a scalar refuses.
///
/// # Errors
///
/// Out of memory.
pub fn scalar_message<S: ScalarValue>(
    alloc: Global,
    place: &Place<'_>,
    name: &str,
    value: &InputValue<S>,
    why: &str,
) -> Result<String, AllocError>
    ensures { IfOk result (λ t. string_bytes t
        ≡ told_after (before place.now)
        (here (scalar_text name.now (printed_value S.text S.str_of value.now) why.now))) }
{
    format!(in alloc; "{place}Expected input scalar `{name}`. Got: `{value}`. Details: {why}.")
}

/// The message for a value that the check of an input object refuses.
///
/// # Errors
///
/// Out of memory.
pub fn input_message<S: ScalarValue>(
    alloc: Global,
    place: &Place<'_>,
    name: &str,
    value: &InputValue<S>,
    why: &str,
) -> Result<String, AllocError>
    ensures { IfOk result (λ t. string_bytes t
        ≡ told_after (before place.now)
        (here (input_text name.now (printed_value S.text S.str_of value.now) why.now))) }
{
    format!(in alloc; "{place}Expected input of type `{name}`. Got: `{value}`. Details: {why}.")
}

/// The message for a list that stands for a scalar.
///
/// # Errors
///
/// Out of memory.
pub fn list_message(alloc: Global, place: &Place<'_>, name: &str) -> Result<String, AllocError>
    ensures { IfOk result (λ t. string_bytes t ≡ told_after (before place.now) (here (list_text name.now))) }
{
    format!(in alloc; "{place}Expected \"{name}\", found list.")
}

/// The message for an object that stands for a scalar.
///
/// # Errors
///
/// Out of memory.
pub fn object_message(alloc: Global, place: &Place<'_>, name: &str) -> Result<String, AllocError>
    ensures { IfOk result (λ t. string_bytes t ≡ told_after (before place.now) (here (object_text name.now))) }
{
    format!(in alloc; "{place}Expected \"{name}\", found object.")
}

/// The message for a name that is not a value of the enum.
///
/// # Errors
///
/// Out of memory.
pub fn enum_message(alloc: Global, place: &Place<'_>, name: &str) -> Result<String, AllocError>
    ensures { IfOk result (λ t. string_bytes t ≡ told_after (before place.now) (here (enum_text name.now))) }
{
    format!(in alloc; "{place}Invalid value for enum \"{name}\".")
}

/// The message for a value that is neither a string nor an enum value, where an enum is expected.
///
/// # Errors
///
/// Out of memory.
pub fn no_name_message(alloc: Global, place: &Place<'_>, name: &str) -> Result<String, AllocError>
    ensures { IfOk result (λ t. string_bytes t ≡ told_after (before place.now) (here (no_name_text name.now))) }
{
    format!(in alloc; "{place}Expected \"{name}\", found not a string or enum.")
}

/// The message for a value that is not an object, where an input object is expected.
///
/// # Errors
///
/// Out of memory.
pub fn no_object_message(alloc: Global, place: &Place<'_>, name: &str) -> Result<String, AllocError>
    ensures { IfOk result (λ t. string_bytes t ≡ told_after (before place.now) (here (no_object_text name.now))) }
{
    format!(in alloc; "{place}Expected \"{name}\", found not an object.")
}

/// The message for a key that no input field has.
///
/// # Errors
///
/// Out of memory.
pub fn unknown_message(alloc: Global, place: &Place<'_>, key: &str) -> Result<String, AllocError>
    ensures { IfOk result (λ t. string_bytes t ≡ told_after (before place.now) (unknown_field key.now)) }
{
    told_of_key(alloc, place, key)
}

fn told_of_key(alloc: Global, place: &Place<'_>, key: &str) -> Result<String, AllocError>
    ensures { IfOk result (λ t. string_bytes t ≡ before place.now
        ++ (codes "In field \"" ++ (key.now ++ codes "\": Unknown field."))) }
{
    format!(in alloc; "{place}In field \"{key}\": Unknown field.")
}
