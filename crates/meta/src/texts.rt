//! Texts of metadata.
ghost use Rattle.std.specs.Prelude.{◌≡◌, IfOk, IsOk, None, map, option_map, string_bytes, option_copied};
ghost use Rattle.language_types.specs.Types.{shape};

use language_types::error::OutOfMemory;
use language_types::types::Type;
use std::alloc::Global;

/// The text, if there is one.
pub fn as_text(text: &Option<String>) -> Option<&str>
    ensures { option_copied result ≡ option_map string_bytes text.now }
{
    match text {
        Some(kept) => Some(kept.as_str()),
        None => None,
    }
}

/// A copy of the text, if there is one.
///
/// # Errors
///
/// Out of memory; never if there is no text.
pub fn copy_text(alloc: Global, text: Option<&str>) -> Result<Option<String>, OutOfMemory>
    ensures value { IfOk result (λ t. option_map string_bytes t ≡ option_copied text.entry) }
    ensures succeeds { text.entry ≡ None → IsOk result }
{
    match text {
        Some(given) => Ok(Some(String::from_str(alloc, given)?)),
        None => Ok(None),
    }
}

/// The names of the types, in order, whatever their modifiers.
///
/// # Errors
///
/// Out of memory.
pub fn innermost_names(alloc: Global, types: &[Type]) -> Result<Vec<String>, OutOfMemory>
    ensures { IfOk result (λ v. map string_bytes v.items ≡ map (λ t. (shape t).name) types.now) }
{
    let mut names = Vec::new(alloc);
    for t in types {
        names.push(String::from_str(alloc, t.innermost_name())?)?;
    }
    Ok(names)
}
