//! Texts of messages.

ghost use Rattle.std.specs.Prelude.{◌≡◌, ◌++◌, IfOk, string_bytes};

use std::alloc::{AllocError, Global};

/// Puts a name between two texts.
///
/// # Errors
///
/// Out of memory.
pub fn between(alloc: Global, before: &str, name: &str, after: &str) -> Result<String, AllocError>
    ensures { IfOk result (λ message. string_bytes message ≡ (before.now ++ name.now) ++ after.now) }
{
    format!(in alloc; "{before}{name}{after}")
}
