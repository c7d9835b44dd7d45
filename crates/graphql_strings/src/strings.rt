//! The values of strings and block strings (GraphQL, October 2021, section 2.9.4).
ghost use Rattle.std.specs.Prelude.{◌≡◌, ◌≤◌, length, ℕ, List, IfOk, IfErr, string_bytes};
ghost use Rattle.std.specs.List.{prefix_len};
ghost use Rattle.graphql_strings.specs.StringFaults.{IsFaultPlace};
ghost use Rattle.graphql_strings.specs.StringValues.{IsStringValue, IsRefused, is_plain};
ghost use Rattle.graphql_strings.specs.declared.strings.StringError.TheVariants.{OutOfMemory};

pub use crate::block_strings::block_string_value;
use crate::escapes::escape_at;
use crate::parts::{part, rest};
use std::alloc::{AllocError, Global};

/// Why a string has no value.
#[derive(Clone, Copy, Debug)]
pub enum StringError {
    /// The 0-based byte index between the quotes, and what was expected there.
    Escape(usize, &'static str),
    /// Out of memory.
    OutOfMemory,
}

impl From<AllocError> for StringError {
    ghost from_gives = { λ _ e. e ≡ OutOfMemory };

    fn from(_: AllocError) -> Self {
        StringError::OutOfMemory
    }
}

/// The value of a string, given the text between its quotes (section 2.9.4).
///
/// # Errors
///
/// An escape sequence is invalid, or out of memory.
pub fn string_value(alloc: Global, raw: &str) -> Result<String, StringError>
    ensures value { IfOk result (λ s. IsStringValue raw.now (string_bytes s)) }
    ensures only { IfOk result
        (λ s. (v : List ℕ) → IsStringValue raw.now v → v ≡ string_bytes s) }
    ensures refused { IfErr result (IsRefused raw.now) }
    ensures place { IfErr result (IsFaultPlace raw.now) }
{
    let bytes = raw.as_bytes();
    let mut text = String::new(alloc);
    let mut start: usize = 0;
    loop {
        let ahead = rest(bytes, start);
        let plain = plain_length(ahead);
        let stop = start + plain;
        let run = part(raw, start, stop);
        text.push_str(run)?;
        if stop == bytes.len() {
            return Ok(text);
        }
        let behind = rest(bytes, stop);
        match escape_at(behind) {
            Ok((character, length)) => {
                text.push(character)?;
                start = stop + length;
            }
            Err(refusal) => {
                return Err(StringError::Escape(stop + refusal.passed, refusal.expected));
            }
        }
    }
}

// The number of bytes before the next backslash.
fn plain_length(text: &[u8]) -> usize
    ensures exact { result ≡ prefix_len is_plain text.now }
    ensures within { result ≤ length text.now }
{
    text.iter().take_while(|byte| **byte != b'\\').count()
}
