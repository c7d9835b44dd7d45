//! Out of memory, and why a caller's function refuses a value or a token.
ghost use Rattle.std.specs.Prelude.{◌≡◌, Some, codes, option_copied};
ghost use Rattle.language_types.specs.Refusals.{check_message, check_text, parse_text};

use std::alloc::{AllocError, AllocFailed};
use std::error::Error;
use std::fmt;

/// The allocator refused a request for memory.
#[derive(Clone, Copy, Debug, PartialEq, Eq, Hash)]
pub struct OutOfMemory;

impl fmt::Display for OutOfMemory {
    ghost output = { λ _. Some (codes "out of memory") };

    fn fmt<W: fmt::Write>(&self, f: &mut fmt::Formatter<W>) -> fmt::Result {
        f.write_str("out of memory")
    }
}

impl Error for OutOfMemory {}

impl From<AllocError> for OutOfMemory {
    fn from(_: AllocError) -> Self {
        OutOfMemory
    }
}

impl<T: Drop> From<AllocFailed<T>> for OutOfMemory {
    fn from(_: AllocFailed<T>) -> Self {
        OutOfMemory
    }
}

/// Why the check of a type did not accept a value.
#[derive(Debug, PartialEq, Eq, Drop)]
pub enum CheckError {
    /// The value is not of the type; the text says why.
    Refused(String),
    /// Out of memory, so nothing is known about the value.
    OutOfMemory,
}

impl CheckError {
    /// The text of a refusal; `None` for `OutOfMemory`.
    pub fn message(&self) -> Option<&str>
        ensures { option_copied result ≡ check_message self.now }
    {
        match self {
            CheckError::Refused(message) => Some(message.as_str()),
            CheckError::OutOfMemory => None,
        }
    }
}

impl fmt::Display for CheckError {
    ghost output = { λ e. Some (check_text e) };

    fn fmt<W: fmt::Write>(&self, f: &mut fmt::Formatter<W>) -> fmt::Result {
        match self {
            CheckError::Refused(message) => f.write_str(message.as_str()),
            CheckError::OutOfMemory => f.write_str("out of memory"),
        }
    }
}

impl Error for CheckError {}

impl From<AllocError> for CheckError {
    ghost use Rattle.std.specs.Prelude.{◌≡◌};
    ghost use Rattle.language_types.specs.declared.error.CheckError.TheVariants as e;

    ghost from_gives = { λ _ r. r ≡ e.OutOfMemory };

    fn from(_: AllocError) -> Self {
        CheckError::OutOfMemory
    }
}

impl<T: Drop> From<AllocFailed<T>> for CheckError {
    ghost use Rattle.std.specs.Prelude.{◌≡◌};
    ghost use Rattle.language_types.specs.declared.error.CheckError.TheVariants as e;

    ghost from_gives = { λ _ r. r ≡ e.OutOfMemory };

    fn from(_: AllocFailed<T>) -> Self {
        CheckError::OutOfMemory
    }
}

impl From<OutOfMemory> for CheckError {
    ghost use Rattle.std.specs.Prelude.{◌≡◌};
    ghost use Rattle.language_types.specs.declared.error.CheckError.TheVariants as e;

    ghost from_gives = { λ _ r. r ≡ e.OutOfMemory };

    fn from(_: OutOfMemory) -> Self {
        CheckError::OutOfMemory
    }
}

/// Why the token function of a scalar rejected a token.
#[derive(Debug, PartialEq, Eq, Drop)]
pub enum ParseError {
    /// The token does not stand for a value of the scalar; the text says why.
    Refused(String),
    /// Out of memory, so nothing is known about the token.
    OutOfMemory,
}

impl fmt::Display for ParseError {
    ghost output = { λ e. Some (parse_text e) };

    fn fmt<W: fmt::Write>(&self, f: &mut fmt::Formatter<W>) -> fmt::Result {
        match self {
            ParseError::Refused(message) => f.write_str(message.as_str()),
            ParseError::OutOfMemory => f.write_str("out of memory"),
        }
    }
}

impl Error for ParseError {}

impl From<AllocError> for ParseError {
    ghost use Rattle.std.specs.Prelude.{◌≡◌};
    ghost use Rattle.language_types.specs.declared.error.ParseError.TheVariants as e;

    ghost from_gives = { λ _ r. r ≡ e.OutOfMemory };

    fn from(_: AllocError) -> Self {
        ParseError::OutOfMemory
    }
}

impl<T: Drop> From<AllocFailed<T>> for ParseError {
    ghost use Rattle.std.specs.Prelude.{◌≡◌};
    ghost use Rattle.language_types.specs.declared.error.ParseError.TheVariants as e;

    ghost from_gives = { λ _ r. r ≡ e.OutOfMemory };

    fn from(_: AllocFailed<T>) -> Self {
        ParseError::OutOfMemory
    }
}

impl From<OutOfMemory> for ParseError {
    ghost use Rattle.std.specs.Prelude.{◌≡◌};
    ghost use Rattle.language_types.specs.declared.error.ParseError.TheVariants as e;

    ghost from_gives = { λ _ r. r ≡ e.OutOfMemory };

    fn from(_: OutOfMemory) -> Self {
        ParseError::OutOfMemory
    }
}
