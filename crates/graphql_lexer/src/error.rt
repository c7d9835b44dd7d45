//! Why a text can't be read.
use language_types::error::OutOfMemory;
use language_types::position::SourcePosition;
use std::alloc::{AllocError, AllocFailed};
use std::error::Error;
use std::fmt;

/// What was found in a text where something else was expected.
#[derive(Clone, Copy, Debug, PartialEq, Eq)]
pub enum Found<'a> {
    /// A punctuator, a name or a number.
    Text(&'a str),
    /// A string.
    String,
    /// A character that doesn't fit inside a token, or that begins no token.
    Character(char),
    /// Bytes that are not valid UTF-8.
    Bytes,
    /// The end of the text.
    End,
}

impl fmt::Display for Found<'_> {
    fn fmt<W: fmt::Write>(&self, f: &mut fmt::Formatter<W>) -> fmt::Result {
        match self {
            Found::Text(text) => write!(f, "\"{text}\""),
            Found::String => f.write_str("a string"),
            Found::Character(character) => write!(f, "{character:?}"),
            Found::Bytes => f.write_str("bytes that are not valid UTF-8"),
            Found::End => f.write_str("the end of the text"),
        }
    }
}

/// What is wrong at a position of a text.
#[derive(Clone, Copy, Debug, PartialEq, Eq)]
pub enum SyntaxFault<'a> {
    /// What was expected there, and what was found.
    Unexpected(&'static str, Found<'a>),
    /// Selection sets, lists and objects of a value, or list types nest deeper than this limit allows.
    TooDeep(usize),
}

impl fmt::Display for SyntaxFault<'_> {
    fn fmt<W: fmt::Write>(&self, f: &mut fmt::Formatter<W>) -> fmt::Result {
        match self {
            SyntaxFault::Unexpected(expected, found) => {
                write!(f, "expected {expected}, found {found}")
            }
            SyntaxFault::TooDeep(limit) => write!(f, "nested more than {limit} levels deep"),
        }
    }
}

/// A syntax error: the first fault of a text, and its position (0-based index, line and column, in bytes).
#[derive(Clone, Copy, Debug, PartialEq, Eq)]
pub struct SyntaxError<'a> {
    pub position: SourcePosition,
    pub fault: SyntaxFault<'a>,
}

impl fmt::Display for SyntaxError<'_> {
    fn fmt<W: fmt::Write>(&self, f: &mut fmt::Formatter<W>) -> fmt::Result {
        write!(f, "{}", self.fault)
    }
}

impl Error for SyntaxError<'_> {}

/// Why a text can't be read.
#[derive(Clone, Copy, Debug, PartialEq, Eq)]
pub enum ReadError<'a> {
    /// The text has a syntax error.
    Syntax(SyntaxError<'a>),
    /// Out of memory; nothing is known of the text.
    OutOfMemory,
}

impl fmt::Display for ReadError<'_> {
    fn fmt<W: fmt::Write>(&self, f: &mut fmt::Formatter<W>) -> fmt::Result {
        match self {
            ReadError::Syntax(error) => write!(f, "{error}"),
            ReadError::OutOfMemory => f.write_str("out of memory"),
        }
    }
}

impl Error for ReadError<'_> {}

impl From<AllocError> for ReadError<'_> {
    ghost use Rattle.std.specs.Prelude.{◌≡◌};
    ghost use Rattle.graphql_lexer.specs.declared.error.ReadError.TheVariants as e;

    ghost from_gives = { λ _ r. r ≡ e.OutOfMemory };

    fn from(_: AllocError) -> Self {
        ReadError::OutOfMemory
    }
}

impl<T: Drop> From<AllocFailed<T>> for ReadError<'_> {
    ghost use Rattle.std.specs.Prelude.{◌≡◌};
    ghost use Rattle.graphql_lexer.specs.declared.error.ReadError.TheVariants as e;

    ghost from_gives = { λ _ r. r ≡ e.OutOfMemory };

    fn from(_: AllocFailed<T>) -> Self {
        ReadError::OutOfMemory
    }
}

impl From<OutOfMemory> for ReadError<'_> {
    ghost use Rattle.std.specs.Prelude.{◌≡◌};
    ghost use Rattle.graphql_lexer.specs.declared.error.ReadError.TheVariants as e;

    ghost from_gives = { λ _ r. r ≡ e.OutOfMemory };

    fn from(_: OutOfMemory) -> Self {
        ReadError::OutOfMemory
    }
}
