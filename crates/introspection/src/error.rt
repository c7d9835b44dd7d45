//! Why an introspection result can't be written as type definitions.
use std::alloc::{AllocError, AllocFailed};
use std::error::Error;
use std::fmt;

/// Why an introspection result can't be written as type definitions.
///
/// A path leads to a value of the result, as `__schema.types[3].fields[0].type`: names of members and 0-based
/// indices. The path of the whole result is empty.
#[derive(Debug, PartialEq, Eq, Drop)]
pub enum IntrospectionError {
    /// The result is not JSON, or nests more than 127 levels deep.
    Syntax {
        /// The 0-based line.
        line: usize,
        /// The 0-based column, in bytes: of the first byte that doesn't fit, or of the last byte of a text that ends
        /// too early.
        column: usize,
    },
    /// A required member is missing; the path is its own.
    Missing(String),
    /// A value has another shape than expected.
    Unexpected {
        path: String,
        expected: &'static str,
    },
    /// A string is not a name (section 2.1.9).
    NotAName(String),
    /// Out of memory; nothing is known of the result.
    OutOfMemory,
}

impl fmt::Display for IntrospectionError {
    fn fmt<W: fmt::Write>(&self, f: &mut fmt::Formatter<W>) -> fmt::Result {
        match self {
            IntrospectionError::Syntax { line, column } => {
                write!(f, "invalid JSON at {line}:{column}")
            }
            IntrospectionError::Missing(path) => write!(f, "{path}: missing"),
            IntrospectionError::Unexpected { path, expected } if path.is_empty() => {
                write!(f, "the result: expected {expected}")
            }
            IntrospectionError::Unexpected { path, expected } => {
                write!(f, "{path}: expected {expected}")
            }
            IntrospectionError::NotAName(path) => write!(f, "{path}: not a name"),
            IntrospectionError::OutOfMemory => f.write_str("out of memory"),
        }
    }
}

impl Error for IntrospectionError {}

// The JSON reader counts from 1.
impl From<serde_json::Error> for IntrospectionError {
    fn from(error: serde_json::Error) -> Self {
        if error.is_memory() {
            return IntrospectionError::OutOfMemory;
        }
        IntrospectionError::Syntax {
            line: error.line().saturating_sub(1),
            column: error.column().saturating_sub(1),
        }
    }
}

impl From<AllocError> for IntrospectionError {
    fn from(_: AllocError) -> Self {
        IntrospectionError::OutOfMemory
    }
}

impl<T: Drop> From<AllocFailed<T>> for IntrospectionError {
    fn from(_: AllocFailed<T>) -> Self {
        IntrospectionError::OutOfMemory
    }
}
