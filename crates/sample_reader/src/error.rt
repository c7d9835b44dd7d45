//! Why a text can't be read.
use language::error::OutOfMemory;
use language::position::SourcePosition;
use std::alloc::{AllocError, AllocFailed};

/// Why a text can't be read.
#[derive(Clone, Copy, Debug)]
pub enum ReadError {
    /// A syntax error, at the first token that cannot follow what stands before it, or at the end of the text.
    Fault(SourcePosition),
    /// Out of memory; nothing is known of the text.
    OutOfMemory,
}

impl From<graphql_reader::ReadError<'_>> for ReadError {
    fn from(error: graphql_reader::ReadError<'_>) -> Self {
        match error {
            graphql_reader::ReadError::Syntax(error) => ReadError::Fault(error.position),
            graphql_reader::ReadError::OutOfMemory => ReadError::OutOfMemory,
        }
    }
}

impl From<AllocError> for ReadError {
    fn from(_: AllocError) -> Self {
        ReadError::OutOfMemory
    }
}

impl<T: Drop> From<AllocFailed<T>> for ReadError {
    fn from(_: AllocFailed<T>) -> Self {
        ReadError::OutOfMemory
    }
}

impl From<OutOfMemory> for ReadError {
    fn from(_: OutOfMemory) -> Self {
        ReadError::OutOfMemory
    }
}
