//! Why the program ends early.
use language_types::error::OutOfMemory;
use std::alloc::{AllocError, AllocFailed};
use std::{fmt, io};

/// Why the program ends early.
#[derive(Clone, Copy, Debug)]
pub enum Failure {
    /// Files are at fault, which has been told.
    Told,
    /// The standard input is named more than once.
    InputTwice,
    /// Out of memory.
    OutOfMemory,
    /// A read or a write failed.
    InputOutput,
}

impl fmt::Display for Failure {
    fn fmt<W: fmt::Write>(&self, f: &mut fmt::Formatter<W>) -> fmt::Result {
        f.write_str(match self {
            Failure::Told => "invalid input",
            Failure::InputTwice => "the standard input can be named only once",
            Failure::OutOfMemory => "out of memory",
            Failure::InputOutput => "input or output failed",
        })
    }
}

impl From<AllocError> for Failure {
    fn from(_: AllocError) -> Self {
        Failure::OutOfMemory
    }
}

impl<T: Drop> From<AllocFailed<T>> for Failure {
    fn from(_: AllocFailed<T>) -> Self {
        Failure::OutOfMemory
    }
}

impl From<OutOfMemory> for Failure {
    fn from(_: OutOfMemory) -> Self {
        Failure::OutOfMemory
    }
}

impl From<io::Error> for Failure {
    fn from(error: io::Error) -> Self {
        match error.kind() {
            io::ErrorKind::OutOfMemory => Failure::OutOfMemory,
            _ => Failure::InputOutput,
        }
    }
}
