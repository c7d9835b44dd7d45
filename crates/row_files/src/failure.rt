//! Why a file of rows can't be judged.
ghost use Rattle.std.specs.Prelude.{◌≤◌};

use std::alloc::AllocError;
use std::{fmt, io};

/// Why a file of rows can't be judged.
#[derive(Clone, Copy, Debug)]
pub enum Failure {
    /// The format is invalid, first at this line, counted from 1.
    Format(usize),
    /// Out of memory.
    OutOfMemory,
    /// A read or a write failed.
    InputOutput,
}

impl Failure {
    /// The exit status.
    pub fn status(self) -> u8
        ensures least { 2 ≤ result }
        ensures most { result ≤ 5 }
    {
        match self {
            Failure::Format(_) => 2,
            Failure::OutOfMemory => 3,
            Failure::InputOutput => 5,
        }
    }
}

impl fmt::Display for Failure {
    fn fmt<W: fmt::Write>(&self, f: &mut fmt::Formatter<W>) -> fmt::Result {
        match self {
            Failure::Format(line) => write!(f, "invalid format at line {line}"),
            Failure::OutOfMemory => f.write_str("out of memory"),
            Failure::InputOutput => f.write_str("input or output failed"),
        }
    }
}

impl From<AllocError> for Failure {
    fn from(_: AllocError) -> Self {
        Failure::OutOfMemory
    }
}

impl From<io::Error> for Failure {
    fn from(error: io::Error) -> Self {
        match error.kind() {
            io::ErrorKind::OutOfMemory => Failure::OutOfMemory,
            _ => Failure::InputOutput,
        }
    }
}
