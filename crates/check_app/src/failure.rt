//! Why the program writes no report.
ghost use Rattle.std.specs.Prelude.{Some};
ghost use Rattle.check_app.specs.Failures.{failure_text};

use sample_reader::ReadError;
use std::alloc::{AllocError, AllocFailed};
use std::{fmt, io};
use validation::parser::SourcePosition;
use validation::{OutOfMemory, SchemaError};

/// Why the program writes no report.
#[derive(Clone, Copy, Debug)]
pub enum Failure {
    /// The input has a syntax error: the first token that doesn't fit starts here.
    Syntax(SourcePosition),
    /// Out of memory.
    OutOfMemory,
    /// The arguments are invalid.
    Usage,
    /// A read or a write failed.
    InputOutput,
}

impl Failure {
    ghost use Rattle.std.specs.Prelude.{◌≡◌, ◌≤◌};
    ghost use Rattle.check_app.specs.Statuses.{status_of};

    /// The exit status.
    pub fn status(self) -> u8
        ensures value { result ≡ status_of self }
        ensures least { 2 ≤ result }
        ensures most { result ≤ 5 }
    {
        match self {
            Failure::Syntax(_) => 2,
            Failure::OutOfMemory => 3,
            Failure::Usage => 4,
            Failure::InputOutput => 5,
        }
    }
}

impl fmt::Display for Failure {
    ghost output = { λ e. Some (failure_text e) };

    fn fmt<W: fmt::Write>(&self, f: &mut fmt::Formatter<W>) -> fmt::Result {
        match self {
            Failure::Syntax(place) => write!(f, "syntax at {place}"),
            Failure::OutOfMemory => f.write_str("out of memory"),
            Failure::Usage => {
                f.write_str("usage: check demo or check <pets, boxes> [merge, closed]")
            }
            Failure::InputOutput => f.write_str("input or output failed"),
        }
    }
}

impl From<AllocError> for Failure {
    ghost use Rattle.std.specs.Prelude.{◌≡◌};
    ghost use Rattle.check_app.specs.declared.failure.Failure.TheVariants as f;

    ghost from_gives = { λ _ r. r ≡ f.OutOfMemory };

    fn from(_: AllocError) -> Self {
        Failure::OutOfMemory
    }
}

impl<T: Drop> From<AllocFailed<T>> for Failure {
    ghost use Rattle.std.specs.Prelude.{◌≡◌};
    ghost use Rattle.check_app.specs.declared.failure.Failure.TheVariants as f;

    ghost from_gives = { λ _ r. r ≡ f.OutOfMemory };

    fn from(_: AllocFailed<T>) -> Self {
        Failure::OutOfMemory
    }
}

impl From<OutOfMemory> for Failure {
    ghost use Rattle.std.specs.Prelude.{◌≡◌};
    ghost use Rattle.check_app.specs.declared.failure.Failure.TheVariants as f;

    ghost from_gives = { λ _ r. r ≡ f.OutOfMemory };

    fn from(_: OutOfMemory) -> Self {
        Failure::OutOfMemory
    }
}

impl From<ReadError> for Failure {
    ghost use Rattle.std.specs.Prelude.{◌≡◌};
    ghost use Rattle.check_app.specs.Failures.{failure_of_read};

    ghost from_gives = { λ e r. r ≡ failure_of_read e };

    fn from(error: ReadError) -> Self {
        match error {
            ReadError::Fault(place) => Failure::Syntax(place),
            ReadError::OutOfMemory => Failure::OutOfMemory,
        }
    }
}

impl From<io::Error> for Failure {
    ghost use Rattle.std.specs.Prelude.{◌≡◌, ◌⊎◌};
    ghost use Rattle.check_app.specs.declared.failure.Failure.TheVariants as f;

    ghost from_gives = { λ _ r. (r ≡ f.OutOfMemory) ⊎ (r ≡ f.InputOutput) };

    fn from(error: io::Error) -> Self {
        match error.kind() {
            io::ErrorKind::OutOfMemory => Failure::OutOfMemory,
            _ => Failure::InputOutput,
        }
    }
}

/// The sample types are accepted, so only out of memory refuses them.
impl From<SchemaError> for Failure {
    ghost use Rattle.std.specs.Prelude.{◌≡◌};
    ghost use Rattle.check_app.specs.declared.failure.Failure.TheVariants as f;

    ghost from_gives = { λ _ r. r ≡ f.OutOfMemory };

    fn from(_: SchemaError) -> Self {
        Failure::OutOfMemory
    }
}
