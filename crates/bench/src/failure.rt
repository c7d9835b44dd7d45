//! Why nothing is measured.
use introspection::IntrospectionError;
use sample_reader::ReadError;
use sdl_reader::SchemaReadError;
use std::alloc::{AllocError, AllocFailed};
use std::{fmt, io};
use validation::{OutOfMemory, SchemaError};

/// Why nothing is measured.
#[derive(Clone, Copy, Debug)]
pub enum Failure {
    /// The input is not a document.
    Syntax,
    /// The input is not a schema.
    Schema,
    /// The first definition is not an operation, or one of its variables has no input type.
    NoVariables,
    /// Invalid arguments.
    Usage,
    /// Out of memory.
    OutOfMemory,
    /// A read or a write failed, or the clock did.
    InputOutput,
}

impl fmt::Display for Failure {
    fn fmt<W: fmt::Write>(&self, f: &mut fmt::Formatter<W>) -> fmt::Result {
        f.write_str(match self {
            Failure::Syntax => "the input is no document",
            Failure::Schema => "the input is no schema",
            Failure::NoVariables =>
                "the input begins with no operation whose variables have input types",
            Failure::Usage =>
                "usage: bench [--dialect <juniper, october2021>] [--through MEGABYTES] <pets, number of input fields> READS WALKS VALUES, or <sdl, queries, schema, introspection> READS",
            Failure::OutOfMemory => "out of memory",
            Failure::InputOutput => "input, output or the clock failed",
        })
    }
}

impl From<AllocError> for Failure {
    fn from(_: AllocError) -> Self {
        Failure::OutOfMemory
    }
}

impl<T: Drop> From<AllocFailed<T>> for Failure {
    fn from(_: AllocFailed<T>) -> Self {
        Failure::OutOfMemory
    }
}

impl From<OutOfMemory> for Failure {
    fn from(_: OutOfMemory) -> Self {
        Failure::OutOfMemory
    }
}

impl From<SchemaError> for Failure {
    fn from(_: SchemaError) -> Self {
        Failure::OutOfMemory
    }
}

impl From<ReadError> for Failure {
    fn from(error: ReadError) -> Self {
        match error {
            ReadError::Fault(_) => Failure::Syntax,
            ReadError::OutOfMemory => Failure::OutOfMemory,
        }
    }
}

impl From<graphql_reader::ReadError<'_>> for Failure {
    fn from(error: graphql_reader::ReadError<'_>) -> Self {
        match error {
            graphql_reader::ReadError::Syntax(_) => Failure::Syntax,
            graphql_reader::ReadError::OutOfMemory => Failure::OutOfMemory,
        }
    }
}

impl From<SchemaReadError<'_>> for Failure {
    fn from(error: SchemaReadError<'_>) -> Self {
        match error {
            SchemaReadError::OutOfMemory => Failure::OutOfMemory,
            _ => Failure::Schema,
        }
    }
}

impl From<IntrospectionError> for Failure {
    fn from(error: IntrospectionError) -> Self {
        match error {
            IntrospectionError::OutOfMemory => Failure::OutOfMemory,
            _ => Failure::Schema,
        }
    }
}

impl From<io::Error> for Failure {
    fn from(_: io::Error) -> Self {
        Failure::InputOutput
    }
}
