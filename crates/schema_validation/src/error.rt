//! Why a list of types makes no schema.
ghost use Rattle.std.specs.Prelude.{Some};
ghost use Rattle.schema_validation.specs.ErrorTexts.{error_text};

use language_types::error::OutOfMemory;
use std::alloc::{AllocError, AllocFailed};
use std::error::Error;
use std::fmt;

/// Why a list of types, or a directive, was refused (section 3.3). The texts are names of types.
#[derive(Debug, PartialEq, Eq, Drop)]
pub enum SchemaError {
    /// Out of memory.
    OutOfMemory,
    /// The root of this name is not in the list (section 3.3.1).
    MissingRoot(String),
    /// The query root is not an object type (section 3.3.1).
    QueryNotObject,
    /// The list contains a list, a nullable type or a placeholder, which have no name (section 3.4).
    UnnamedType,
    /// Two types of the list have this name (section 3.3).
    RepeatedType(String),
    /// The type of this name is used but is not in the list (section 3.3): by a field, an argument, an
    /// input field, a union, the interfaces of a type, or something that a schema adds.
    UnknownType(String),
    /// A union has a member of this name, which is not an object type (section 3.8).
    UnionMemberNotObject(String),
    /// An argument or an input field has the type of this name, which is not an input type (section
    /// 3.4.2).
    NotInputType(String),
}

impl fmt::Display for SchemaError {
    ghost output = { λ e. Some (error_text e) };

    fn fmt<W: fmt::Write>(&self, f: &mut fmt::Formatter<W>) -> fmt::Result {
        match self {
            SchemaError::OutOfMemory => write!(f, "out of memory"),
            SchemaError::MissingRoot(name) => write!(f, "the root type \"{name}\" is not listed"),
            SchemaError::QueryNotObject => write!(f, "the query root is not an object"),
            SchemaError::UnnamedType => write!(f, "a listed type has no name"),
            SchemaError::RepeatedType(name) => write!(f, "two listed types are named \"{name}\""),
            SchemaError::UnknownType(name) => write!(f, "the type \"{name}\" is not listed"),
            SchemaError::UnionMemberNotObject(name) => {
                write!(f, "the union member \"{name}\" is not an object")
            }
            SchemaError::NotInputType(name) => write!(
                f,
                "the type \"{name}\" is not an input type"
            ),
        }
    }
}

impl Error for SchemaError {}

impl From<AllocError> for SchemaError {
    ghost use Rattle.std.specs.Prelude.{◌≡◌};
    ghost use Rattle.schema_validation.specs.declared.error.SchemaError.TheVariants as e;

    ghost from_gives = { λ _ r. r ≡ e.OutOfMemory };

    fn from(_: AllocError) -> Self {
        SchemaError::OutOfMemory
    }
}

impl<T: Drop> From<AllocFailed<T>> for SchemaError {
    ghost use Rattle.std.specs.Prelude.{◌≡◌};
    ghost use Rattle.schema_validation.specs.declared.error.SchemaError.TheVariants as e;

    ghost from_gives = { λ _ r. r ≡ e.OutOfMemory };

    fn from(_: AllocFailed<T>) -> Self {
        SchemaError::OutOfMemory
    }
}

impl From<OutOfMemory> for SchemaError {
    ghost use Rattle.std.specs.Prelude.{◌≡◌};
    ghost use Rattle.schema_validation.specs.declared.error.SchemaError.TheVariants as e;

    ghost from_gives = { λ _ r. r ≡ e.OutOfMemory };

    fn from(_: OutOfMemory) -> Self {
        SchemaError::OutOfMemory
    }
}
