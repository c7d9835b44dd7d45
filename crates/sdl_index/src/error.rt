//! Why a text is not a schema.
ghost use Rattle.std.specs.Prelude.{◌≡◌, ◌<◌, [], IfSome, None, length};

use graphql_reader::{ReadError, SyntaxError};
use language::error::OutOfMemory;
use language::position::SourcePosition;
use schema::error::SchemaError;
use std::alloc::{AllocError, AllocFailed, Global};
use std::error::Error;
use std::fmt;

/// What must have a unique name in its list.
#[derive(Clone, Copy, Debug, PartialEq, Eq)]
pub enum Defined {
    /// A root operation type (section 3.3.1).
    Root,
    /// A type (section 3.3).
    Type,
    /// A directive (section 3.13).
    Directive,
    /// A field of an object or an interface (sections 3.6 and 3.7).
    Field,
    /// An argument of a field or a directive (section 3.6.1).
    Argument,
    /// A value of an enum (section 3.9).
    EnumValue,
    /// A field of an input object (section 3.10).
    InputField,
}

impl fmt::Display for Defined {
    fn fmt<W: fmt::Write>(&self, f: &mut fmt::Formatter<W>) -> fmt::Result {
        f.write_str(match self {
            Defined::Root => "root",
            Defined::Type => "type",
            Defined::Directive => "directive",
            Defined::Field => "field",
            Defined::Argument => "argument",
            Defined::EnumValue => "enum value",
            Defined::InputField => "input field",
        })
    }
}

/// A fault of the definitions of a text.
#[derive(Debug, PartialEq, Eq, Drop)]
pub enum SchemaFault<'a> {
    /// A second `schema` is defined (section 3.3).
    SecondSchema,
    /// The schema has no query root type (section 3.3.1).
    NoQueryRoot,
    /// The name is in its list twice.
    Repeated(Defined, &'a str),
    /// An extension of a type that is not defined (section 3.4.3).
    UnknownExtended(&'a str),
    /// An extension of a type of another kind (section 3.4.3).
    OtherKindExtended(&'a str),
    /// What makes `SchemaType` refuse the types, or a directive.
    Refused(SchemaError),
}

impl fmt::Display for SchemaFault<'_> {
    fn fmt<W: fmt::Write>(&self, f: &mut fmt::Formatter<W>) -> fmt::Result {
        match self {
            SchemaFault::SecondSchema => f.write_str("the schema is defined twice"),
            SchemaFault::NoQueryRoot => f.write_str("the schema has no query type"),
            SchemaFault::Repeated(defined, name) => {
                write!(f, "the {defined} \"{name}\" is defined twice")
            }
            SchemaFault::UnknownExtended(name) => {
                write!(f, "the type \"{name}\" is extended but not defined")
            }
            SchemaFault::OtherKindExtended(name) => {
                write!(f, "the type \"{name}\" is extended as another kind of type")
            }
            SchemaFault::Refused(SchemaError::MissingRoot(name)) => {
                write!(f, "the root type \"{name}\" is not defined")
            }
            SchemaFault::Refused(SchemaError::UnknownType(name)) => {
                write!(f, "the type \"{name}\" is not defined")
            }
            SchemaFault::Refused(error) => write!(f, "{error}"),
        }
    }
}

/// A fault of the definitions, and its position: that of the name, or of the type reference that holds it.
#[derive(Debug, PartialEq, Eq, Drop)]
pub struct PlacedFault<'a> {
    pub position: SourcePosition,
    pub fault: SchemaFault<'a>,
}

/// Faults of the definitions, one at least.
#[derive(Debug, PartialEq, Eq, Drop)]
pub struct Faults<'a> {
    list: Vec<PlacedFault<'a>>,
    ghost some: { 0 < length list.items },
}

impl<'a> Faults<'a> {
    /// These faults, or `None` if there are none.
    pub fn of_list(list: Vec<PlacedFault<'a>>) -> Option<Faults<'a>>
        ensures kept { IfSome result (λ faults. faults.list ≡ list.entry) }
        ensures none { result ≡ None → list.entry.items ≡ [] }
    {
        if list.is_empty() {
            None
        } else {
            Some(Faults { list })
        }
    }

    /// The faults in their order.
    pub fn as_slice(&self) -> &[PlacedFault<'a>]
        ensures list { result.now ≡ self.now.list.items }
        ensures some { 0 < length result.now }
    {
        self.list.as_slice()
    }
}

impl fmt::Display for Faults<'_> {
    fn fmt<W: fmt::Write>(&self, f: &mut fmt::Formatter<W>) -> fmt::Result {
        let mut between = "";
        for placed in self.list.as_slice() {
            write!(f, "{between}{}", placed.fault)?;
            between = "; ";
        }
        Ok(())
    }
}

/// Why a text could not be read as a schema.
#[derive(Debug, PartialEq, Eq, Drop)]
pub enum SchemaReadError<'a> {
    /// The text has a syntax error.
    Syntax(SyntaxError<'a>),
    /// Faults of the definitions, in the order of the text.
    Faults(Faults<'a>),
    /// Out of memory; nothing is known of the text.
    OutOfMemory,
}

impl<'a> SchemaReadError<'a> {
    /// The error of a single fault, or out of memory.
    pub fn of_fault(
        alloc: Global,
        position: SourcePosition,
        fault: SchemaFault<'a>,
    ) -> SchemaReadError<'a> {
        let mut list = Vec::new(alloc);
        match list.push(PlacedFault { position, fault }) {
            Ok(()) => SchemaReadError::Faults(Faults { list }),
            Err(_) => SchemaReadError::OutOfMemory,
        }
    }
}

impl fmt::Display for SchemaReadError<'_> {
    fn fmt<W: fmt::Write>(&self, f: &mut fmt::Formatter<W>) -> fmt::Result {
        match self {
            SchemaReadError::Syntax(error) => write!(f, "{error}"),
            SchemaReadError::Faults(faults) => write!(f, "{faults}"),
            SchemaReadError::OutOfMemory => f.write_str("out of memory"),
        }
    }
}

impl Error for SchemaReadError<'_> {}

impl<'a> From<ReadError<'a>> for SchemaReadError<'a> {
    fn from(error: ReadError<'a>) -> Self {
        match error {
            ReadError::Syntax(error) => SchemaReadError::Syntax(error),
            ReadError::OutOfMemory => SchemaReadError::OutOfMemory,
        }
    }
}

impl From<AllocError> for SchemaReadError<'_> {
    fn from(_: AllocError) -> Self {
        SchemaReadError::OutOfMemory
    }
}

impl<T: Drop> From<AllocFailed<T>> for SchemaReadError<'_> {
    fn from(_: AllocFailed<T>) -> Self {
        SchemaReadError::OutOfMemory
    }
}

impl From<OutOfMemory> for SchemaReadError<'_> {
    fn from(_: OutOfMemory) -> Self {
        SchemaReadError::OutOfMemory
    }
}
