//! Reads a schema from a type system document (GraphQL, October 2021, section 3): from text to `SchemaType`.
//!
//! Definitions may be in any order, and extensions are merged into what they extend. Built-in scalars and the types
//! of introspection are added unless the text defines their names. Proved of every call: it is safe and returns,
//! whatever the text. That the schema is that of the text is only tested.
#![tactic(auto)]

mod directives;
mod fields;
mod reader;
mod standard;
mod types;

pub use graphql_reader::{Found, SourceScalar, SyntaxError, SyntaxFault};
pub use reader::{read_schema, schema_of_document};
pub use sdl_index::error::{Defined, Faults, PlacedFault, SchemaFault, SchemaReadError};
