//! Parses GraphQL (October 2021, sections 2 and 3): executable documents and type system documents, from text to
//! trees.
//!
//! Positions are those of `graphql_lexer`: 0-based index, line and column, in bytes. Selection sets, lists and objects
//! of a value, and list types may nest as deep as memory allows, since no call reads them by recursion. A caller may
//! set a limit, as [`NESTING_LIMIT`]: [`read_document_within`], [`read_type_system_within`].
//!
//! Proved of every call: it is safe and returns, whatever the text. Values are read by `value_reader`, which is proved
//! exact, and [`read_constant`] is exact. The tree of an executable document is spelled by the tokens of its text, each
//! of them, with its spans, and no other tree is: `IsDocument` of `specs/Documents.antt`. A syntax error of
//! [`read_document`] means that the text is no document, and its place is that of the first token with which none goes
//! on: `specs/Faults.antt`. What it says was expected is only tested. Descriptions are those that the tokens spell.
//! That the rest of a type system document's tree is that of its text is only tested.
#![tactic(auto)]

mod arguments;
mod constants;
mod definitions;
mod depth;
mod expected;
mod selections;
pub mod type_system;
mod type_system_reader;
mod types;

pub use constants::read_constant;
pub use definitions::{read_definitions, read_document, read_document_within};
pub use depth::NESTING_LIMIT;
pub use graphql_lexer::error::{Found, ReadError, SyntaxError, SyntaxFault};
pub use sdl_scalars::scalar::SourceScalar;
pub use type_system_reader::{read_type_system, read_type_system_within};
