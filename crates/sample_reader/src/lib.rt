//! A front of `graphql_reader` for the samples, tests and measurements of this repository.
//!
//! It reads less than all of GraphQL: ASCII (anything in comments), without block strings, escape sequences and floats,
//! and only a line feed ends a line. To parse GraphQL in full, take the crate `graphql_reader`. Proved of every call: it
//! is safe and returns, whatever the text.
#![tactic(auto)]

mod error;
mod read;
mod text;
mod trees;
mod values;

pub use error::ReadError;
pub use read::{read_document, read_type, read_value};
