//! The tokens of a GraphQL text (October 2021, sections 2.1 and 2.9) with their positions.
//!
//! Positions count bytes from 0: the index from the start of the text, the column from the start of the line.
//! A line ends with a line feed, a carriage return, or both in this order.
//!
//! Proved of `Tokens`: its tokens, with their positions, are exactly those of the text by `specs/Lexical` and
//! `specs/Lexemes`, which follow appendix B.1, up to the first place where no token begins. Of all other calls: they
//! are safe and return, whatever the text. `strings` is re-exported from `graphql_strings`.
#![tactic(auto)]

mod classes;
mod cursor;
pub mod error;
mod ignored;
pub mod laws;
pub mod lexer;
mod scan;
pub mod tokens;

pub use graphql_strings::strings;
