//! Values of a GraphQL text (October 2021, section 2.9), read from its tokens.
//!
//! Proved of [`reader::read_value`]: what it returns is the value that the tokens spell by `specs/Grammar`, which
//! follows appendix B.2, with its spans, and no other value is spelled there; and an error tells the first token with
//! which no value goes on.
#![tactic(auto)]

mod begun;
mod plain;
pub mod reader;
pub mod rules;
mod steps;
pub mod strings;
