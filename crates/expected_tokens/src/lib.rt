//! Which tokens may stand where a text stops being a document (GraphQL, October 2021, section 2).
//!
//! A syntax error of `graphql_reader` tells the place of the first token with which no document goes on. These calls
//! tell which tokens a document does go on with there. They set no limit on nesting.
//!
//! Proved of both: the answers are exact, by `specs/Answers.antt`.
#![tactic(auto)]

mod expected;
mod questions;
mod stops;

pub use expected::{Expected, Keyword};
pub use graphql_lexer::lexer::Punctuator;
pub use language_types::error::OutOfMemory;
pub use questions::{expected_tokens, goes_on};
