//! The check of input values in a document against the types of a schema (GraphQL, October 2021,
//! section 5.6.1).
#![tactic(auto)]

mod begun;
mod expected;
mod judged;
pub mod laws;
mod missing;
mod rows;
mod texts;
mod written;

pub use judged::validate_literal_value;
pub use written::validate_written_value;
