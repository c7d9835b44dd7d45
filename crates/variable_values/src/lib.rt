//! Values of variables against the types of a schema (GraphQL, October 2021, section 6.1.2).
#![tactic(auto)]

mod begun;
mod dialects;
mod entries;
mod faults;
mod inputs;
mod keys;
pub mod laws;
mod messages;
mod place;
mod rows;
mod texts;
mod variables;

pub use inputs::has_input_types;
pub use variables::validate_input_values;
