//! Errors, positions and references to types of a GraphQL document: what every other crate names.
#![tactic(auto)]

pub mod error;
pub mod position;
pub mod types;
