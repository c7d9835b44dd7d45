//! Schemas made of metadata of types (GraphQL, October 2021, section 3).
#![tactic(auto)]

pub mod model;

pub use meta;
pub use schema_validation::error;
