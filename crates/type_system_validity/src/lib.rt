//! Whether a schema is a valid type system (GraphQL, October 2021, section 3).
#![tactic(auto)]

pub mod validity;

pub use validity::{has_conforming_defaults, has_valid_definitions, is_valid_type_system};
