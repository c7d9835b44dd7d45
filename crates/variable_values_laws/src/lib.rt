//! When the values of variables conform to their types (GraphQL, October 2021, section 6.1.2), and what the errors of
//! `validate_input_values` say of it.
#![tactic(auto)]

pub mod laws;
