//! The rule on the types of variables where they are used (GraphQL, October 2021, section 5.8.5).
#![tactic(auto)]

pub mod first_variables;
pub mod judged_uses;
pub mod judging;
pub mod recorded_uses;
pub mod typed_uses;
pub mod variables_in_allowed_position;
