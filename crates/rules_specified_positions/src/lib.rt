//! The rule on the types of variables where they are used (GraphQL, October 2021, section 5.8.5), where defaults of
//! arguments and of input fields count.
#![tactic(auto)]

mod judging;
mod placed_uses;
pub mod variables_in_allowed_position;
