//! The rules on the values of arguments and on default values of variables (GraphQL, October 2021, section 5.6.1), each
//! in a module of its own.
#![tactic(auto)]

pub mod arguments_of_correct_type;
pub mod default_values_of_correct_type;
mod faults;
