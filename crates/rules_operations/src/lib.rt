//! The rules on operations and their variables (GraphQL, October 2021, sections 5.2, 5.8.1 and 5.8.2), each in a module
//! of its own.
#![tactic(auto)]

pub mod lone_anonymous_operation;
pub mod unique_operation_names;
pub mod unique_variable_names;
pub mod variables_are_input_types;
