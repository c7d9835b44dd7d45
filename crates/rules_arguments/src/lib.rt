//! The rules on arguments, on keys of input objects and on directives (GraphQL, October 2021, sections 5.4, 5.6.3,
//! 5.7.1 to 5.7.3), each in a module of its own.
#![tactic(auto)]

mod bearers;
pub mod known_argument_names;
pub mod known_directives;
pub mod provided_non_null_arguments;
pub mod unique_argument_names;
pub mod unique_directive_names;
pub mod unique_input_field_names;
