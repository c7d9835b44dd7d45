//! Faults of a type and its interfaces: where it implements them other than GraphQL, October 2021, sections 3.6 and 3.7
//! ask.
#![tactic(auto)]

mod added_arguments;
mod all;
mod ancestors;
mod field_types;
mod implemented_types;
mod interface_arguments;
mod interface_fields;
mod layers;
pub mod listed;
pub mod members;
mod pair;

pub use all::report_interface_faults;
