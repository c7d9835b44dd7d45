//! Default values of a type system that do not conform to their types (GraphQL, October 2021, sections 3.6.1, 3.10
//! and 3.13).
#![tactic(auto)]

mod all;
mod fault;
mod given;

pub use all::default_value_faults;
pub use fault::DefaultFault;
