//! Values of arguments of directives in a type system document that do not conform to their types (GraphQL, October
//! 2021, sections 3.13 and 5.6.1): [`directive_value_faults`].
#![tactic(auto)]

mod all;
mod fault;
mod given;

pub use all::directive_value_faults;
pub use fault::ValueFault;
