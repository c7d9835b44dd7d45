//! Directives of a type system document that refer to themselves (GraphQL, October 2021, section 3.13):
//! [`directive_circles`].
#![tactic(auto)]

mod circles;
mod graph;
mod names;
mod places;
mod uses;

pub use circles::{DirectiveCircle, directive_circles};
