//! Values of a GraphQL document, and the scalars in them.
#![tactic(auto)]

pub mod scalar;
pub mod value;
mod value_clone;
mod value_debug;
mod value_same;
