//! Input objects that lead back to themselves by required fields (GraphQL, October 2021, section 3.10).
#![tactic(auto)]

mod circles;
mod graph;
mod members;
mod places;
mod told;

pub use circles::{InputCircle, RequiredField, input_circles};
