//! Circles in graphs whose nodes are numbered, as of input objects that lead back to themselves (GraphQL, October
//! 2021, section 3.10).
#![tactic(auto)]

mod first;
pub mod graph;
mod search;

pub use search::{Circle, Found, circles_of};
