//! Ways in graphs whose nodes are numbered, from a node back to it.
//!
//! [`ways_of`] looks at each edge of a graph once from each of its ends. [`way_back`] then follows links alone.
#![tactic(auto)]

mod backwards;
mod entering;
mod items;
mod onward;
mod order;
mod way;

pub use onward::{Ways, ways_of};
pub use way::way_back;
