//! The fragments of a document that its operations reach through spreads.
#![tactic(auto)]

pub mod reached;
pub mod search;
