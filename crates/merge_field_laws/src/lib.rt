//! Laws of the fields of a document that can be merged.
#![tactic(auto)]

pub mod clean;
pub mod laws;
