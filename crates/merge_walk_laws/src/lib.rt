//! Laws of the fields and selection sets of documents: those that the search for conflicts compares are those that a
//! walk meets.
#![tactic(auto)]

pub mod laws;
