//! Lists of lists that are kept in one list.
#![tactic(auto)]

pub mod lists;
