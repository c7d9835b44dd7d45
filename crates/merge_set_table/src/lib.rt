//! The selection sets of a document by number: own fields by number, and the fragments that each set spreads.
#![tactic(auto)]

pub mod adding;
pub mod known;
mod names;
mod once;
mod recent;
mod responses;
mod steps;
pub mod table;
mod tasks;
