//! The errors of conflicts that a search for fields that can't be merged has found.
#![tactic(auto)]

mod account;
pub mod conflict;
pub mod parts;
mod reasons;
