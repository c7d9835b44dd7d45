//! The machine of the search for fields that can't be merged: its state, its tasks, and what they may cost.
#![tactic(auto)]

mod fields;
mod fragments;
pub mod log;
pub mod opening;
pub mod passing;
pub mod repeats;
pub mod search;
mod settle;
pub mod state;
pub mod task;
