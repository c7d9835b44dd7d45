//! The search for fields that can't be merged: each set, one after the other, with all that it spreads.
#![tactic(auto)]

mod asking;
mod counts;
mod inner;
mod pairs;
mod passing;
pub mod top;
