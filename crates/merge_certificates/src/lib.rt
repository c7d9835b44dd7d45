//! What is known to merge without a search: fields of many at once, by the sets below them.
#![tactic(auto)]

pub mod below;
pub mod clear;
pub mod failing;
pub mod near;
pub mod quiet;
pub mod touched;
pub mod two_sets;
pub mod unions;
