//! Whether all sets of a graph merge, decided by unions of sets and with no pair compared.
#![tactic(auto)]

pub mod decision;
pub mod settling;
pub mod work;
pub mod written;
