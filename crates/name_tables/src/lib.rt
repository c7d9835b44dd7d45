//! Tables of names: a map from names to values, and the hash slots in which it looks first.
//!
//! [`map`] keeps each name once, with its value, in insertion order. [`slots`] computes the slot of a
//! name; tables that keep their entries elsewhere use it alone.
#![tactic(auto)]

pub mod map;
pub mod slots;
