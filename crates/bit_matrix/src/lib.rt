//! Sets of small numbers, one bit for each, and matrices of bits, which grow row by row.
#![tactic(auto)]

pub mod rows;
pub mod set;
