//! Search for the fields of a document that can't be merged. What is found is true; where no field repeats an
//! argument, nothing is missed.
#![tactic(auto)]

pub mod search;
