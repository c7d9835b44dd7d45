//! The values of strings and block strings of a GraphQL text (October 2021, section 2.9.4).
//!
//! Proved: a value is the text that `specs/StringValues` and `specs/BlockStrings` give. Where a string has none, its fault
//! is at the place that `specs/StringFaults` says.
#![tactic(auto)]

mod block_strings;
mod escapes;
pub mod parts;
pub mod strings;
