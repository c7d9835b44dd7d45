//! An index of the definitions of a type system document (GraphQL, October 2021, section 3), and the faults of these
//! definitions.
//!
//! Proved of every call: it is safe and returns.
#![tactic(auto)]

pub mod applied;
pub mod error;
mod extensions;
pub mod faults;
mod kinds;
mod names;
pub mod parts;
mod references;
mod repeats;
pub mod roots;
