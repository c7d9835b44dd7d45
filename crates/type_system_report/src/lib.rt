//! Faults of a type system: coordinates, kinds and texts (GraphQL, October 2021, section 3).
#![tactic(auto)]

pub mod fault;
pub mod report;

pub use fault::{Coordinate, CoordinateOf, Fault, FaultKind, FaultKindOf, FaultOf};
