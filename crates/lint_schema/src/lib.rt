//! The schema of several files: type definitions and introspection results (GraphQL, October 2021, sections 3 and 4),
//! and all their faults, each at its place: [`schema_of`].
//!
//! Proved: every call is safe and returns, whatever the files. There is a schema only where there is no fault, and it
//! is a valid type system. Each fault that is found in the definitions or of the schema is told, in order, in its file
//! and at its place there. That the schema is that of the files is only tested.
#![tactic(auto)]

mod definitions;
pub mod faults;
pub mod judging;
mod reading;

pub use reading::schema_of;
