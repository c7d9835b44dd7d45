//! Sample schemas for tests and programs: lists of types with the query root `QueryRoot`, the checks of
//! their values, and documents that are built in code.
#![tactic(auto)]

pub mod boxes;
pub mod build;
pub mod checks;
pub mod demo;
pub mod documents;
pub mod pets;
pub mod rows;
