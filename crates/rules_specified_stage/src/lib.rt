//! The first stage of validation by October 2021: every rule except the one on fields that can be merged, in one walk
//! (GraphQL, October 2021, section 5).
#![tactic(auto)]

pub mod arguments;
pub mod groups;
pub mod laws;
pub mod rules;

pub use crate::rules::{SpecifiedStage, SpecifiedStageRules, visit_specified_stage};
