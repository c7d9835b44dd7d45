//! The first stage of validation: every rule except the one on fields that can be merged, in one walk (GraphQL, October
//! 2021, section 5).
#![tactic(auto)]

pub mod across;
pub mod laws;
pub mod rules;

pub use crate::rules::{FirstStage, StageRules, visit_stage_one};
