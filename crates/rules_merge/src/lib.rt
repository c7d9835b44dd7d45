//! The rule on fields that can be merged (GraphQL, October 2021, section 5.3.2).
#![tactic(auto)]

pub mod overlapping_fields_can_be_merged;
