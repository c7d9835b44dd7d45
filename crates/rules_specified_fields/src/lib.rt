//! The rules of October 2021 on fields, where juniper departs from it (GraphQL, October 2021, section 5.3).
#![tactic(auto)]

pub mod fields_on_correct_type;
pub mod typename_leafs;
