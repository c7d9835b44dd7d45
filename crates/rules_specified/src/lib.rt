//! The rules of October 2021 that are not juniper's, each in a module of its own (GraphQL, October 2021, section 5).
#![tactic(auto)]

pub mod collected;
pub mod single_root_field;
