//! The rules on fields (GraphQL, October 2021, sections 5.3.1 and 5.3.3) and the rule against introspection, each in a
//! module of its own.
#![tactic(auto)]

pub mod disable_introspection;
pub mod fields_on_correct_type;
pub mod scalar_leafs;
