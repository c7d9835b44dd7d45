//! How large the operations of a document are, with their fragments written out (GraphQL, October 2021, section 2.8).
#![tactic(auto)]

pub mod levels;
pub mod measure;
pub mod walk;
