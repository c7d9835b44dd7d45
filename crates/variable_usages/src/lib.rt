//! The variables of the operations of a document: which are used but not defined, and which are defined
//! but not used (GraphQL, October 2021, sections 5.8.3 and 5.8.4).
#![tactic(auto)]

pub mod document_index;
pub mod names;
pub mod undefined;
pub mod unused;
pub mod uses;
