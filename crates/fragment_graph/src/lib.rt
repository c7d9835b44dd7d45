//! The graph of the fragments of a document, whose edges are their spreads, and the search for cycles
//! in it (GraphQL, October 2021, section 5.5.2.2).
#![tactic(auto)]

pub mod cycles;
pub mod document_graph;
pub mod graph;
pub mod kept;
pub mod names;
pub mod numbers;
pub mod preorder;
pub mod search;
