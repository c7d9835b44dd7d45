//! The rules that look at a whole document (GraphQL, October 2021, sections 5.5.1.4, 5.5.2.2, 5.8.3 and 5.8.4), each in
//! a module of its own. They report when the walk leaves the document.
#![tactic(auto)]

pub mod laws;
pub mod met_fragments;
pub mod no_fragment_cycles;
pub mod no_undefined_variables;
pub mod no_unused_fragments;
pub mod no_unused_variables;
