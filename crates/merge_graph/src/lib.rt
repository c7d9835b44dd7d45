//! The graph of a document: its selection sets by number, with the judgement of its fields, as the search of
//! `merge_tops` needs them.
#![tactic(auto)]

mod building;
pub mod definitions;
pub mod document;
pub mod judge;
pub mod table_graph;
