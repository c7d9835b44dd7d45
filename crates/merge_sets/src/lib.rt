//! Sets of fields by number, and what is known of the fields by themselves: of one response name, of one kind, and of
//! names under which all fields agree.
#![tactic(auto)]

pub mod budget;
pub mod finding;
pub mod graph;
pub mod groups;
pub mod judge;
pub mod kinds;
pub mod node;
pub mod numbers;
pub mod opening;
pub mod plain;
pub mod plain_names;
pub mod view;
