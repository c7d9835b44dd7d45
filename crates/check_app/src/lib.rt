//! The work of the program `check`, over any reader and any writers: it validates a document against a sample schema.
#![tactic(auto)]

pub mod failure;
pub mod program;
pub mod report;
