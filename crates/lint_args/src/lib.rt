//! The command-line arguments of the program `lint`, and the task that they ask for.
//!
//! The contract of `Task::of` says which task that is, by the definition of `clap` of what a command line matches.
#![tactic(auto)]

pub mod command_line;
pub mod laws;
pub mod task;
