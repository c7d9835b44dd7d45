//! What the program `lint` reads, without input and output: several files as one text and positions mapped back to
//! their files; errors in them, each at its places; values of variables read from JSON (GraphQL, October 2021, section
//! 6.1.2).
//!
//! Every call is safe and returns, whatever the texts. Proved beyond that:
//!
//! - the joined text has the files as they are, with a line feed between each two;
//! - a position belongs to the last file that starts at or before it, and counts from there;
//! - an issue has its error's message and positions, and belongs to the file of the first one;
//! - a fault has its file, its message and its places, of which further ones may be in other files.
#![tactic(auto)]

pub mod faults;
pub mod issues;
pub mod json_text;
pub mod sources;
pub mod text_places;
pub mod variables;
