//! Where a type system document has the names of types, their members and directives (GraphQL, October 2021, section
//! 3): [`place_of`].
//!
//! Proved: the place is that of the name which the coordinate names, in the first definition or extension that has it,
//! and there is none only if no definition or extension has it.
#![tactic(auto)]

mod definitions;
mod documents;
mod members;

pub use documents::place_of;
