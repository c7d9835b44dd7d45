//! The faults of a schema that was read from a type system document, each at its place in the text (GraphQL, October
//! 2021, section 3): [`text_faults`]; or where there is no schema, [`plain_text_faults`], and [`rest_of_text_faults`]
//! with those of what is left.
#![tactic(auto)]

mod all;
mod apart;
mod directives;
pub mod located;
mod places;
mod telling;

pub use all::{plain_text_faults, rest_of_text_faults, text_faults};
pub use located::LocatedFault;
