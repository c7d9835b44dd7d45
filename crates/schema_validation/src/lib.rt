//! The validation of a list of types as a schema: why a list is refused, and the parts of which a
//! schema is made (GraphQL, October 2021, section 3).
#![tactic(auto)]

pub mod accept;
mod added;
pub mod directives;
pub mod error;
pub mod extend;
pub mod first;
pub mod keyed;
pub mod listed;
pub mod roots;
pub mod slots;
pub mod standard_directives;
mod table;
