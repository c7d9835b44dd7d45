//! What users of `validation` write over it: a linter, a list of the errors as texts, values that are checked after a
//! validation, and values against types that a schema makes.
#![tactic(auto)]

pub mod linter;
pub mod made_types;
pub mod told;
pub mod values_after;
