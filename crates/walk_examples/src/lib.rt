//! What users of `walk` write over it: a rule that keeps nodes, and a linter.
#![tactic(auto)]

pub mod kept_fields;
pub mod linter;
