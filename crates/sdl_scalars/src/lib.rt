//! The scalars of a GraphQL text as written, and the checks of the leaf and input types that a schema's text defines.
#![tactic(auto)]

pub mod check;
pub mod scalar;

pub use check::SourceCheck;
pub use scalar::SourceScalar;
