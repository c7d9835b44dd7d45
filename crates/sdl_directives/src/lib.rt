//! Directives in a type system document that are not as the rules on directives and their arguments ask (GraphQL,
//! October 2021, section 3.13, with sections 5.4 and 5.7): [`directive_faults`].
#![tactic(auto)]

pub mod arguments;
pub mod fault;
mod judging;
pub mod known;
mod locations;
pub mod sites;
mod standard;

pub use fault::{DirectiveFault, DirectiveFaultOf, PlacedDirectiveFault};
pub use judging::directive_faults;
pub use standard::STANDARD_DIRECTIVES;
