//! Why a document makes no schema, and the document without that (GraphQL, October 2021, section 3): what the reasons
//! touch, [`Touched`], and the rest as a schema, [`Mended`].
//!
//! Proved: exactly the types that the reasons touch are told as touched. Every other call is safe and returns. That the
//! mended document is the rest is only tested.
#![tactic(auto)]

mod mended;
mod places;
mod shells;
mod touched;

pub use mended::Mended;
pub use touched::Touched;
