//! A schema in memory of a caller in C: [`Handle`], and what it holds: [`Held`].
//!
//! The handle is a struct of the caller. Where it is open it has a pointer to a block that holds the schema and the
//! last report. Proved: what each call leaves in a handle, that its block is freed once, and that a handle may go to
//! another thread.
#![tactic(auto)]

mod calls;
mod handle;
mod parts;
mod slot;

pub use calls::{Copied, Shared, copy_report, has_schema, share};
pub use handle::Handle;
pub use slot::{Held, SourceSchema};
