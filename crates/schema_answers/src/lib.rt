//! What a caller in another language is told of the texts of a schema: [`read_schema`].
//!
//! Proved: a schema is a valid type system in the dialect that was asked for, and else there is a report with a fault
//! at least. Bytes that are not UTF-8 are answered with the place of the first that is not. That the schema is that of
//! the texts is only tested.
#![tactic(auto)]

mod schemas;

pub use schemas::{SchemaAnswer, read_schema};
