//! Errors of one text as JSON, for callers in other languages: [`report`].
//!
//! Proved: the bytes of a report are pinned by the errors and their text.
#![tactic(auto)]

mod error_list;

pub use error_list::report;
