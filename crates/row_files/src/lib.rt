//! Files of rows: texts, each with what is expected of it. A program says what comes of a text; this crate reads the
//! rows, compares and counts.
//!
//! A file is a head in free words, and then rows. A row is a line `=== KIND` or `=== KIND: NOTE`, the text, a line
//! `>>>`, and the lines that are expected. A text ends before the end of its last line. `<U+D>` stands for the
//! character of this number. The text of `=== repeated KIND` is written in pieces between strokes, as `500*[`: how
//! often, and what.
#![tactic(auto)]

mod failure;
mod lines;
mod program;
mod report;
mod rows;

pub use failure::Failure;
pub use lines::Lines;
pub use program::run;
pub use report::Report;
pub use rows::{Judge, judge_rows};
