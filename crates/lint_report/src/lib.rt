//! The reports of the program `lint`, without input and output: errors printed as text, as JSON and for GitHub, a module
//! for each form.
//!
//! Every call is safe and returns, whatever the texts. Proved beyond that: the reports as text, as JSON and for GitHub
//! are pinned byte for byte, down to the line that counts errors and files. The text has as many lines as its errors and
//! their places ask for, and every character of it is printable but for colours.
#![tactic(auto)]

pub mod colours;
pub mod github_report;
pub mod json_escapes;
pub mod json_report;
pub mod printable;
pub mod text_report;
pub mod windows;
