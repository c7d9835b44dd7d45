//! What a caller in another language is told of a document: whether it is valid ([`answer`]), and whether the values of
//! its variables are, too ([`answer_with_values`]), each with a report as JSON. For callers in Rattle [`validate_text`]
//! returns the errors.
//!
//! Proved: a text is answered with `Valid` exactly where it is that of a document that is valid by the rules of the
//! schema's dialect, and with `Unreadable` exactly where it is that of none. A report's bytes are those of the errors,
//! up to the number that the caller chooses, or of the first token with which no document goes on. Bytes that are not
//! UTF-8 are answered with the place of the first that is not.
#![tactic(auto)]

mod bytes;
mod choices;
mod documents;
mod errors;
mod reports;
mod rules;
mod texts;
mod values;

pub use bytes::not_utf8_report;
pub use choices::Choices;
pub use documents::answer;
pub use reports::{Answer, Verdict};
pub use rules::AnswerRules;
pub use texts::validate_text;
pub use values::answer_with_values;
