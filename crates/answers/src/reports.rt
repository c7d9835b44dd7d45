//! What is told of a text: how it was judged, and its errors.
ghost use Rattle.std.specs.Prelude.{◌≡◌, IfOk, string_bytes};
ghost use Rattle.answers.specs.Answers.{IsTold, verdict_in};
ghost use Rattle.answers.specs.Reports.{IsRefusal};

use error_report::report;
use language::error::OutOfMemory;
use language::position::SourcePosition;
use std::alloc::Global;
use std::{fmt, slice};
use walk::RuleError;

/// How a text was judged.
#[derive(Clone, Copy, Debug, PartialEq, Eq)]
pub enum Verdict {
    /// The document is valid.
    Valid,
    /// The document has errors, or the values of its variables have.
    Invalid,
    /// The text is not a document.
    Unreadable,
    /// The values are not a JSON object.
    NoValues,
    /// The bytes are not UTF-8.
    NotUtf8,
}

/// What is told of a text.
#[derive(Debug, Drop)]
pub struct Answer {
    pub verdict: Verdict,
    /// The errors as JSON: a list of objects with `message` and `locations`.
    pub report: String,
}

/// The answer with these errors of a text.
///
/// # Errors
///
/// Out of memory.
pub fn answer_of_errors(
    alloc: Global,
    text: &str,
    errors: &[RuleError],
) -> Result<Answer, OutOfMemory>
    ensures { IfOk result (IsTold text.now errors.now) }
{
    let report = report(alloc, text, errors)?;
    let verdict = verdict_of(errors);
    Ok(Answer { verdict, report })
}

// Valid exactly where there is no error.
fn verdict_of(errors: &[RuleError]) -> Verdict
    ensures { result ≡ verdict_in errors.now }
{
    if errors.is_empty() {
        Verdict::Valid
    } else {
        Verdict::Invalid
    }
}

/// The report on a text that could not be judged: the reason, at this place.
///
/// # Errors
///
/// Out of memory.
pub fn refusal<M: fmt::Display>(
    alloc: Global,
    text: &str,
    position: SourcePosition,
    reason: &M,
) -> Result<String, OutOfMemory>
    ensures { IfOk result (λ report. IsRefusal text.now position (string_bytes report)) }
{
    let message = format!(in alloc; "{reason}")?;
    let error = RuleError::new(alloc, message.as_str(), slice::from_ref(&position))?;
    report(alloc, text, slice::from_ref(&error))
}
