//! Bytes that are not UTF-8.
ghost use Rattle.std.specs.Prelude.{◌≡◌, IfOk, string_bytes, take};
ghost use Rattle.std.specs.Str.{IsValidUpTo, valid_up_to};
ghost use Rattle.answers.specs.declared.reports.Verdict.TheVariants.{NotUtf8};
ghost use Rattle.answers.specs.Reports.{IsNotUtf8};

use crate::reports::{Answer, Verdict, refusal};
use language::error::OutOfMemory;
use lint_sources::text_places::position_at;
use std::alloc::Global;
use std::str::{self, Utf8Error};

/// The answer to bytes that are not UTF-8.
///
/// # Errors
///
/// Out of memory.
pub fn not_utf8(alloc: Global, bytes: &[u8], error: Utf8Error) -> Result<Answer, OutOfMemory>
    requires { IsValidUpTo bytes.now (valid_up_to error) }
    ensures { IfOk result (λ answer. (answer.verdict ≡ NotUtf8) × IsNotUtf8 bytes.now (string_bytes answer.report)) }
{
    let report = not_utf8_report(alloc, bytes, error)?;
    Ok(Answer {
        verdict: Verdict::NotUtf8,
        report,
    })
}

/// The report on bytes that are not UTF-8: one error, at the first that is not.
///
/// # Errors
///
/// Out of memory.
pub fn not_utf8_report(alloc: Global, bytes: &[u8], error: Utf8Error) -> Result<String, OutOfMemory>
    requires { IsValidUpTo bytes.now (valid_up_to error) }
    ensures { IfOk result (λ report. IsNotUtf8 bytes.now (string_bytes report)) }
{
    let index = error.valid_up_to();
    let text = text_before(bytes, index);
    let position = position_at(bytes, index);
    refusal(alloc, text, position, &error)
}

// The text before the first byte that is not UTF-8.
fn text_before(bytes: &[u8], index: usize) -> &str
    requires { IsValidUpTo bytes.now index }
    ensures { result.now ≡ take index bytes.now }
{
    match str::from_utf8(&bytes[..index]) {
        Ok(text) => text,
        Err(_) => unreachable!(),
    }
}
