//! The questions of what a document goes on with.
ghost use Rattle.std.specs.Prelude.{IfOk};
ghost use Rattle.expected_tokens.specs.Answers.{AreExpected, IsAnswer, TellsExpected};

use crate::expected::Expected;
use crate::stops::{front_of, stop_behind};
use language_types::error::OutOfMemory;
use std::alloc::Global;

/// Whether some document begins with the tokens of `text` before the first at fault, and then with those of `next`.
///
/// Where `text` is a document, its end counts as at fault, so those are all of its tokens. `next` may be one token as
/// it is written, or any text. Without a token in it the answer is yes, and where no token begins at some place of it,
/// no. There is no limit on nesting. It takes time in proportion to the length of both texts.
///
/// # Errors
///
/// Out of memory.
pub fn goes_on(alloc: Global, text: &str, next: &str) -> Result<bool, OutOfMemory>
    ensures { IfOk result (IsAnswer text.now next.now) }
{
    let front = front_of(alloc, text.as_bytes())?;
    let stop = stop_behind(alloc, front, next)?;
    Ok(stop.is_end)
}

/// What may stand where the first token of `text` at fault stands, or at its end where it is a document.
///
/// The order is that of [`Expected`]. There is no limit on nesting. It takes time in proportion to the length of the
/// text, once for each that is asked for.
///
/// # Errors
///
/// Out of memory.
pub fn expected_tokens(alloc: Global, text: &str) -> Result<Vec<Expected>, OutOfMemory>
    ensures { IfOk result (λ found. AreExpected text.now found.items) }
{
    let front = front_of(alloc, text.as_bytes())?;
    let candidates = Expected::all();
    let mut found = Vec::new(alloc);
    for candidate in candidates {
        if may_follow(alloc, front, *candidate)? {
            found.push(*candidate)?;
        }
    }
    Ok(found)
}

// Whether it may stand behind these bytes, on a line of its own.
fn may_follow(alloc: Global, front: &[u8], expected: Expected) -> Result<bool, OutOfMemory>
    ensures { IfOk result (TellsExpected front.now expected) }
{
    let stop = stop_behind(alloc, front, expected.sample())?;
    match expected {
        Expected::End => Ok(stop.is_document),
        _ => Ok(stop.is_end),
    }
}
