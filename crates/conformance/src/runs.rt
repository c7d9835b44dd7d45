//! Runs of the program `check`.
use check_app::program::run;
use samples::build::Checks;
use std::alloc::{AllocError, Global};
use std::str;

/// Appends the exit status of a run with these arguments and this input, on a line, and what it writes to its output
/// and to its faults. All words are arguments.
///
/// # Errors
///
/// Out of memory.
pub fn tell_run(
    alloc: Global,
    checks: Checks,
    words: &str,
    text: &str,
    came: &mut String,
) -> Result<bool, AllocError> {
    let words = owned_words(alloc, words)?;
    let (mut output, mut faults) = (Vec::new(alloc), Vec::new(alloc));
    let mut input = text.as_bytes();
    let status = run(
        alloc,
        checks,
        words.as_slice(),
        &mut input,
        &mut output,
        &mut faults,
    );
    writeln!(came, "status {status}")?;
    came.push_str(str_of(output.as_slice()))?;
    if !faults.is_empty() {
        came.push_str("faults: ")?;
        came.push_str(str_of(faults.as_slice()))?;
    }
    Ok(true)
}

fn owned_words(alloc: Global, words: &str) -> Result<Vec<String>, AllocError> {
    let mut owned = Vec::new(alloc);
    for word in words.split_whitespace() {
        owned.push(String::from_str(alloc, word)?)?;
    }
    Ok(owned)
}

fn str_of(written: &[u8]) -> &str {
    str::from_utf8(written).unwrap_or("no text")
}
