//! JSON texts: which text is meant as JSON, and where its first error is.
use crate::text_places::position_at;
use json::{Reader, Scratch, Value};
use language_types::error::OutOfMemory;
use language_types::position::SourcePosition;
use std::alloc::{AllocError, AllocFailed, Global};
use std::error::Error;
use std::fmt;

/// Why a text is not the JSON that is expected.
#[derive(Clone, Copy, Debug, PartialEq, Eq)]
pub enum JsonError {
    /// A syntax error at this position.
    Syntax(SourcePosition),
    /// The value is not an object; it starts at this position.
    NoObject(SourcePosition),
    /// Out of memory; nothing is known of the text.
    OutOfMemory,
}

impl JsonError {
    /// The position of the error, if it has one.
    pub fn position(&self) -> Option<SourcePosition> {
        match self {
            JsonError::Syntax(position) | JsonError::NoObject(position) => Some(*position),
            JsonError::OutOfMemory => None,
        }
    }
}

impl fmt::Display for JsonError {
    fn fmt<W: fmt::Write>(&self, f: &mut fmt::Formatter<W>) -> fmt::Result {
        f.write_str(match self {
            JsonError::Syntax(_) => "invalid JSON",
            JsonError::NoObject(_) => "expected a JSON object",
            JsonError::OutOfMemory => "out of memory",
        })
    }
}

impl Error for JsonError {}

impl From<AllocError> for JsonError {
    fn from(_: AllocError) -> Self {
        JsonError::OutOfMemory
    }
}

impl<T: Drop> From<AllocFailed<T>> for JsonError {
    fn from(_: AllocFailed<T>) -> Self {
        JsonError::OutOfMemory
    }
}

impl From<OutOfMemory> for JsonError {
    fn from(_: OutOfMemory) -> Self {
        JsonError::OutOfMemory
    }
}

/// The text without its byte order mark, if it begins with one.
pub fn without_mark(text: &str) -> &str {
    text.strip_prefix('\u{feff}').unwrap_or(text)
}

/// Whether a text begins with `{`, after a byte order mark and white space. No type definition does.
pub fn is_object_text(text: &str) -> bool {
    without_mark(text).trim_start().starts_with('{')
}

/// The JSON value of a text, which may begin with a byte order mark and nest at most 128 levels deep.
///
/// # Errors
///
/// The text is not such a value, or out of memory.
pub fn read_value<'a>(
    alloc: Global,
    text: &'a str,
    scratch: &'a mut Scratch,
) -> Result<Value<'a>, JsonError> {
    let written = without_mark(text);
    let mark = text.len().saturating_sub(written.len());
    let mut reader = Reader::new(written, scratch)?;
    let value = match Value::read(alloc, &mut reader, json::MAX_DEPTH) {
        Ok(value) => value,
        Err(json::Error::OutOfMemory) => return Err(JsonError::OutOfMemory),
        Err(_) => return Err(syntax_error(text, mark, reader.offset())),
    };
    let end = reader.offset();
    if reader.next().is_some() {
        return Err(syntax_error(text, mark, end));
    }
    Ok(value)
}

// The syntax error at an offset after the byte order mark.
fn syntax_error(text: &str, mark: usize, offset: usize) -> JsonError {
    JsonError::Syntax(position_at(text.as_bytes(), mark.saturating_add(offset)))
}

/// Checks that a text is JSON.
///
/// # Errors
///
/// The text is not JSON, or out of memory.
pub fn check_syntax(alloc: Global, text: &str) -> Result<(), JsonError> {
    let mut scratch = Scratch::new(alloc);
    read_value(alloc, text, &mut scratch)?;
    Ok(())
}
