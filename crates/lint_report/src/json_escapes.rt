//! Escapes in JSON for the characters that are not printable, which JSON itself would let stand.
ghost use Rattle.std.specs.Prelude.{◌≡◌, ◌++◌, IfOk, OnOk, string_bytes};
ghost use Rattle.lint_report.specs.JsonEscapes.{escape, escaped, escaped_character, zeros};
ghost use Rattle.lint_report.specs.Lines.{IsPrintableInLines};

use crate::printable::is_printable;
use std::alloc::{AllocError, Global};

/// A JSON text with an escape, as `\u202e`, for each character that is not printable, but the line feeds between tokens.
/// Such a character stands only in strings, so the text means the same.
///
/// # Errors
///
/// Out of memory.
pub fn escaped(alloc: Global, json: &str) -> Result<String, AllocError>
    ensures told { IfOk result (λ s. string_bytes s ≡ escaped json.now) }
    ensures printable { IfOk result (λ s. IsPrintableInLines (string_bytes s)) }
{
    let mut text = String::new(alloc);
    for character in json.chars() {
        write_character(&mut text, character)?;
    }
    Ok(text)
}

fn write_character(text: &mut String, character: char) -> Result<(), AllocError>
    ensures { OnOk result (string_bytes text.new ≡ string_bytes text.old ++ escaped_character character) }
{
    if character == '\n' || is_printable(character) {
        text.push(character)
    } else {
        write_escape(text, character)
    }
}

fn write_escape(text: &mut String, character: char) -> Result<(), AllocError>
    ensures { OnOk result (string_bytes text.new ≡ string_bytes text.old ++ escape character) }
{
    let code = u32::from(character);
    let zeros = zeros(code);
    write!(text, "\\u{zeros}{code:x}")
}

// What fills four hexadecimal digits.
fn zeros(code: u32) -> &'static str
    ensures { result.now ≡ zeros code }
{
    if code < 0x10 {
        "000"
    } else if code < 0x100 {
        "00"
    } else if code < 0x1000 {
        "0"
    } else {
        ""
    }
}
