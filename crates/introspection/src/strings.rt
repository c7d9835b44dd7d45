//! String literals (GraphQL, October 2021, section 2.9.4).
use std::alloc::AllocError;

/// Writes a string literal with this value, on one line. Quotes, backslashes and control characters are escaped.
///
/// # Errors
///
/// Out of memory; `text` may be partly written.
pub fn write_string(text: &mut String, value: &str) -> Result<(), AllocError> {
    text.push('"')?;
    for character in value.chars() {
        write_character(text, character)?;
    }
    text.push('"')
}

fn write_character(text: &mut String, character: char) -> Result<(), AllocError> {
    match escape_of(character) {
        Some(escape) => text.push_str(escape),
        None if character < ' ' => write_code(text, character),
        None => text.push(character),
    }
}

// The escape of two characters, if there is one.
fn escape_of(character: char) -> Option<&'static str> {
    Some(match character {
        '"' => "\\\"",
        '\\' => "\\\\",
        '\u{8}' => "\\b",
        '\u{c}' => "\\f",
        '\n' => "\\n",
        '\r' => "\\r",
        '\t' => "\\t",
        _ => return None,
    })
}

// The code of a control character in four hexadecimal digits, of which the first two are 0.
fn write_code(text: &mut String, character: char) -> Result<(), AllocError> {
    let code = character as u32;
    text.push_str("\\u00")?;
    text.push(hexadecimal(code / 16))?;
    text.push(hexadecimal(code % 16))
}

fn hexadecimal(digit: u32) -> char {
    char::from_digit(digit, 16).unwrap_or('0')
}
