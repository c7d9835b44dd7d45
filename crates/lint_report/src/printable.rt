//! Text that a file brings, printed so that no terminal obeys it: control characters, separators of lines and
//! paragraphs, and bidirectional format characters are printed as escapes.
ghost use Rattle.std.specs.Prelude.{◌≡◌, ◌≤◌, ◌++◌, IfOk, OnOk, false, length, string_bytes};
ghost use Rattle.lint_report.specs.Printable.{escape, is_bidirectional, is_control, is_printable, is_separator};
ghost use Rattle.lint_report.specs.Printable.{printed, printed_character, printed_in_lines, printed_lines};
ghost use Rattle.lint_report.specs.Lines.{IsPrintableInLines};

use std::alloc::{AllocError, Global};

/// Whether a character is printed as it is: it is no control character but the tab, no separator of lines or paragraphs,
/// and no bidirectional format character.
pub fn is_printable(character: char) -> bool
    ensures { result ≡ is_printable character }
{
    !(is_control(character) || is_separator(character) || is_bidirectional(character))
}

// C0 but the tab, DEL, and C1.
fn is_control(character: char) -> bool
    ensures { result ≡ is_control character }
{
    (character < '\u{20}' && character != '\t') || ('\u{7f}' <= character && character <= '\u{9f}')
}

// The line separator and the paragraph separator.
fn is_separator(character: char) -> bool
    ensures { result ≡ is_separator character }
{
    '\u{2028}' <= character && character <= '\u{2029}'
}

// Characters that set the direction of text.
fn is_bidirectional(character: char) -> bool
    ensures { result ≡ is_bidirectional character }
{
    character == '\u{61c}'
        || ('\u{200e}' <= character && character <= '\u{200f}')
        || ('\u{202a}' <= character && character <= '\u{202e}')
        || ('\u{2066}' <= character && character <= '\u{2069}')
}

/// How many characters the escape of a character has that is not printable.
pub fn escape_length(character: char) -> usize
    ensures length { is_printable character ≡ false → result ≡ length (escape character) }
    ensures bound { result ≤ 8 }
{
    let code = u32::from(character);
    if code < 0x10 {
        5
    } else if code < 0x100 {
        6
    } else if code < 0x1000 {
        7
    } else {
        8
    }
}

/// Appends a text. Each character that is not printable is written as its escape, as `\u{1b}`.
///
/// # Errors
///
/// Out of memory; part of it may have been appended.
pub fn write_printed(text: &mut String, piece: &str) -> Result<(), AllocError>
    ensures { OnOk result (string_bytes text.new ≡ string_bytes text.old ++ printed piece.now) }
{
    for character in piece.chars() {
        write_character(text, character)?;
    }
    Ok(())
}

fn write_character(text: &mut String, character: char) -> Result<(), AllocError>
    ensures { OnOk result (string_bytes text.new ≡ string_bytes text.old ++ printed_character character) }
{
    if is_printable(character) {
        text.push(character)
    } else {
        write_escape(text, character)
    }
}

fn write_escape(text: &mut String, character: char) -> Result<(), AllocError>
    ensures { OnOk result (string_bytes text.new ≡ string_bytes text.old ++ escape character) }
{
    let code = u32::from(character);
    write!(text, "\\u{{{code:x}}}")
}

/// A text with the escapes of its characters that are not printable.
///
/// # Errors
///
/// Out of memory.
pub fn printed(alloc: Global, piece: &str) -> Result<String, AllocError>
    ensures { IfOk result (λ s. string_bytes s ≡ printed piece.now) }
{
    let mut text = String::new(alloc);
    write_printed(&mut text, piece)?;
    Ok(text)
}

/// The same of a text of several lines, whose line feeds stay.
///
/// # Errors
///
/// Out of memory.
pub fn printed_lines(alloc: Global, lines: &str) -> Result<String, AllocError>
    ensures told { IfOk result (λ s. string_bytes s ≡ printed_lines lines.now) }
    ensures printable { IfOk result (λ s. IsPrintableInLines (string_bytes s)) }
{
    let mut text = String::new(alloc);
    for character in lines.chars() {
        write_in_lines(&mut text, character)?;
    }
    Ok(text)
}

fn write_in_lines(text: &mut String, character: char) -> Result<(), AllocError>
    ensures { OnOk result (string_bytes text.new ≡ string_bytes text.old ++ printed_in_lines character) }
{
    if character == '\n' {
        text.push_str("\n")
    } else {
        write_character(text, character)
    }
}
