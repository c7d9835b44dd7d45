//! Positions and lines of a text. A line ends with a line feed, a carriage return, or both in this order (section
//! 2.1.3).
ghost use Rattle.std.specs.Prelude.{◌≡◌, ◌+◌, ◌≤◌, if◌then◌else◌, [], ◌∷◌, ◌++◌, count_by, length, take, take_while};
ghost use Rattle.std.specs.List.{prefix_len};
ghost use Rattle.language_types.specs.Position as position;
ghost use Rattle.lint_sources.specs.Lines.{line_ends, more_ends};
ghost use Rattle.lint_sources.specs.ShownLines.{IsLineOf, before_place, begins_character, characters_before};
ghost use Rattle.lint_sources.specs.ShownLines.{column_after, is_in_line};

use language_types::position::SourcePosition;
use memchr::memchr2;

/// The position of a byte index: its 0-based line and column, in bytes.
pub fn position_at(text: &[u8], index: usize) -> SourcePosition
    ensures index { position.index_of result ≡ length (take index text.now) }
    ensures line { position.line_of result ≡ line_ends (take index text.now) }
    ensures column { position.column_of result ≡ column_after (take index text.now) }
{
    let before = text.get(..index).unwrap_or(text);
    SourcePosition::new(before.len(), lines_ended(before).0, last_length(before))
}

// The number of bytes after the last line terminator.
fn last_length(text: &[u8]) -> usize
    ensures { result ≡ column_after text.now }
{
    text.iter()
        .rev()
        .take_while(|byte| **byte != b'\n' && **byte != b'\r')
        .count()
}

/// The number of lines that end in a text with a line feed after it.
pub fn lines_before_feed(text: &str) -> usize
    ensures { result ≡ line_ends (text.now ++ 10 ∷ []) }
{
    let (ended, after_return) = lines_ended(text.as_bytes());
    if after_return { ended } else { ended + 1 }
}

// The number of lines that end in a text, and whether its last byte is a carriage return, which a line feed would join.
fn lines_ended(text: &[u8]) -> (usize, bool)
    ensures ended { result.0 ≡ line_ends text.now }
    ensures fed { result.0 + (if result.1 then 0 else 1) ≡ line_ends (text.now ++ 10 ∷ []) }
    ensures within { result.0 ≤ length text.now }
{
    let mut ended: usize = 0;
    let mut after_return = false;
    for byte in text {
        ended += more_ended(*byte, after_return);
        after_return = *byte == b'\r';
    }
    (ended, after_return)
}

// The number of lines that end with a byte, which may follow a carriage return.
fn more_ended(byte: u8, after_return: bool) -> usize
    ensures { result ≡ more_ends after_return byte }
{
    match byte {
        b'\r' => 1,
        b'\n' if !after_return => 1,
        _ => 0,
    }
}

/// The number of characters that a line has before a position.
pub fn characters_before(text: &str, position: SourcePosition) -> usize
    ensures { result ≡ characters_before text.now position }
{
    characters_in(before_place(text.as_bytes(), position))
}

// The number of characters that begin in a text. In one of ASCII, as most are, each byte does, which is faster to see.
fn characters_in(text: &[u8]) -> usize
    ensures { result ≡ count_by begins_character text.now }
{
    if text.is_ascii() {
        return text.len();
    }
    text.iter().filter(|byte| begins_character(**byte)).count()
}

// What a line has before a position, whose column counts bytes.
fn before_place(text: &[u8], position: SourcePosition) -> &[u8]
    ensures { result.now ≡ before_place text.now position }
{
    let start = position.index().saturating_sub(position.column());
    let line = text.get(start..).unwrap_or(&[]);
    line.get(..position.column()).unwrap_or(line)
}

fn begins_character(byte: u8) -> bool
    ensures { result ≡ begins_character byte }
{
    !(0x80..0xC0).contains(&byte)
}

/// The line of a position, without its line terminator.
pub fn line_of(text: &str, position: SourcePosition) -> &str
    ensures { IsLineOf text.now position result.now }
{
    let start = position.index().saturating_sub(position.column());
    if text.is_char_boundary(start) {
        first_line(&text[start..])
    } else {
        ""
    }
}

// The text before the first line terminator.
fn first_line(text: &str) -> &str
    ensures { result.now ≡ take_while is_in_line text.now }
{
    &text[..first_length(text)]
}

// The number of bytes before the first line terminator.
fn first_length(text: &str) -> usize
    ensures { result ≡ prefix_len is_in_line text.now }
{
    match memchr2(b'\n', b'\r', text.as_bytes()) {
        Some(length) => length,
        None => text.len(),
    }
}
