//! What is shown of a line round a place: a window of at most 120 columns, and a mark below the place.
ghost use Rattle.std.specs.Prelude.{◌≡◌, ◌-◌, ◌≤◌, ◌++◌, [], IfSome, IsUtf8, MatchOption, OnOk, chars, encode_utf8_all};
ghost use Rattle.std.specs.Prelude.{string_bytes};
ghost use Rattle.std.specs.Char.{encode_utf8};
ghost use Rattle.lint_report.specs.Windows.{blank_for, blanks, columns, first_within, last_within, room_for, room_of};
ghost use Rattle.lint_report.specs.Windows.{window};

use crate::colours::mark;
use crate::printable::{escape_length, is_printable, write_printed};
use std::alloc::AllocError;
use unicode_width::UnicodeWidthChar;

// The columns before the place, and those from the place on if all of the former are taken.
const BEFORE: usize = 80;

const BEHIND: usize = 40;

/// Appends a window of a line, given as what comes before a place and the rest, and a line with a mark below the place,
/// which may be coloured.
///
/// # Errors
///
/// Out of memory; `text` may be partly written.
pub fn write_window(
    text: &mut String,
    is_coloured: bool,
    before: &str,
    rest: &str,
) -> Result<(), AllocError>
    ensures { OnOk result
        (string_bytes text.new ≡ string_bytes text.old ++ window is_coloured (chars before.now) (chars rest.now)) }
{
    let (shown, left) = last_within(before, BEFORE);
    write_printed(text, shown)?;
    write_printed(text, first_within(rest, left + BEHIND))?;
    text.push_str("\n")?;
    write_blanks(text, shown)?;
    text.push_str(mark(is_coloured))?;
    Ok(())
}

// The longest end of a text that takes at most so many columns, and how many of them it leaves.
fn last_within(text: &str, room: usize) -> (&str, usize)
    ensures shown { result.0.now ≡ encode_utf8_all (last_within room (chars text.now)) }
    ensures left { result.1 ≡ room - room_of (last_within room (chars text.now)) }
    ensures within { room_of (last_within room (chars text.now)) ≤ room }
    ensures utf8 { IsUtf8 result.0.now }
{
    let mut front = text;
    let mut left = room;
    while let Some((before, last)) = split_last(front) {
        let taken = room_for(last);
        if taken > left {
            return (&text[front.len()..], left);
        }
        left -= taken;
        front = before;
    }
    (text, left)
}

// The longest beginning of a text that takes at most so many columns.
fn first_within(text: &str, room: usize) -> &str
    ensures shown { result.now ≡ encode_utf8_all (first_within room (chars text.now)) }
    ensures utf8 { IsUtf8 result.now }
{
    let mut rest = text;
    let mut left = room;
    while let Some((first, behind)) = split_first(rest) {
        let taken = room_for(first);
        if taken > left {
            return &text[..text.len() - rest.len()];
        }
        left -= taken;
        rest = behind;
    }
    text
}

fn split_last(text: &str) -> Option<(&str, char)>
    ensures parts { MatchOption result (text.now ≡ []) (λ parts. text.now ≡ parts.0.now ++ encode_utf8 parts.1) }
    ensures utf8 { IfSome result (λ parts. IsUtf8 parts.0.now) }
{
    let mut characters = text.chars();
    let last = characters.next_back()?;
    Some((characters.as_str(), last))
}

fn split_first(text: &str) -> Option<(char, &str)>
    ensures parts { MatchOption result (text.now ≡ []) (λ parts. text.now ≡ encode_utf8 parts.0 ++ parts.1.now) }
    ensures utf8 { IfSome result (λ parts. IsUtf8 parts.1.now) }
{
    let mut characters = text.chars();
    let first = characters.next()?;
    Some((first, characters.as_str()))
}

// A tab below a tab, and spaces below all else, so that what follows lines up.
fn write_blanks(text: &mut String, shown: &str) -> Result<(), AllocError>
    ensures { OnOk result (string_bytes text.new ≡ string_bytes text.old ++ blanks (chars shown.now)) }
{
    for character in shown.chars() {
        text.push_str(blank_for(character))?;
    }
    Ok(())
}

fn blank_for(character: char) -> &'static str
    ensures { result.now ≡ blank_for character }
{
    if character == '\t' {
        return "\t";
    }
    match columns(character) {
        0 => "",
        1 => " ",
        2 => "  ",
        3 => "   ",
        4 => "    ",
        5 => "     ",
        6 => "      ",
        7 => "       ",
        _ => "        ",
    }
}

// The columns that a character may take of a window. How far a tab goes is up to the terminal, at most 8.
fn room_for(character: char) -> usize
    ensures { result ≡ room_for character }
{
    if character == '\t' {
        8
    } else {
        columns(character).max(1)
    }
}

// The columns of a character. One that is not printable has those of its escape.
fn columns(character: char) -> usize
    ensures value { result ≡ columns character }
    ensures bound { result ≤ 8 }
{
    if is_printable(character) {
        character.width().unwrap_or(0)
    } else {
        escape_length(character)
    }
}
