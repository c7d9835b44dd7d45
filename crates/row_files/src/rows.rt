//! The rows of a file, judged one after the other.
use crate::failure::Failure;
use crate::lines::{Lines, before};
use crate::report::Report;
use std::alloc::{AllocError, Global};
use std::str;

/// How the line begins that begins a row.
const BEGIN: &[u8] = b"=== ";

/// The line between a text and what is expected.
const MIDDLE: &[u8] = b">>>";

/// How the kind of a row begins whose text is written in pieces.
const REPEATED: &str = "repeated ";

/// How a character begins that is written as its number.
const NUMBERED: &str = "<U+";

/// What a program makes of rows.
pub trait Judge {
    /// Appends the lines that come of a row's text, with their ends. Whether there is such a kind of rows.
    ///
    /// # Errors
    ///
    /// Out of memory.
    fn judge(
        &self,
        alloc: Global,
        kind: &str,
        text: &str,
        came: &mut String,
    ) -> Result<bool, AllocError>;
}

/// A text and what is expected of it, as they are written.
#[derive(Clone, Copy)]
struct Row<'a> {
    kind: &'a str,
    is_repeated: bool,
    // Without the end of its last line.
    text: &'a [u8],
    wanted: &'a [u8],
}

/// Judges and counts the rows of a file.
///
/// # Errors
///
/// The format is invalid, or out of memory.
pub fn judge_rows<J: Judge>(
    alloc: Global,
    judge: &J,
    file: &[u8],
    report: &mut Report,
) -> Result<(), Failure> {
    let mut lines = Lines::new(file);
    lines.take_until(BEGIN);
    for _ in 0..lines.bound() {
        if lines.left().is_empty() {
            break;
        }
        let row = take_row(&mut lines)?;
        if !judge_row(alloc, judge, &row, report)? {
            return Err(Failure::Format(lines.number()));
        }
    }
    Ok(())
}

// Judges and counts a row, unless its kind is unknown.
fn judge_row<J: Judge>(
    alloc: Global,
    judge: &J,
    row: &Row<'_>,
    report: &mut Report,
) -> Result<bool, AllocError> {
    let text = text_of(alloc, row)?;
    let wanted = plain(alloc, row.wanted)?;
    let mut came = String::new(alloc);
    if !judge.judge(alloc, row.kind, text.as_str(), &mut came)? {
        return Ok(false);
    }
    report.count(wanted.as_str(), came.as_str())?;
    Ok(true)
}

// Takes the row that begins here.
fn take_row<'a>(lines: &mut Lines<'a>) -> Result<Row<'a>, Failure> {
    let asked = str_of(before(lines.take_part(BEGIN)?, b':'));
    let repeated = asked.strip_prefix(REPEATED);
    let text = lines.take_until(MIDDLE);
    lines.take_part(MIDDLE)?;
    Ok(Row {
        kind: repeated.unwrap_or(asked),
        is_repeated: repeated.is_some(),
        text: text.strip_suffix(b"\n").unwrap_or(text),
        wanted: lines.take_until(BEGIN),
    })
}

fn text_of(alloc: Global, row: &Row<'_>) -> Result<String, AllocError> {
    let text = plain(alloc, row.text)?;
    if row.is_repeated {
        repeated(alloc, text.as_str())
    } else {
        Ok(text)
    }
}

// The text of pieces as `500*[`, which `|` separates.
fn repeated(alloc: Global, pieces: &str) -> Result<String, AllocError> {
    let mut text = String::new(alloc);
    for piece in pieces.split('|') {
        let (times, part) = piece.split_once('*').unwrap_or(("0", ""));
        for _ in 0..times.parse::<usize>().unwrap_or(0) {
            text.push_str(part)?;
        }
    }
    Ok(text)
}

// The text with the characters in place of their numbers.
fn plain(alloc: Global, text: &[u8]) -> Result<String, AllocError> {
    let mut pieces = str_of(text).split(NUMBERED);
    let mut plain = String::from_str(alloc, pieces.next().unwrap_or(""))?;
    for piece in pieces {
        let (digits, rest) = piece.split_once('>').unwrap_or(("", piece));
        plain.push(numbered(digits))?;
        plain.push_str(rest)?;
    }
    Ok(plain)
}

// The character of a hexadecimal number.
fn numbered(digits: &str) -> char {
    match u32::from_str_radix(digits, 16) {
        Ok(number) => char::from_u32(number).unwrap_or(char::REPLACEMENT_CHARACTER),
        Err(_) => char::REPLACEMENT_CHARACTER,
    }
}

// Whole lines of valid UTF-8 are valid UTF-8.
fn str_of(lines: &[u8]) -> &str {
    str::from_utf8(lines).unwrap_or("")
}
