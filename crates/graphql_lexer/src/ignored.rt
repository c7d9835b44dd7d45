//! What stands between tokens (GraphQL, October 2021, sections 2.1.1 to 2.1.7).
ghost use Rattle.std.specs.Prelude.{◌≡◌, ◌≤◌, ◌<◌, ◌+◌, ◌^◌, ◌&&◌, not, false, length, option_map};
ghost use Rattle.graphql_strings.specs.Characters.{at, is_line_end};
ghost use Rattle.graphql_lexer.specs.Lexical.{is_blank};
ghost use Rattle.graphql_lexer.specs.Places.{Counts};
ghost use Rattle.graphql_lexer.specs.Scan.{ahead, start_at, IsPast};
ghost use Rattle.graphql_lexer.specs.Scanning as spec;

use crate::classes::{is_other_ignored, is_space};
use crate::cursor::Cursor;
use crate::lexer::is_line_byte;
use graphql_strings::parts::rest;

/// Goes on from a position to where the next token of the text starts, and returns the text from it on: behind white
/// space, line terminators, commas, comments and byte order marks.
#[inline(always)]
pub(crate) fn skip<'a>(cursor: &mut Cursor, text: &'a [u8]) -> &'a [u8]
    requires counts { Counts cursor.old }
    requires fits { cursor.old.index + length text.now < 2 ^ 64 }
    ensures start { cursor.new ≡ start_at cursor.old text.now }
    ensures ahead { result.now ≡ ahead text.now }
    ensures index { cursor.new.index + length result.now ≡ cursor.old.index + length text.now }
    ensures counts { Counts cursor.new }
{
    let mut ahead = text;
    while let Some(more) = past(cursor, ahead) {
        ahead = more;
    }
    ahead
}

// Goes on to behind the ignored token at the front, and returns the text after it, if one is there.
#[inline(always)]
fn past<'a>(cursor: &mut Cursor, text: &'a [u8]) -> Option<&'a [u8]>
    requires counts { Counts cursor.old }
    requires fits { cursor.old.index + length text.now < 2 ^ 64 }
    ensures { IsPast cursor.old text.now cursor.new (option_map (λ more. more.now) result) }
{
    match text.first() {
        Some(byte) if is_space(*byte) => {
            cursor.along(1);
            Some(rest(text, 1))
        }
        Some(byte) if is_other_ignored(*byte) => past_other(cursor, text),
        Some(_) => None,
        None => None,
    }
}

// The same, where no tab, space or comma is at the front.
#[inline(always)]
fn past_other<'a>(cursor: &mut Cursor, text: &'a [u8]) -> Option<&'a [u8]>
    requires counts { Counts cursor.old }
    requires fits { cursor.old.index + length text.now < 2 ^ 64 }
    requires other { (is_blank (at text.now 0) && not (is_line_end (at text.now 0))) ≡ false }
    ensures { IsPast cursor.old text.now cursor.new (option_map (λ more. more.now) result) }
{
    match text.first() {
        None => None,
        Some(b'\n') => {
            cursor.line_feed();
            Some(rest(text, 1))
        }
        Some(b'\r') => {
            cursor.carriage_return();
            Some(rest(text, 1))
        }
        Some(b'#' | b'\xEF') => past_run(cursor, text),
        Some(_) => None,
    }
}

// The same, where a comment or a byte order mark is at the front, if anything ignored is.
#[inline(always)]
fn past_run<'a>(cursor: &mut Cursor, text: &'a [u8]) -> Option<&'a [u8]>
    requires counts { Counts cursor.old }
    requires fits { cursor.old.index + length text.now < 2 ^ 64 }
    requires line { is_line_end (at text.now 0) ≡ false }
    ensures { IsPast cursor.old text.now cursor.new (option_map (λ more. more.now) result) }
{
    let count = ignored_at(text);
    if count == 0 {
        return None;
    }
    cursor.along(count);
    Some(rest(text, count))
}

// The length of the ignored token at the front, or 0.
#[inline(never)]
#[tactic(auto, unfolding(crate::specs::Scanning::ignored_at))]
fn ignored_at(text: &[u8]) -> usize
    ensures exact { result ≡ spec.ignored_at text.now }
    ensures within { result ≤ length text.now }
{
    match text.first() {
        None => 0,
        Some(b' ' | b'\t' | b'\n' | b'\r' | b',') => 1,
        Some(b'#') => comment_length(rest(text, 1)).saturating_add(1),
        Some(_) => if text.starts_with(b"\xEF\xBB\xBF") {
            3
        } else {
            0
        },
    }
}

// The number of bytes of a comment after its `#`.
#[tactic(auto, unfolding(crate::specs::Scanning::comment_length))]
fn comment_length(text: &[u8]) -> usize
    ensures exact { result ≡ spec.comment_length text.now }
    ensures within { result ≤ length text.now }
{
    text.iter().take_while(|byte| is_line_byte(**byte)).count()
}
