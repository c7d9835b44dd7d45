//! One token with its positions.
ghost use Rattle.std.specs.Prelude.{◌≡◌, ◌≤◌, ◌<◌, ◌+◌, ◌^◌, length, take, drop, true};
ghost use Rattle.graphql_lexer.specs.Scan.{start_at, stop_at, rest_at, gap, ahead, is_inline};
ghost use Rattle.graphql_lexer.specs.Scanning as spec;
ghost use Rattle.graphql_lexer.specs.Places.{Counts, after_all};
ghost use Rattle.graphql_lexer.specs.Seen.{seen, seen_at};

use crate::cursor::{Cursor, after_all};
use crate::ignored::skip;
use crate::lexer::{Token, plain_at, scanned_at};

/// A token, the positions before and after it, and the text after it.
#[derive(Clone, Copy)]
pub(crate) struct Scanned<'a> {
    pub token: Token<'a>,
    pub start: Cursor,
    pub stop: Cursor,
    pub rest: &'a [u8],
    ghost counts: { Counts stop },
    ghost fits: { stop.index + length rest.now < 2 ^ 64 },
}

impl<'a> Scanned<'a> {
    /// Goes on to the next token.
    #[inline(always)]
    pub fn advance(&mut self)
        ensures token { seen self.new.token ≡ (spec.token_at (ahead self.old.rest.now)).0 }
        ensures start { self.new.start ≡ start_at self.old.stop self.old.rest.now }
        ensures stop { self.new.stop ≡ stop_at self.old.stop self.old.rest.now }
        ensures rest { self.new.rest.now ≡ rest_at self.old.rest.now }
    {
        let mut start = self.stop.copied();
        let ahead = skip(&mut start, self.rest);
        match plain_at(ahead) {
            Some((token, count)) => *self = on_line(start, token, ahead, count),
            None => {
                self.start = start;
                self.take_other(ahead);
            }
        }
    }

    // Takes the token at the front of a text, where the start is set. It stands apart, since what it needs makes its
    // caller slow.
    #[inline(never)]
    fn take_other(&mut self, text: &'a [u8])
        requires counts { Counts self.old.start }
        requires fits { self.old.start.index + length text.now < 2 ^ 64 }
        ensures token { seen self.new.token ≡ (spec.token_at text.now).0 }
        ensures start { self.new.start ≡ self.old.start }
        ensures stop { self.new.stop ≡ after_all self.old.start (take ((spec.token_at text.now).1) text.now) }
        ensures rest { self.new.rest.now ≡ drop ((spec.token_at text.now).1) text.now }
    {
        *self = scan_at(self.start, text);
    }

    /// The position `count` bytes after the token, or the end of the text where there are fewer.
    pub fn passed(&self, count: usize) -> Cursor {
        after_all(self.stop, front(self.rest, count))
    }
}

/// The first token of a text that begins at a position.
#[tactic(auto, unfolding(crate::specs::Scan::gap))]
pub(crate) fn scan<'a>(from: Cursor, text: &'a [u8]) -> Scanned<'a>
    requires counts { Counts from }
    requires fits { from.index + length text.now < 2 ^ 64 }
    ensures token { seen result.token ≡ (spec.token_at (ahead text.now)).0 }
    ensures start { result.start ≡ start_at from text.now }
    ensures stop { result.stop ≡ stop_at from text.now }
    ensures rest { result.rest.now ≡ rest_at text.now }
{
    let mut start = from;
    let ahead = skip(&mut start, text);
    scan_at(start, ahead)
}

// The token at the front of a text that begins at a position.
#[inline(never)]
fn scan_at<'a>(start: Cursor, text: &'a [u8]) -> Scanned<'a>
    requires counts { Counts start }
    requires fits { start.index + length text.now < 2 ^ 64 }
    ensures token { seen result.token ≡ (spec.token_at text.now).0 }
    ensures start { result.start ≡ start }
    ensures stop { result.stop ≡ after_all start (take ((spec.token_at text.now).1) text.now) }
    ensures rest { result.rest.now ≡ drop ((spec.token_at text.now).1) text.now }
{
    let (token, count) = scanned_at(text);
    let stop = stop_of(start, token, text, count);
    Scanned {
        token,
        start,
        stop,
        rest: &text[count..],
    }
}

// The position after the token at the front of a text, which takes `count` bytes. Only a block string has more than one
// line.
fn stop_of(start: Cursor, token: Token<'_>, text: &[u8], count: usize) -> Cursor
    requires counts { Counts start }
    requires fits { start.index + length text.now < 2 ^ 64 }
    requires front { seen_at (token, count) ≡ spec.token_at text.now }
    ensures exact { result ≡ after_all start (take count text.now) }
    ensures counts { Counts result }
    ensures within { count ≤ length text.now }
    ensures index { result.index + length (drop count text.now) ≡ start.index + length text.now }
{
    match token {
        Token::BlockString(_) => after_all(start, front(text, count)),
        _ => {
            let mut stop = start;
            stop.along(count);
            stop
        }
    }
}

// The token at the front of a text, which takes `count` bytes and ends no line.
#[inline(always)]
fn on_line<'a>(start: Cursor, token: Token<'a>, text: &'a [u8], count: usize) -> Scanned<'a>
    requires counts { Counts start }
    requires fits { start.index + length text.now < 2 ^ 64 }
    requires within { count ≤ length text.now }
    requires front { seen_at (token, count) ≡ spec.token_at text.now }
    requires inline { is_inline (seen token) ≡ true }
    ensures token { result.token ≡ token.entry }
    ensures start { result.start ≡ start }
    ensures stop { result.stop ≡ after_all start (take count text.now) }
    ensures rest { result.rest.now ≡ drop count text.now }
{
    let mut stop = start;
    stop.along(count);
    Scanned {
        token,
        start,
        stop,
        rest: &text[count..],
    }
}

// The first `count` bytes, or all where there are fewer.
fn front(text: &[u8], count: usize) -> &[u8]
    ensures { result.now ≡ take count text.now }
{
    text.get(..count).unwrap_or(text)
}
