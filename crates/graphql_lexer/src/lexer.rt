//! The token at the front of a text (GraphQL, October 2021, sections 2.1 and 2.9).
ghost use Rattle.std.specs.Prelude.{◌≡◌, ◌≤◌, ◌<◌, ◌++◌, ℕ, List, length, option_map, false};
ghost use Rattle.std.specs.Prelude.{Some, None, true, IfSome, IfOk, MatchResult};
ghost use Rattle.graphql_lexer.specs.Lexical.{is_comment_char, is_number_byte as number_byte};
ghost use Rattle.graphql_lexer.specs.Lexemes.{IsFront};
ghost use Rattle.graphql_lexer.specs.Scan.{is_inline};
ghost use Rattle.graphql_lexer.specs.Lexical.{Token as GrammarToken, IsToken};
ghost use Rattle.graphql_lexer.specs.Scanning as spec;
ghost use Rattle.graphql_lexer.specs.Seen.{seen, seen_at};

use crate::classes::{is_name_byte, is_name_start};
use graphql_strings::parts::rest;
use std::str;

/// A token that stands for itself (section 2.1.8).
#[derive(Clone, Copy, Debug, PartialEq, Eq)]
pub enum Punctuator {
    Bang,
    Dollar,
    Ampersand,
    ParenOpen,
    ParenClose,
    Spread,
    Colon,
    Equals,
    At,
    BracketOpen,
    BracketClose,
    BraceOpen,
    Pipe,
    BraceClose,
}

/// A token.
#[derive(Clone, Copy, Debug)]
pub enum Token<'a> {
    Punctuator(Punctuator),
    /// A name (section 2.1.9).
    Name(&'a str),
    /// An integer as written (section 2.9.1).
    Int(&'a str),
    /// A number with a fraction or an exponent, as written (section 2.9.2).
    Float(&'a str),
    /// The text between the quotes of a string, with its escapes as written (section 2.9.4).
    String(&'a str),
    /// The text between the quotes of a block string (section 2.9.4).
    BlockString(&'a str),
    /// The end of the text.
    End,
    /// No token begins here: what was expected, and after how many bytes.
    Fault(&'static str, usize),
}

/// The token at the start of a text, and its length in bytes. Ignored tokens (section 2.1.7) must be skipped before.
pub fn token_at(text: &[u8]) -> (Token<'_>, usize)
    ensures found { IsFront text.now (seen_at result) }
    ensures only { (t : GrammarToken) (s r : List ℕ) → IsToken t s r → text.now ≡ s ++ r
        → seen_at result ≡ (t, length s) }
{
    scanned_at(text)
}

/// The same, in the words of the scanner.
#[tactic(auto, unfolding(crate::specs::Scanning::token_at))]
pub(crate) fn scanned_at(text: &[u8]) -> (Token<'_>, usize)
    ensures { seen_at result ≡ spec.token_at text.now }
{
    match text.first() {
        None => (Token::End, 0),
        Some(byte) => match *byte {
            b'"' => any_string_at(text),
            b'.' => spread_at(text),
            b'-' | b'0'..=b'9' => number_at(text),
            b'_' | b'A'..=b'Z' | b'a'..=b'z' => name_at(text),
            other => punctuator_at(other),
        },
    }
}

#[tactic(auto, unfolding(crate::specs::Scanning::punctuator_of))]
fn punctuator_at(byte: u8) -> (Token<'static>, usize)
    ensures { seen_at result ≡ spec.punctuator_token (spec.punctuator_of byte) }
{
    let punctuator = match byte {
        b'!' => Punctuator::Bang,
        b'$' => Punctuator::Dollar,
        b'&' => Punctuator::Ampersand,
        b'(' => Punctuator::ParenOpen,
        b')' => Punctuator::ParenClose,
        b':' => Punctuator::Colon,
        b'=' => Punctuator::Equals,
        b'@' => Punctuator::At,
        b'[' => Punctuator::BracketOpen,
        b']' => Punctuator::BracketClose,
        b'{' => Punctuator::BraceOpen,
        b'|' => Punctuator::Pipe,
        b'}' => Punctuator::BraceClose,
        _ => return (Token::Fault("a token", 0), 0),
    };
    (Token::Punctuator(punctuator), 1)
}

/// The name or the punctuator at the front of a text, and its length in bytes, if one is there.
#[inline(always)]
pub(crate) fn plain_at(text: &[u8]) -> Option<(Token<'_>, usize)>
    ensures exact { IfSome result (λ r. seen_at r ≡ spec.token_at text.now) }
    ensures inline { IfSome result (λ r. is_inline (seen r.0) ≡ true) }
{
    match text.first() {
        Some(byte) if is_name_start(*byte) => Some(name_at(text)),
        _ => mark_at(text),
    }
}

// The punctuator at the front of a text, and its length in bytes, if one is there.
#[inline(always)]
#[tactic(auto, unfolding(crate::specs::Scanning::token_at, crate::specs::Scanning::punctuator_of))]
fn mark_at(text: &[u8]) -> Option<(Token<'_>, usize)>
    ensures exact { IfSome result (λ r. seen_at r ≡ spec.token_at text.now) }
    ensures inline { IfSome result (λ r. is_inline (seen r.0) ≡ true) }
{
    let punctuator = match *text.first()? {
        b'!' => Punctuator::Bang,
        b'$' => Punctuator::Dollar,
        b'&' => Punctuator::Ampersand,
        b'(' => Punctuator::ParenOpen,
        b')' => Punctuator::ParenClose,
        b':' => Punctuator::Colon,
        b'=' => Punctuator::Equals,
        b'@' => Punctuator::At,
        b'[' => Punctuator::BracketOpen,
        b']' => Punctuator::BracketClose,
        b'{' => Punctuator::BraceOpen,
        b'|' => Punctuator::Pipe,
        b'}' => Punctuator::BraceClose,
        _ => return dots_at(text),
    };
    Some((Token::Punctuator(punctuator), 1))
}

// The punctuator `...`, if it is at the front of a text.
#[inline(always)]
#[tactic(auto, unfolding(crate::specs::Scanning::token_at, crate::specs::Scanning::spread_at))]
fn dots_at(text: &[u8]) -> Option<(Token<'_>, usize)>
    ensures exact { IfSome result (λ r. seen_at r ≡ spec.token_at text.now) }
    ensures inline { IfSome result (λ r. is_inline (seen r.0) ≡ true) }
{
    match text {
        [b'.', b'.', b'.', ..] => Some((Token::Punctuator(Punctuator::Spread), 3)),
        _ => None,
    }
}

#[tactic(auto, unfolding(crate::specs::Scanning::spread_at))]
fn spread_at(text: &[u8]) -> (Token<'_>, usize)
    ensures { seen_at result ≡ spec.spread_at text.now }
{
    match text {
        [b'.', b'.', b'.', ..] => (Token::Punctuator(Punctuator::Spread), 3),
        _ => (Token::Fault("a token", 0), 0),
    }
}

#[inline(always)]
fn name_at(text: &[u8]) -> (Token<'_>, usize)
    ensures { seen_at result ≡ spec.name_at text.now }
{
    let length = name_length(text);
    // A name is ASCII.
    let name = unsafe { str::from_utf8_unchecked(&text[..length]) };
    (Token::Name(name), length)
}

#[tactic(auto, unfolding(crate::specs::Scanning::name_length))]
#[inline(always)]
fn name_length(text: &[u8]) -> usize
    ensures exact { result ≡ spec.name_length text.now }
    ensures within { result ≤ length text.now }
{
    text.iter().take_while(|byte| is_name_byte(**byte)).count()
}

// A sign, a whole part without a leading zero, a fraction and an exponent; no letter, digit or point may follow.
#[tactic(auto, unfolding(crate::specs::Scanning::number_at, crate::specs::Scanning::sign_length))]
fn number_at(text: &[u8]) -> (Token<'_>, usize)
    ensures { seen_at result ≡ spec.number_at text.now }
{
    let sign: usize = if text.starts_with(b"-") { 1 } else { 0 };
    let whole = sign.saturating_add(whole_digits(rest(text, sign)));
    if whole == sign {
        return (Token::Fault("a digit", sign), 0);
    }
    let Some(fraction) = after_point(rest(text, whole)) else {
        return (Token::Fault("a digit", whole.saturating_add(1)), 0);
    };
    let mantissa = whole.saturating_add(fraction);
    match after_exponent(rest(text, mantissa)) {
        Ok(exponent) => number_of(text, mantissa.saturating_add(exponent), whole),
        Err(passed) => (Token::Fault("a digit", mantissa.saturating_add(passed)), 0),
    }
}

// The number of this length, whose whole part takes `whole` bytes.
#[tactic(auto, unfolding(crate::specs::Scanning::number_of))]
fn number_of(text: &[u8], count: usize, whole: usize) -> (Token<'_>, usize)
    ensures { seen_at result ≡ spec.number_of text.now count whole }
{
    match rest(text, count).first() {
        Some(byte) if is_number_byte(*byte) => (Token::Fault("the end of the number", count), 0),
        _ => match front(text, count) {
            Some(number) if count == whole => (Token::Int(number), count),
            Some(number) => (Token::Float(number), count),
            None => (Token::Fault("a number", 0), 0),
        },
    }
}

// The number of digits of a whole part: a leading zero stands alone.
#[tactic(auto, unfolding(crate::specs::Scanning::whole_length))]
fn whole_digits(text: &[u8]) -> usize
    ensures exact { result ≡ spec.whole_length text.now }
    ensures within { result ≤ length text.now }
{
    match text.first() {
        Some(b'0') => 1,
        _ => digits(text),
    }
}

// The length of a fraction: 0 without a point, and `None` if no digit follows the point.
#[tactic(auto, unfolding(crate::specs::Scanning::fraction))]
fn after_point(text: &[u8]) -> Option<usize>
    ensures exact { result ≡ spec.fraction text.now }
    ensures within { IfSome result (λ n. n ≤ length text.now) }
{
    if !text.starts_with(b".") {
        return Some(0);
    }
    match digits(rest(text, 1)) {
        0 => None,
        count => Some(count.saturating_add(1)),
    }
}

// The length of an exponent, 0 if there is none; if a digit is missing, the number of bytes before it.
#[tactic(auto, unfolding(crate::specs::Scanning::exponent))]
fn after_exponent(text: &[u8]) -> Result<usize, usize>
    ensures exact { MatchResult result (λ n. spec.exponent text.now ≡ Some n)
        (λ _. spec.exponent text.now ≡ None) }
    ensures within { IfOk result (λ n. n ≤ length text.now) }
{
    let lead: usize = match text {
        [b'e' | b'E', b'+' | b'-', ..] => 2,
        [b'e' | b'E', ..] => 1,
        _ => return Ok(0),
    };
    match digits(rest(text, lead)) {
        0 => Err(lead),
        count => Ok(count.saturating_add(lead)),
    }
}

fn digits(text: &[u8]) -> usize
    ensures exact { result ≡ spec.digits text.now }
    ensures within { result ≤ length text.now }
{
    text.iter().take_while(|byte| byte.is_ascii_digit()).count()
}

#[tactic(auto, unfolding(crate::specs::Scanning::any_string_at))]
fn any_string_at(text: &[u8]) -> (Token<'_>, usize)
    ensures { seen_at result ≡ spec.any_string_at text.now }
{
    if text.starts_with(b"\"\"\"") {
        return block_string_at(text);
    }
    string_at(text)
}

#[tactic(auto, unfolding(crate::specs::Scanning::string_at))]
fn string_at(text: &[u8]) -> (Token<'_>, usize)
    ensures { seen_at result ≡ spec.string_at text.now }
{
    let body = rest(text, 1);
    let length = string_length(body);
    match front(body, length) {
        Some(item) if rest(body, length).first().copied() == Some(b'"') => (
            Token::String(item),
            length.saturating_add(2),
        ),
        _ => (
            Token::Fault("the string's closing quote", length.saturating_add(1)),
            0,
        ),
    }
}

// The number of bytes before a string's closing quote, or before a byte that no string may hold.
#[tactic(auto, unfolding(crate::specs::Scanning::string_length))]
fn string_length(body: &[u8]) -> usize
    ensures exact { result ≡ spec.string_length false body.now }
    ensures within { result ≤ length body.now }
{
    let mut length: usize = 0;
    let mut is_escaped = false;
    for byte in body {
        let is_quote = !is_escaped && *byte == b'"';
        if is_quote || !is_line_byte(*byte) {
            return length;
        }
        is_escaped = !is_escaped && *byte == b'\\';
        length = length.saturating_add(1);
    }
    length
}

#[tactic(auto, unfolding(crate::specs::Scanning::block_string_at))]
fn block_string_at(text: &[u8]) -> (Token<'_>, usize)
    ensures { seen_at result ≡ spec.block_string_at text.now }
{
    let body = rest(text, 3);
    let length = block_length(body);
    match front(body, length) {
        Some(item) if rest(body, length).starts_with(b"\"\"\"") => (
            Token::BlockString(item),
            length.saturating_add(6),
        ),
        _ => (
            Token::Fault(
                "the block string's three closing quotes",
                length.saturating_add(3),
            ),
            0,
        ),
    }
}

// The number of bytes before a block string's closing quotes, or before a byte that no source text may hold.
// Three quotes after a backslash are part of the text.
#[tactic(auto, unfolding(crate::specs::Scanning::block_length))]
fn block_length(body: &[u8]) -> usize
    ensures exact { result ≡ spec.block_length 0 body.now }
    ensures within { result ≤ length body.now }
{
    let mut escaped: usize = 0;
    for index in 0..body.len() {
        match block_turn(escaped, rest(body, index)) {
            Some(left) => escaped = left,
            None => return index,
        }
    }
    body.len()
}

// The number of bytes of an escaped triple quote that are left after the first byte; `None` where the string ends.
#[tactic(auto, unfolding(crate::specs::Scanning::block_turn))]
fn block_turn(escaped: usize, ahead: &[u8]) -> Option<usize>
    requires { 0 < length ahead.now }
    ensures { result ≡ spec.block_turn escaped ahead.now }
{
    if escaped > 0 {
        return Some(escaped - 1);
    }
    if ahead.starts_with(b"\"\"\"") || is_refused(ahead[0]) {
        return None;
    }
    if ahead.starts_with(b"\\\"\"\"") {
        Some(3)
    } else {
        Some(0)
    }
}

// Whether a comment or a string on one line may hold the byte (sections 2.1.4 and 2.9.4).
pub(crate) fn is_line_byte(byte: u8) -> bool
    ensures { result ≡ is_comment_char byte }
{
    byte == b'\t' || byte >= b' '
}

// Whether no source text may hold the byte (section 2.1.1).
fn is_refused(byte: u8) -> bool
    ensures { result ≡ spec.is_refused byte }
{
    byte < b' ' && !matches!(byte, b'\t' | b'\n' | b'\r')
}

// The first `count` bytes as text, if there are that many and they are valid UTF-8.
fn front(text: &[u8], count: usize) -> Option<&str>
    ensures { option_map (λ s. s.now) result ≡ spec.front text.now count }
{
    match text.get(..count) {
        Some(bytes) => match str::from_utf8(bytes) {
            Ok(written) => Some(written),
            Err(_) => None,
        },
        None => None,
    }
}

fn is_number_byte(byte: u8) -> bool
    ensures { result ≡ number_byte byte }
{
    byte == b'.' || is_name_byte(byte)
}
