//! Texts as `graphql_reader` takes them.
use graphql_lexer::lexer::{Token, token_at};
use std::alloc::{AllocError, Global};
use std::str;

/// Whether the expected size of a list may follow it. In a document `#` begins a comment.
#[derive(Clone, Copy, PartialEq, Eq)]
pub(crate) enum Sizes {
    Allowed,
    Refused,
}

/// A copy of a text, whose tokens stand at the same places. It ends in the place of the first token that the samples do
/// not have, with a byte that begins none.
pub(crate) fn translated(alloc: Global, text: &[u8], sizes: Sizes) -> Result<String, AllocError> {
    let mut copy = String::with_capacity(alloc, text.len())?;
    // Each turn takes a byte.
    for _ in 0..text.len() {
        let rest = text.get(copy.len()..).unwrap_or(&[]);
        if rest.is_empty() {
            return Ok(copy);
        }
        let Some((kept, ignored)) = part_at(rest, sizes) else {
            copy.push('\x7F')?;
            return Ok(copy);
        };
        copy.push_str(kept)?;
        push_blanks(&mut copy, ignored)?;
    }
    Ok(copy)
}

fn push_blanks(copy: &mut String, count: usize) -> Result<(), AllocError> {
    for _ in 0..count {
        copy.push(' ')?;
    }
    Ok(())
}

// What is at the start of a text: what is kept, and the number of bytes behind it that are ignored. `None` if no token
// of the samples begins there.
fn part_at(text: &[u8], sizes: Sizes) -> Option<(&str, usize)> {
    match text {
        [b'\r', ..] => Some(("", 1)),
        [b'#', ..] => Some(("", text.iter().take_while(|byte| **byte != b'\n').count())),
        [b' ' | b'\t' | b'\n' | b',', ..] => Some((front(text, 1)?, 0)),
        [b']', behind @ ..] if sizes == Sizes::Allowed => {
            Some(("]", size_at(behind).map_or(0, |(_, length)| length)))
        }
        _ => match token_at(text) {
            (token, length) if is_known(token) => Some((front(text, length)?, 0)),
            _ => None,
        },
    }
}

fn is_known(token: Token<'_>) -> bool {
    match token {
        Token::Punctuator(_) | Token::Name(_) => true,
        Token::Int(digits) => digits.parse::<i32>().is_ok(),
        Token::String(item) => item.bytes().all(is_string_byte),
        _ => false,
    }
}

fn is_string_byte(byte: u8) -> bool {
    matches!(byte, b'\t' | b' ' | b'!' | b'#'..=b'[' | b']'..=b'~')
}

/// The size at the start of a text, if one is there, and the number of its bytes: `#` and a number.
pub(crate) fn size_at(text: &[u8]) -> Option<(usize, usize)> {
    let digits = text.strip_prefix(b"#")?;
    let length = digits
        .iter()
        .take_while(|byte| byte.is_ascii_digit())
        .count();
    let size = front(digits, length)?.parse().ok()?;
    Some((size, length.saturating_add(1)))
}

fn front(text: &[u8], length: usize) -> Option<&str> {
    str::from_utf8(text.get(..length)?).ok()
}
