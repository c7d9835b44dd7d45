//! Where a text stops being the start of a document.
ghost use Rattle.std.specs.Prelude.{◌≡◌, ◌++◌, ◌∷◌, ◌↔◌, IfOk, IsTrue};
ghost use Rattle.expected_tokens.specs.Stops.{IsFront, StopsAt};
ghost use Rattle.graphql_lexer.specs.Ahead.{ahead_of};
ghost use Rattle.graphql_lexer.specs.Lexical.{end};
ghost use Rattle.language_types.specs.Position.{index_of};

use graphql_lexer::error::ReadError;
use graphql_lexer::tokens::Tokens;
use graphql_reader::read_definitions;
use language_types::error::OutOfMemory;
use std::alloc::Global;

/// The first token with which no document goes on. The end of a text is such a token.
#[derive(Clone, Copy)]
pub(crate) struct Stop {
    /// The number of bytes before it.
    pub index: usize,
    /// It is the end of the text.
    pub is_end: bool,
    /// It is the end of a document.
    pub is_document: bool,
}

/// The bytes before the first token with which no document goes on.
pub(crate) fn front_of<'a>(alloc: Global, text: &'a [u8]) -> Result<&'a [u8], OutOfMemory>
    ensures { IfOk result (λ front. IsFront text.now front.now) }
{
    let stop = stop_of(alloc, text)?;
    Ok(&text[..stop.index])
}

/// Where the text stops that is `front`, and `next` on a line of its own.
pub(crate) fn stop_behind(alloc: Global, front: &[u8], next: &str) -> Result<Stop, OutOfMemory>
    ensures { IfOk result (StopsAt (front.now ++ 10 ∷ next.now)) }
{
    // A space would not do: a comment may end there.
    let mut text = Vec::from_slice(alloc, front)?;
    text.push(b'\n')?;
    text.extend_from_slice(next.as_bytes())?;
    stop_of(alloc, text.as_slice())
}

fn stop_of(alloc: Global, text: &[u8]) -> Result<Stop, OutOfMemory>
    ensures { IfOk result (StopsAt text.now) }
{
    let mut tokens = Tokens::new(alloc, text);
    match read_definitions(&mut tokens, None) {
        Ok(_) => Ok(stop_at(&tokens, true)),
        Err(ReadError::Syntax(_)) => Ok(stop_at(&tokens, false)),
        Err(ReadError::OutOfMemory) => Err(OutOfMemory),
    }
}

// The next token, which is the first with which no document goes on.
fn stop_at(tokens: &Tokens<'_>, is_document: bool) -> Stop
    ensures index { result.index ≡ index_of (ahead_of tokens.now).start }
    ensures end { IsTrue result.is_end ↔ ((ahead_of tokens.now).token ≡ end) }
    ensures document { result.is_document ≡ is_document }
{
    Stop {
        index: tokens.start().index(),
        is_end: tokens.is_at_end(),
        is_document,
    }
}
