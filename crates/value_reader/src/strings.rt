//! The texts of strings and block strings (GraphQL, October 2021, section 2.9.4).
ghost use Rattle.std.specs.Prelude.{◌≡◌, IfOk, IfErr, OnOk, OnErr, List, ℕ, string_bytes};
ghost use Rattle.graphql_lexer.specs.Ahead.{ahead_of, behind, left};
ghost use Rattle.value_reader.specs.Grammar.{IsTextOf};
ghost use Rattle.value_reader.specs.Faults.{IsTextRefusal, IsStringRefusal};

use graphql_lexer::error::{Found, ReadError, SyntaxError, SyntaxFault};
use graphql_lexer::lexer::Token;
use graphql_lexer::strings::{StringError, block_string_value, string_value};
use graphql_lexer::tokens::Tokens;
use language_types::position::SourcePosition;

/// Reads a string or a block string.
///
/// # Errors
///
/// No string is next, one of its escape sequences is invalid, or out of memory. Nothing is taken then.
pub fn read_string<'a>(tokens: &mut Tokens<'a>) -> Result<String, ReadError<'a>>
    ensures text { IfOk result (λ s. IsTextOf (ahead_of tokens.old).token (string_bytes s)) }
    ensures only { IfOk result
        (λ s. (v : List ℕ) → IsTextOf (ahead_of tokens.old).token v → v ≡ string_bytes s) }
    ensures left { OnOk result (left tokens.new ≡ behind tokens.old) }
    ensures refused { IfErr result (IsTextRefusal (ahead_of tokens.old)) }
    ensures unread { OnErr result (left tokens.new ≡ left tokens.old) }
{
    let text = text_ahead(tokens)?;
    tokens.advance();
    Ok(text)
}

/// The text that the next token stands for, which is a string or a block string.
///
/// # Errors
///
/// No string is next, one of its escape sequences is invalid, or out of memory.
pub fn text_ahead<'a>(tokens: &Tokens<'a>) -> Result<String, ReadError<'a>>
    ensures text { IfOk result (λ s. IsTextOf (ahead_of tokens.now).token (string_bytes s)) }
    ensures only { IfOk result
        (λ s. (v : List ℕ) → IsTextOf (ahead_of tokens.now).token v → v ≡ string_bytes s) }
    ensures refused { IfErr result (IsTextRefusal (ahead_of tokens.now)) }
{
    match tokens.ahead() {
        Token::String(raw) => match string_value(tokens.alloc(), raw) {
            Ok(text) => Ok(text),
            Err(error) => Err(string_fault(tokens.start(), raw, error)),
        },
        Token::BlockString(raw) => match block_string_value(tokens.alloc(), raw) {
            Ok(text) => Ok(text),
            Err(_) => Err(ReadError::OutOfMemory),
        },
        _ => Err(tokens.fault("a string")),
    }
}

// An invalid escape sequence at its place. A string is on one line, after its quote.
fn string_fault<'a>(start: SourcePosition, raw: &'a str, error: StringError) -> ReadError<'a>
    ensures { IsStringRefusal start error result }
{
    match error {
        StringError::OutOfMemory => ReadError::OutOfMemory,
        StringError::Escape(offset, expected) => {
            let passed = offset.saturating_add(1);
            ReadError::Syntax(SyntaxError {
                position: SourcePosition::new(
                    start.index().saturating_add(passed),
                    start.line(),
                    start.column().saturating_add(passed),
                ),
                fault: SyntaxFault::Unexpected(expected, found_in(raw, offset)),
            })
        }
    }
}

// The character at an offset of a string, or the quote that ends it.
fn found_in(raw: &str, offset: usize) -> Found<'_> {
    match raw.get(offset..).and_then(|rest| rest.chars().next()) {
        Some(character) => Found::Character(character),
        None => Found::Character('"'),
    }
}
