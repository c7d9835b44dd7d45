//! The tokens of a text, with a lookahead of one (GraphQL, October 2021, section 2.1).
ghost use Rattle.std.specs.Prelude.{◌≡◌, ◌≢◌, ◌↔◌, IsTrue, IfOk, OnOk, OnErr, List, ℕ, false};
ghost use Rattle.graphql_lexer.specs.Ahead.{ahead_of, behind, left, last_end_of, IsTaken, IsLeft, IsSpanOf, IsFaultAt};
ghost use Rattle.graphql_lexer.specs.Seen.{seen};
ghost use Rattle.graphql_lexer.specs.Lexical.{end, fault as fault_token, name as name_token};
ghost use Rattle.graphql_lexer.specs.Lexical.{punctuator as punctuator_token};
ghost use Rattle.graphql_lexer.specs.Lexemes.{Lexeme, AreLexemes, is_last, position};

use crate::cursor::Cursor;
use crate::error::{Found, ReadError, SyntaxError, SyntaxFault};
use crate::lexer::{Punctuator, Token};
use crate::scan::{Scanned, scan};
use language_types::position::{SourcePosition, Span, Spanning};
use std::alloc::Global;
use std::str;

/// The remaining tokens of a text.
#[derive(Drop)]
pub struct Tokens<'a> {
    alloc: Global,
    text: &'a [u8],
    // The next token, and the text after it.
    scanned: Scanned<'a>,
    // The end of the token that was taken last.
    last_end: SourcePosition,
}

impl<'a> Tokens<'a> {
    /// All tokens of the text: those that the grammar has, up to its end or the first place where no token begins.
    pub fn new(alloc: Global, text: &'a [u8]) -> Tokens<'a>
        ensures lexemes { AreLexemes text.now (left result) }
        ensures only { (lexemes : List Lexeme) → AreLexemes text.now lexemes → lexemes ≡ left result }
    {
        let origin = Cursor {
            index: 0,
            line: 0,
            column: 0,
            after_return: false,
        };
        Tokens {
            alloc,
            text,
            scanned: scan(origin, text),
            last_end: position_of(origin),
        }
    }

    /// The allocator.
    pub fn alloc(&self) -> Global {
        self.alloc
    }

    /// The next token.
    pub fn ahead(&self) -> Token<'a>
        ensures { seen result ≡ (ahead_of self.now).token }
    {
        self.scanned.token
    }

    /// The start of the next token.
    pub fn start(&self) -> SourcePosition
        ensures { result ≡ (ahead_of self.now).start }
    {
        position_of(self.scanned.start)
    }

    /// The span of the next token.
    pub fn span(&self) -> Span
        ensures { IsSpanOf (ahead_of self.now) result }
    {
        span_of(self.scanned)
    }

    /// The span from a position to the end of the token that was taken last.
    pub fn span_from(&self, start: SourcePosition) -> Span
        ensures start { result.start ≡ start }
        ensures stop { result.end ≡ last_end_of self.now }
    {
        Span {
            start,
            end: self.last_end,
        }
    }

    /// A bound for loops over tokens, never reached: each token takes a byte.
    pub fn bound(&self) -> usize {
        self.text.len().saturating_add(1)
    }

    /// Whether no token is left.
    pub fn is_at_end(&self) -> bool
        ensures { IsTrue result ↔ ((ahead_of self.now).token ≡ end) }
    {
        matches!(self.scanned.token, Token::End)
    }

    /// The error that the next token is not what was expected.
    pub fn fault(&self, expected: &'static str) -> ReadError<'a>
        ensures { (ahead_of self.now).token ≢ fault_token → IsFaultAt (ahead_of self.now).start result }
    {
        match self.scanned.token {
            Token::Fault(wanted, passed) => {
                let position = position_of(self.scanned.passed(passed));
                ReadError::Syntax(SyntaxError {
                    position,
                    fault: SyntaxFault::Unexpected(
                        wanted,
                        character_at(self.text, position.index()),
                    ),
                })
            }
            _ => ReadError::Syntax(SyntaxError {
                position: position_of(self.scanned.start),
                fault: SyntaxFault::Unexpected(expected, self.found()),
            }),
        }
    }

    /// The error that the next token opens one level more than the limit allows.
    pub fn too_deep(&self, limit: usize) -> ReadError<'a>
        ensures { IsFaultAt (ahead_of self.now).start result }
    {
        ReadError::Syntax(SyntaxError {
            position: position_of(self.scanned.start),
            fault: SyntaxFault::TooDeep(limit),
        })
    }

    // The next token, as an error shows it.
    fn found(&self) -> Found<'a> {
        match self.scanned.token {
            Token::End => Found::End,
            Token::String(_) | Token::BlockString(_) => Found::String,
            _ => {
                let written = self
                    .text
                    .get(self.scanned.start.index..self.scanned.stop.index);
                match written.and_then(|bytes| str::from_utf8(bytes).ok()) {
                    Some(text) => Found::Text(text),
                    None => Found::Bytes,
                }
            }
        }
    }

    /// Takes the next token.
    pub fn advance(&mut self)
        ensures left { is_last (ahead_of self.old).token ≡ false → left self.new ≡ behind self.old }
        ensures last_end { last_end_of self.new ≡ (ahead_of self.old).stop }
    {
        self.last_end = position_of(self.scanned.stop);
        self.scanned.advance();
    }

    /// Whether this punctuator is next.
    pub fn is(&self, punctuator: Punctuator) -> bool
        ensures { IsTrue result ↔ ((ahead_of self.now).token ≡ punctuator_token punctuator) }
    {
        matches!(self.scanned.token, Token::Punctuator(ahead) if ahead == punctuator)
    }

    /// Takes this punctuator if it is next, and returns whether it was.
    pub fn take(&mut self, punctuator: Punctuator) -> bool
        ensures taken { IsTrue result → IsTaken (punctuator_token punctuator) self.old self.new }
        ensures left { result ≡ false → IsLeft (punctuator_token punctuator) self.old self.new }
    {
        let is_ahead = self.is(punctuator);
        if is_ahead {
            self.advance();
        }
        is_ahead
    }

    /// Takes this punctuator.
    ///
    /// # Errors
    ///
    /// Something else is next; nothing is taken then.
    pub fn expect(
        &mut self,
        punctuator: Punctuator,
        expected: &'static str,
    ) -> Result<(), ReadError<'a>>
        ensures taken { OnOk result (IsTaken (punctuator_token punctuator) self.old self.new) }
        ensures left { OnErr result (IsLeft (punctuator_token punctuator) self.old self.new) }
    {
        if self.take(punctuator) {
            Ok(())
        } else {
            Err(self.fault(expected))
        }
    }

    /// Takes a name.
    ///
    /// # Errors
    ///
    /// Something else is next; nothing is taken then.
    pub fn name(&mut self, expected: &'static str) -> Result<Spanning<&'a str>, ReadError<'a>>
        ensures taken { IfOk result (λ n. IsTaken (name_token n.item.now) self.old self.new) }
        ensures span { IfOk result (λ n. IsSpanOf (ahead_of self.old) n.span) }
        ensures left { OnErr result ((s : List ℕ) → IsLeft (name_token s) self.old self.new) }
    {
        match self.scanned.token {
            Token::Name(item) => {
                let span = span_of(self.scanned);
                self.advance();
                Ok(Spanning { item, span })
            }
            _ => Err(self.fault(expected)),
        }
    }

    /// Whether this name is next.
    pub fn is_word(&self, word: &str) -> bool
        ensures { IsTrue result ↔ ((ahead_of self.now).token ≡ name_token word.now) }
    {
        match self.scanned.token {
            Token::Name(name) => name == word,
            _ => false,
        }
    }

    /// Takes this name if it is next, and returns whether it was.
    pub fn take_word(&mut self, word: &str) -> bool
        ensures taken { IsTrue result → IsTaken (name_token word.now) self.old self.new }
        ensures left { result ≡ false → IsLeft (name_token word.now) self.old self.new }
    {
        let is_ahead = self.is_word(word);
        if is_ahead {
            self.advance();
        }
        is_ahead
    }

    /// Takes a variable: `$` and its name. Its span starts at the `$`.
    ///
    /// # Errors
    ///
    /// Something else is next, or no name follows the `$`, which is taken then.
    pub fn variable(&mut self) -> Result<Spanning<&'a str>, ReadError<'a>> {
        let start = self.start();
        self.expect(Punctuator::Dollar, "a variable")?;
        let item = self.name("the variable's name")?.item;
        Ok(Spanning {
            item,
            span: self.span_from(start),
        })
    }
}

fn span_of(scanned: Scanned<'_>) -> Span
    ensures start { result.start ≡ position scanned.entry.start }
    ensures stop { result.end ≡ position scanned.entry.stop }
{
    Span {
        start: position_of(scanned.start),
        end: position_of(scanned.stop),
    }
}

fn position_of(cursor: Cursor) -> SourcePosition
    ensures { result ≡ position cursor }
{
    SourcePosition::new(cursor.index, cursor.line, cursor.column)
}

// The character at an index of a text, as an error shows it.
fn character_at(text: &[u8], index: usize) -> Found<'static> {
    let after = text.get(index..).unwrap_or(&[]);
    if after.is_empty() {
        return Found::End;
    }
    match str::from_utf8(after) {
        Ok(rest) => match rest.chars().next() {
            Some(character) => Found::Character(character),
            None => Found::End,
        },
        Err(_) => Found::Bytes,
    }
}
