//! Type references (GraphQL, October 2021, section 2.11).
ghost use Rattle.std.specs.Prelude.{◌≢◌, IfErr, IfOk, OnOk, Option, ℕ, reverse};
ghost use Rattle.graphql_lexer.specs.Ahead.{ahead_of};
ghost use Rattle.graphql_lexer.specs.Lexical.{punctuator};
ghost use Rattle.graphql_lexer.specs.declared.lexer.Punctuator.TheVariants.{BracketOpen};
ghost use Rattle.graphql_reader.specs.Languages.{AType, Anything, Bang, InTurn, InnerType, Closing, NoBang, Nothing};
ghost use Rattle.graphql_reader.specs.Languages.{IsFault, Leaves};
ghost use Rattle.graphql_reader.specs.Passed.{Reads, Then};
ghost use Rattle.graphql_reader.specs.Types.{type_seen, MayBeNull, SpellsBrackets, SpellsShape, SpellsType};
ghost use Rattle.graphql_lexer.specs.declared.tokens.Tokens.{Tokens as Reader};
ghost use Rattle.language_types.specs.Types.{shape};

use crate::depth::check_depth;
use crate::expected::{expect, name};
use graphql_lexer::error::ReadError;
use graphql_lexer::lexer::Punctuator;
use graphql_lexer::tokens::Tokens;
use language::error::OutOfMemory;
use language::position::Spanning;
use language::types::Type;

/// Parses a type reference. It is made from its name outwards, so that its levels need no recursion.
///
/// # Errors
///
/// The first token with which no type goes on, which is a level of lists too many where it opens more than
/// `max_depth`, or out of memory.
pub fn read_type<'a>(
    tokens: &mut Tokens<'a>,
    max_depth: Option<usize>,
) -> Result<Spanning<Type>, ReadError<'a>>
    ensures tree { IfOk result (λ k. Reads (SpellsType max_depth (type_seen k)) tokens.old tokens.new) }
    ensures leaves { OnOk result (Leaves max_depth NoBang AType Nothing tokens.old tokens.new) }
    ensures stuck { IfErr result (IsFault max_depth NoBang AType tokens.old tokens.new) }
{
    let start = tokens.start();
    let levels = take_opening_brackets(tokens, max_depth)?;
    let name = name(tokens, "a type")?;
    let named = Type::nullable(tokens.alloc(), name.item)?;
    let mut item = read_non_null(tokens, named)?;
    for _ in 0..levels {
        expect(tokens, Punctuator::BracketClose, "]")?;
        let list = item.wrap_list(None)?;
        item = read_non_null(tokens, list)?;
    }
    let span = tokens.span_from(start);
    Ok(Spanning { item, span })
}

// The number of brackets that are next.
fn take_opening_brackets<'a>(
    tokens: &mut Tokens<'a>,
    max_depth: Option<usize>,
) -> Result<usize, ReadError<'a>>
    ensures tree { IfOk result (λ n. Reads (SpellsBrackets max_depth n) tokens.old tokens.new) }
    ensures leaves { IfOk result (λ n.
        Leaves max_depth Anything (InnerType 0) (InTurn (InnerType n) (Closing n)) tokens.old tokens.new) }
    ensures all { OnOk result ((ahead_of tokens.new).token ≢ punctuator BracketOpen) }
    ensures stuck { IfErr result (IsFault max_depth Anything (InnerType 0) tokens.old tokens.new) }
{
    let bound = tokens.bound();
    for taken in 0..bound {
        if !tokens.is(Punctuator::BracketOpen) {
            return Ok(taken);
        }
        check_depth(tokens, taken, max_depth)?;
        tokens.advance();
    }
    // Never reached: each bracket takes a byte.
    Err(ReadError::OutOfMemory)
}

// The type, or the type made non-null where an exclamation mark follows.
fn read_non_null(tokens: &mut Tokens<'_>, plain: Type) -> Result<Type, OutOfMemory>
    ensures tree { IfOk result (λ k. (limit : Option ℕ) (depth : ℕ) (first : Reader)
        → MayBeNull (reverse (shape plain).modifiers)
        → Reads (Then (SpellsBrackets limit depth) (SpellsShape limit depth (shape plain))) first tokens.old
        → Reads (Then (SpellsBrackets limit depth) (SpellsShape limit depth (shape k))) first tokens.new) }
    ensures leaves { OnOk result ((limit : Option ℕ) → Leaves limit NoBang Bang Nothing tokens.old tokens.new) }
{
    if tokens.take(Punctuator::Bang) {
        plain.wrap_non_null()
    } else {
        Ok(plain)
    }
}
