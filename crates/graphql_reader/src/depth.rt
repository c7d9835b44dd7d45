//! How deep a text may nest.
ghost use Rattle.std.specs.Prelude.{◌≡◌, false, true, IfErr, OnErr, OnOk};
ghost use Rattle.graphql_lexer.specs.Ahead.{ahead_of};
ghost use Rattle.value_reader.specs.Faults.{IsPlaced};
ghost use Rattle.value_reader.specs.Grammar.{may_nest};

use graphql_lexer::error::ReadError;
use graphql_lexer::tokens::Tokens;

/// A limit for callers that want one: texts written by hand stay far below it.
pub const NESTING_LIMIT: usize = 500;

/// Checks that one more level may begin at the next token, inside of so many.
///
/// # Errors
///
/// It is a level more than the limit allows.
pub fn check_depth<'a>(
    tokens: &Tokens<'a>,
    levels: usize,
    max_depth: Option<usize>,
) -> Result<(), ReadError<'a>>
    ensures depth { OnOk result (may_nest max_depth levels ≡ true) }
    ensures deep { OnErr result (may_nest max_depth levels ≡ false) }
    ensures placed { IfErr result (IsPlaced (ahead_of tokens.now)) }
{
    match max_depth {
        Some(limit) if levels >= limit => Err(tokens.too_deep(limit)),
        _ => Ok(()),
    }
}
