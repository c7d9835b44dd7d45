//! What must come next, or is an error there.
ghost use Rattle.std.specs.Prelude.{IfErr, IfOk, List, OnErr, OnOk, ℕ};
ghost use Rattle.graphql_lexer.specs.Ahead.{ahead_of, IsLeft, IsSpanOf, IsTaken};
ghost use Rattle.graphql_lexer.specs.Lexical.{name as name_token, punctuator as punctuator_token};
ghost use Rattle.value_reader.specs.Faults.{IsPlaced};

use graphql_lexer::error::ReadError;
use graphql_lexer::lexer::{Punctuator, Token};
use graphql_lexer::tokens::Tokens;
use language::position::Spanning;

// Takes this punctuator.
pub(crate) fn expect<'a>(
    tokens: &mut Tokens<'a>,
    punctuator: Punctuator,
    expected: &'static str,
) -> Result<(), ReadError<'a>>
    ensures taken { OnOk result (IsTaken (punctuator_token punctuator) tokens.old tokens.new) }
    ensures left { OnErr result (IsLeft (punctuator_token punctuator) tokens.old tokens.new) }
    ensures placed { IfErr result (IsPlaced (ahead_of tokens.new)) }
{
    if tokens.take(punctuator) {
        Ok(())
    } else {
        Err(tokens.fault(expected))
    }
}

// Takes a name.
pub(crate) fn name<'a>(
    tokens: &mut Tokens<'a>,
    expected: &'static str,
) -> Result<Spanning<&'a str>, ReadError<'a>>
    ensures taken { IfOk result (λ n. IsTaken (name_token n.item.now) tokens.old tokens.new) }
    ensures span { IfOk result (λ n. IsSpanOf (ahead_of tokens.old) n.span) }
    ensures left { OnErr result ((s : List ℕ) → IsLeft (name_token s) tokens.old tokens.new) }
    ensures placed { IfErr result (IsPlaced (ahead_of tokens.new)) }
{
    match tokens.ahead() {
        Token::Name(item) => {
            let span = tokens.span();
            tokens.advance();
            Ok(Spanning { item, span })
        }
        _ => Err(tokens.fault(expected)),
    }
}
