//! Texts that are one value without variables (GraphQL, October 2021, section 2.9).
ghost use Rattle.std.specs.Prelude.{◌≡◌, IfOk, IfErr};
ghost use Rattle.graphql_reader.specs.Constants.{IsConstant, IsNoConstant, IsConstantFault};
ghost use Rattle.value_reader.specs.Seen.{value_seen};
ghost use Rattle.value_reader.specs.Values as g;

use graphql_lexer::error::ReadError;
use graphql_lexer::tokens::Tokens;
use language::position::Spanning;
use language::value::InputValue;
use sdl_scalars::scalar::SourceScalar;
use std::alloc::Global;
use value_reader::reader::read_value;
use value_reader::rules::Variables;

/// Parses a text that is one value without variables.
///
/// # Errors
///
/// The first token with which no constant goes on, or that stands behind one, or out of memory.
pub fn read_constant<'a>(
    alloc: Global,
    text: &'a str,
) -> Result<Spanning<InputValue<SourceScalar>>, ReadError<'a>>
    ensures value { IfOk result (λ v. IsConstant text.now (value_seen v)) }
    ensures only { IfOk result (λ v. (w : g.Value) → IsConstant text.now w → w ≡ value_seen v) }
    ensures none { IfErr result (IsNoConstant text.now) }
    ensures fault { IfErr result (IsConstantFault text.now) }
{
    let mut tokens = Tokens::new(alloc, text.as_bytes());
    let value = read_value(&mut tokens, Variables::Refused, None)?;
    if tokens.is_at_end() {
        return Ok(value);
    }
    Err(tokens.fault("the end of the text"))
}
