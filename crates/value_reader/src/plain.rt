//! Values of one token (GraphQL, October 2021, sections 2.9.1 to 2.9.6).
ghost use Rattle.std.specs.Prelude.{◌≡◌, IfOk, IfErr, string_bytes};
ghost use Rattle.language_types.specs.declared.position.Span.{Span};
ghost use Rattle.graphql_lexer.specs.Ahead.{ahead_of};
ghost use Rattle.graphql_lexer.specs.Lexical as token;
ghost use Rattle.value_reader.specs.Faults.{IsTextRefusal};
ghost use Rattle.value_reader.specs.Machine.{named, plain_of, span_of};
ghost use Rattle.value_reader.specs.Seen.{content_seen, value_seen, IsContentOf, IsPlainOf, IsPlainRefusal};
ghost use Rattle.value_reader.specs.Seen.{IsStringContent, IsNameless};
ghost use Rattle.value_reader.specs.Values.{plain};

use crate::begun::Value;
use crate::rules::Variables;
use crate::strings::text_ahead;
use graphql_lexer::error::ReadError;
use graphql_lexer::lexer::Token;
use graphql_lexer::tokens::Tokens;
use language_types::error::OutOfMemory;
use language_types::position::Spanning;
use language_values::value::InputValue;
use sdl_scalars::scalar::SourceScalar;
use std::alloc::Global;

/// The value that the next token stands for, where it stands for one.
pub(crate) fn plain_value<'a>(
    tokens: &Tokens<'a>,
    variables: Variables,
) -> Result<Spanning<Value>, ReadError<'a>>
    ensures value { let x = ahead_of tokens.now in
        IfOk result (λ v. IsPlainOf (plain_of x.token) (span_of x.start x.stop) (value_seen v)) }
    ensures refused { IfErr result (IsPlainRefusal (ahead_of tokens.now)) }
{
    let item = plain_content(tokens, variables)?;
    let span = tokens.span();
    Ok(Spanning { item, span })
}

fn plain_content<'a>(tokens: &Tokens<'a>, variables: Variables) -> Result<Value, ReadError<'a>>
    ensures value { IfOk result (λ v. IsContentOf (plain_of (ahead_of tokens.now).token) (content_seen v)) }
    ensures refused { IfErr result (IsPlainRefusal (ahead_of tokens.now)) }
{
    match tokens.ahead() {
        Token::Int(digits) => Ok(InputValue::Scalar(SourceScalar::Int(owned(tokens, digits)?))),
        Token::Float(number) => {
            Ok(InputValue::Scalar(SourceScalar::Float(owned(tokens, number)?)))
        }
        Token::String(_) => string_content(tokens),
        Token::BlockString(_) => string_content(tokens),
        Token::Name(name) => match named_value(tokens.alloc(), name) {
            Ok(value) => Ok(value),
            Err(_) => Err(ReadError::OutOfMemory),
        },
        Token::Punctuator(_) | Token::End | Token::Fault(_, _) => {
            Err(tokens.fault(expected_value(variables)))
        }
    }
}

// The value of a string.
fn string_content<'a>(tokens: &Tokens<'a>) -> Result<Value, ReadError<'a>>
    ensures value { IfOk result (λ v. IsStringContent (ahead_of tokens.now).token (content_seen v)) }
    ensures refused { IfErr result (IsTextRefusal (ahead_of tokens.now)) }
{
    let text = text_ahead(tokens)?;
    Ok(InputValue::Scalar(SourceScalar::String(text)))
}

/// What is expected where a value may come next.
pub(crate) fn expected_value(variables: Variables) -> &'static str {
    match variables {
        Variables::Allowed => "a value",
        Variables::Refused => "a value without variables",
    }
}

/// The name that comes next.
pub(crate) fn name_ahead<'a>(
    tokens: &Tokens<'a>,
    expected: &'static str,
) -> Result<String, ReadError<'a>>
    ensures name { IfOk result (λ s. (ahead_of tokens.now).token ≡ token.name (string_bytes s)) }
    ensures refused { IfErr result (IsNameless (ahead_of tokens.now)) }
{
    match tokens.ahead() {
        Token::Name(name) => owned(tokens, name),
        _ => Err(tokens.fault(expected)),
    }
}

// A copy of a part of the text.
fn owned<'a>(tokens: &Tokens<'a>, text: &str) -> Result<String, ReadError<'a>>
    ensures text { IfOk result (λ s. string_bytes s ≡ text.now) }
    ensures memory { IfErr result (λ e. e ≡ ReadError.OutOfMemory) }
{
    match String::from_str(tokens.alloc(), text) {
        Ok(copy) => Ok(copy),
        Err(_) => Err(ReadError::OutOfMemory),
    }
}

// The value that a name stands for.
fn named_value(alloc: Global, name: &str) -> Result<Value, OutOfMemory>
    ensures { IfOk result (λ v. (span : Span) → content_seen v span ≡ plain (named name.now) span) }
{
    Ok(match name {
        "null" => InputValue::Null,
        "true" => InputValue::Scalar(SourceScalar::Boolean(true)),
        "false" => InputValue::Scalar(SourceScalar::Boolean(false)),
        _ => InputValue::Enum(String::from_str(alloc, name)?),
    })
}
