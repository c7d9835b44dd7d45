//! Reading a value (GraphQL, October 2021, section 2.9).
ghost use Rattle.std.specs.Prelude.{◌≡◌, false, List, IfOk, IfErr, OnOk, OnErr};
ghost use Rattle.graphql_lexer.specs.Ahead.{ahead_of, behind, left};
ghost use Rattle.graphql_lexer.specs.Lexemes.{Lexeme};
ghost use Rattle.graphql_lexer.specs.Lexical.{punctuator};
ghost use Rattle.value_reader.specs.Faults.{IsFirstFault, IsNone, IsPlaced};
ghost use Rattle.value_reader.specs.Grammar.{Begins};
ghost use Rattle.value_reader.specs.Machine as spec;
ghost use Rattle.value_reader.specs.Machine.{is_punctuator};
ghost use Rattle.value_reader.specs.Seen.{rules_of, rules_seen, stack_seen, value_seen, IsTurn, IsRefusal};
ghost use Rattle.value_reader.specs.Values as g;

use crate::begun::{Begun, Turn};
use crate::plain::{expected_value, plain_value};
use crate::rules::{Rules, Variables};
use crate::steps::{step, variable_ahead};
use graphql_lexer::error::ReadError;
use graphql_lexer::lexer::{Punctuator, Token};
use graphql_lexer::tokens::Tokens;
use language_types::position::Spanning;
use language_values::value::InputValue;
use sdl_scalars::scalar::SourceScalar;

/// Reads a value. The lists and objects that are begun stand on a list in memory, so no depth is too deep for the
/// machine's stack.
///
/// # Errors
///
/// The first token with which no value goes on, which is a level too many where it opens more than `max_depth`, or
/// out of memory. What stands before that token is taken.
pub fn read_value<'a>(
    tokens: &mut Tokens<'a>,
    variables: Variables,
    max_depth: Option<usize>,
) -> Result<Spanning<InputValue<SourceScalar>>, ReadError<'a>>
    ensures value { IfOk result (λ v.
        Begins (rules_of variables max_depth) (left tokens.old) (value_seen v) (left tokens.new)) }
    ensures only { IfOk result (λ v. (w : g.Value) (rest : List Lexeme)
        → Begins (rules_of variables max_depth) (left tokens.old) w rest
        → (w ≡ value_seen v) × (rest ≡ left tokens.new)) }
    ensures none { IfErr result (IsNone (rules_of variables max_depth) (left tokens.old)) }
    ensures fault { IfErr result
        (IsFirstFault (rules_of variables max_depth) (left tokens.old) (left tokens.new)) }
    ensures placed { IfErr result (IsPlaced (ahead_of tokens.new)) }
{
    match tokens.ahead() {
        Token::Punctuator(Punctuator::Dollar) => read_variable(tokens, variables, max_depth),
        Token::Punctuator(_) => read_parts(tokens, variables, max_depth),
        _ => read_plain(tokens, variables, max_depth),
    }
}

// Reads a variable, of which nothing is put on a list.
fn read_variable<'a>(
    tokens: &mut Tokens<'a>,
    variables: Variables,
    max_depth: Option<usize>,
) -> Result<Spanning<InputValue<SourceScalar>>, ReadError<'a>>
    requires { (ahead_of tokens.old).token ≡ punctuator Punctuator.Dollar }
    ensures value { IfOk result (λ v.
        Begins (rules_of variables max_depth) (left tokens.old) (value_seen v) (left tokens.new)) }
    ensures only { IfOk result (λ v. (w : g.Value) (rest : List Lexeme)
        → Begins (rules_of variables max_depth) (left tokens.old) w rest
        → (w ≡ value_seen v) × (rest ≡ left tokens.new)) }
    ensures none { IfErr result (IsNone (rules_of variables max_depth) (left tokens.old)) }
    ensures fault { IfErr result
        (IsFirstFault (rules_of variables max_depth) (left tokens.old) (left tokens.new)) }
    ensures placed { IfErr result (IsPlaced (ahead_of tokens.new)) }
{
    if variables == Variables::Refused {
        return Err(tokens.fault(expected_value(variables)));
    }
    let start = tokens.start();
    tokens.advance();
    let value = variable_ahead(tokens, start)?;
    tokens.advance();
    Ok(value)
}

// Reads a value of one token, of which nothing is put on a list.
fn read_plain<'a>(
    tokens: &mut Tokens<'a>,
    variables: Variables,
    max_depth: Option<usize>,
) -> Result<Spanning<InputValue<SourceScalar>>, ReadError<'a>>
    requires { is_punctuator (ahead_of tokens.old).token ≡ false }
    ensures value { IfOk result (λ v.
        Begins (rules_of variables max_depth) (left tokens.old) (value_seen v) (left tokens.new)) }
    ensures only { IfOk result (λ v. (w : g.Value) (rest : List Lexeme)
        → Begins (rules_of variables max_depth) (left tokens.old) w rest
        → (w ≡ value_seen v) × (rest ≡ left tokens.new)) }
    ensures none { IfErr result (IsNone (rules_of variables max_depth) (left tokens.old)) }
    ensures fault { IfErr result
        (IsFirstFault (rules_of variables max_depth) (left tokens.old) (left tokens.new)) }
    ensures placed { IfErr result (IsPlaced (ahead_of tokens.new)) }
{
    let value = plain_value(tokens, variables)?;
    tokens.advance();
    Ok(value)
}

// Reads a value, of which each part that is begun stands on a list.
fn read_parts<'a>(
    tokens: &mut Tokens<'a>,
    variables: Variables,
    max_depth: Option<usize>,
) -> Result<Spanning<InputValue<SourceScalar>>, ReadError<'a>>
    ensures value { IfOk result (λ v.
        Begins (rules_of variables max_depth) (left tokens.old) (value_seen v) (left tokens.new)) }
    ensures only { IfOk result (λ v. (w : g.Value) (rest : List Lexeme)
        → Begins (rules_of variables max_depth) (left tokens.old) w rest
        → (w ≡ value_seen v) × (rest ≡ left tokens.new)) }
    ensures none { IfErr result (IsNone (rules_of variables max_depth) (left tokens.old)) }
    ensures fault { IfErr result
        (IsFirstFault (rules_of variables max_depth) (left tokens.old) (left tokens.new)) }
    ensures placed { IfErr result (IsPlaced (ahead_of tokens.new)) }
{
    let rules = Rules {
        variables,
        max_depth,
    };
    let mut parts = Vec::new(tokens.alloc());
    loop {
        let turn = read_token(tokens, rules, &mut parts)?;
        match turn {
            Some(value) => return Ok(value),
            None => {}
        }
    }
}

// Reads one token.
fn read_token<'a>(
    tokens: &mut Tokens<'a>,
    rules: Rules,
    parts: &mut Vec<Begun>,
) -> Result<Turn, ReadError<'a>>
    ensures turn { IfOk result (λ t. IsTurn parts.new t
        (spec.step (rules_seen rules) (stack_seen parts.old) (ahead_of tokens.old))) }
    ensures taken { OnOk result (left tokens.new ≡ behind tokens.old) }
    ensures refused { IfErr result (IsRefusal (stack_seen parts.old) (ahead_of tokens.old)
        (spec.step (rules_seen rules) (stack_seen parts.old) (ahead_of tokens.old))) }
    ensures left { OnErr result (left tokens.new ≡ left tokens.old) }
{
    let turn = step(tokens, rules, parts)?;
    tokens.advance();
    Ok(turn)
}
