//! What each token of a value leads to.
ghost use Rattle.std.specs.Prelude.{◌≡◌, ◌∷◌, IfOk, IfErr, OnErr};
ghost use Rattle.graphql_lexer.specs.Ahead.{ahead_of};
ghost use Rattle.graphql_lexer.specs.Lexical.{punctuator};
ghost use Rattle.value_reader.specs.Grammar.{may_nest};
ghost use Rattle.value_reader.specs.Machine as spec;
ghost use Rattle.value_reader.specs.Seen.{allows, begun_seen, stack_seen, value_seen, values_seen, entries_seen};
ghost use Rattle.value_reader.specs.Seen.{key_seen, rules_seen, IsTurn, IsNameless, IsRefusal, IsFirstRefusal};
ghost use Rattle.value_reader.specs.Seen.{IsRefusedAt, IsVariable};

use crate::begun::{Begun, Entries, Turn, Value, attach, begin, depth, list, object, put_back};
use crate::plain::{expected_value, name_ahead, plain_value};
use crate::rules::{Rules, Variables};
use graphql_lexer::error::ReadError;
use graphql_lexer::lexer::Punctuator;
use graphql_lexer::tokens::Tokens;
use language_types::position::{SourcePosition, Span, Spanning};
use language_values::value::InputValue;

/// What the next token leads to, where these parts are begun.
pub(crate) fn step<'a>(
    tokens: &Tokens<'a>,
    rules: Rules,
    parts: &mut Vec<Begun>,
) -> Result<Turn, ReadError<'a>>
    ensures turn { IfOk result (λ t. IsTurn parts.new t
        (spec.step (rules_seen rules) (stack_seen parts.old) (ahead_of tokens.now))) }
    ensures refused { IfErr result (IsRefusal (stack_seen parts.old) (ahead_of tokens.now)
        (spec.step (rules_seen rules) (stack_seen parts.old) (ahead_of tokens.now))) }
{
    match parts.pop() {
        None => read_first(tokens, rules, parts),
        Some(Begun::List(start, items)) => read_item(tokens, rules, parts, start, items),
        Some(Begun::Key(start, entries)) => read_key(tokens, parts, start, entries),
        Some(Begun::Colon(start, entries, key)) => read_colon(tokens, parts, start, entries, key),
        Some(Begun::Value(start, entries, key)) => {
            put_back(parts, Begun::Value(start, entries, key))?;
            read_first(tokens, rules, parts)
        }
        Some(Begun::Name(start)) => read_name(tokens, parts, start),
    }
}

// The first token of a value.
fn read_first<'a>(
    tokens: &Tokens<'a>,
    rules: Rules,
    parts: &mut Vec<Begun>,
) -> Result<Turn, ReadError<'a>>
    ensures turn { let x = ahead_of tokens.now in IfOk result (λ t. IsTurn parts.new t
        (spec.value_turn (rules_seen rules) (stack_seen parts.old) x.token x.start x.stop)) }
    ensures refused { let x = ahead_of tokens.now in IfErr result (IsFirstRefusal x
        (spec.value_turn (rules_seen rules) (stack_seen parts.old) x.token x.start x.stop)) }
{
    if tokens.is(Punctuator::BracketOpen) {
        return nest(
            tokens,
            rules,
            parts,
            Begun::List(tokens.start(), Vec::new(tokens.alloc())),
        );
    }
    if tokens.is(Punctuator::BraceOpen) {
        return nest(
            tokens,
            rules,
            parts,
            Begun::Key(tokens.start(), Vec::new(tokens.alloc())),
        );
    }
    if tokens.is(Punctuator::Dollar) {
        return begin_variable(tokens, rules, parts);
    }
    let value = plain_value(tokens, rules.variables)?;
    attach(parts, value)
}

// Begins a list or an object, where one may nest there.
fn nest<'a>(
    tokens: &Tokens<'a>,
    rules: Rules,
    parts: &mut Vec<Begun>,
    part: Begun,
) -> Result<Turn, ReadError<'a>>
    ensures turn { IfOk result (λ t. IsTurn parts.new t
        (spec.push (may_nest rules.max_depth (spec.depth_of (stack_seen parts.old)))
        (begun_seen part) (stack_seen parts.old))) }
    ensures refused { IfErr result (IsRefusedAt (ahead_of tokens.now).start
        (spec.push (may_nest rules.max_depth (spec.depth_of (stack_seen parts.old)))
        (begun_seen part) (stack_seen parts.old))) }
{
    if let Some(limit) = rules.max_depth {
        if depth(parts) >= limit {
            return Err(tokens.too_deep(limit));
        }
    }
    begin(parts, part)
}

// Begins a variable at a dollar sign, where one may stand.
fn begin_variable<'a>(
    tokens: &Tokens<'a>,
    rules: Rules,
    parts: &mut Vec<Begun>,
) -> Result<Turn, ReadError<'a>>
    requires { (ahead_of tokens.now).token ≡ punctuator Punctuator.Dollar }
    ensures turn { IfOk result (λ t. IsTurn parts.new t
        (spec.push (allows rules.variables) (spec.at_name (ahead_of tokens.now).start)
        (stack_seen parts.old))) }
    ensures refused { IfErr result (IsRefusedAt (ahead_of tokens.now).start
        (spec.push (allows rules.variables) (spec.at_name (ahead_of tokens.now).start)
        (stack_seen parts.old))) }
{
    if rules.variables == Variables::Refused {
        return Err(tokens.fault(expected_value(rules.variables)));
    }
    begin(parts, Begun::Name(tokens.start()))
}

// The end of a list, or its next value.
fn read_item<'a>(
    tokens: &Tokens<'a>,
    rules: Rules,
    parts: &mut Vec<Begun>,
    start: SourcePosition,
    items: Vec<Spanning<Value>>,
) -> Result<Turn, ReadError<'a>>
    ensures turn { let x = ahead_of tokens.now in IfOk result (λ t. IsTurn parts.new t
        (spec.item_turn (rules_seen rules) start (values_seen items) (stack_seen parts.old)
        x.token x.start x.stop)) }
    ensures refused { let x = ahead_of tokens.now in IfErr result (IsFirstRefusal x
        (spec.item_turn (rules_seen rules) start (values_seen items) (stack_seen parts.old)
        x.token x.start x.stop)) }
{
    if tokens.is(Punctuator::BracketClose) {
        return attach(parts, list(start, items, tokens.span().end));
    }
    put_back(parts, Begun::List(start, items))?;
    read_first(tokens, rules, parts)
}

// The end of an object, or its next key.
fn read_key<'a>(
    tokens: &Tokens<'a>,
    parts: &mut Vec<Begun>,
    start: SourcePosition,
    entries: Entries,
) -> Result<Turn, ReadError<'a>>
    ensures turn { let x = ahead_of tokens.now in IfOk result (λ t. IsTurn parts.new t
        (spec.key_turn start (entries_seen entries) (stack_seen parts.old) x.token x.start x.stop)) }
    ensures refused { let x = ahead_of tokens.now in IfErr result
        (IsRefusal (spec.at_key start (entries_seen entries) ∷ stack_seen parts.old) x
        (spec.key_turn start (entries_seen entries) (stack_seen parts.old) x.token x.start x.stop)) }
{
    if tokens.is(Punctuator::BraceClose) {
        return attach(parts, object(start, entries, tokens.span().end));
    }
    let item = name_ahead(tokens, "a field's name or }")?;
    let span = tokens.span();
    begin(parts, Begun::Colon(start, entries, Spanning { item, span }))
}

// The colon behind a key.
fn read_colon<'a>(
    tokens: &Tokens<'a>,
    parts: &mut Vec<Begun>,
    start: SourcePosition,
    entries: Entries,
    key: Spanning<String>,
) -> Result<Turn, ReadError<'a>>
    ensures turn { IfOk result (λ t. IsTurn parts.new t
        (spec.colon_turn start (entries_seen entries) (key_seen key) (stack_seen parts.old)
        (ahead_of tokens.now).token)) }
    ensures refused { IfErr result
        (IsRefusal (spec.at_colon start (entries_seen entries) (key_seen key) ∷ stack_seen parts.old)
        (ahead_of tokens.now)
        (spec.colon_turn start (entries_seen entries) (key_seen key) (stack_seen parts.old)
        (ahead_of tokens.now).token)) }
{
    if tokens.is(Punctuator::Colon) {
        return begin(parts, Begun::Value(start, entries, key));
    }
    Err(tokens.fault(":"))
}

// The name of a variable.
fn read_name<'a>(
    tokens: &Tokens<'a>,
    parts: &mut Vec<Begun>,
    start: SourcePosition,
) -> Result<Turn, ReadError<'a>>
    ensures turn { let x = ahead_of tokens.now in IfOk result (λ t. IsTurn parts.new t
        (spec.name_turn start (stack_seen parts.old) x.token x.stop)) }
    ensures refused { let x = ahead_of tokens.now in IfErr result
        (IsRefusal (spec.at_name start ∷ stack_seen parts.old) x
        (spec.name_turn start (stack_seen parts.old) x.token x.stop)) }
{
    attach(parts, variable_ahead(tokens, start)?)
}

/// The variable whose name comes next, and whose dollar sign starts there.
pub(crate) fn variable_ahead<'a>(
    tokens: &Tokens<'a>,
    start: SourcePosition,
) -> Result<Spanning<Value>, ReadError<'a>>
    ensures value { let x = ahead_of tokens.now in IfOk result (λ v. IsVariable start x (value_seen v)) }
    ensures refused { IfErr result (IsNameless (ahead_of tokens.now)) }
{
    let name = name_ahead(tokens, "the variable's name")?;
    let end = tokens.span().end;
    let span = Span { start, end };
    let item = InputValue::Variable(name);
    Ok(Spanning { item, span })
}
