//! Executable documents (GraphQL, October 2021, sections 2.2, 2.3, 2.8 and 2.10).
ghost use Rattle.std.specs.Prelude.{◌≡◌, ◌≢◌, ◌<◌, ℕ, IfErr, IfOk, IfSome, List, MatchOption, None, OnOk, Option};
ghost use Rattle.std.specs.Prelude.{length, map, option_map};
ghost use Rattle.graphql_lexer.specs.Ahead.{ahead_of, left, IsTaken};
ghost use Rattle.graphql_lexer.specs.Lexical.{end, punctuator, name as name_token};
ghost use Rattle.graphql_lexer.specs.declared.lexer.Punctuator.TheVariants.{BraceOpen, ParenOpen};
ghost use Rattle.graphql_lexer.specs.declared.tokens.Tokens.{Tokens as Reader};
ghost use Rattle.graphql_reader.specs.Arguments.{name_seen};
ghost use Rattle.graphql_reader.specs.Documents as g;
ghost use Rattle.graphql_reader.specs.Documents.{definition_seen, variable_seen, variables_seen};
ghost use Rattle.graphql_reader.specs.Documents.{fragment_word, keyword, IsDocument, SpellsDefinition};
ghost use Rattle.graphql_reader.specs.Documents.{SpellsDocument, SpellsVariable, SpellsVariableDefinition};
ghost use Rattle.graphql_reader.specs.Documents.{SpellsVariables};
ghost use Rattle.graphql_reader.specs.Faults.{IsDocumentFault, IsNoDocument};
ghost use Rattle.graphql_reader.specs.Languages.{ADefault, ADefinition, ADocument, AFragmentHead, AName, AVariable};
ghost use Rattle.graphql_reader.specs.Languages.{AVariableDefinition, AllVariables, Anything, AtEnd, BegunVariables};
ghost use Rattle.graphql_reader.specs.Languages.{NoEquals, NoNameNext, NoParen, NoVariable, Nothing, Perhaps};
ghost use Rattle.graphql_reader.specs.Languages.{IsFault, Leaves};
ghost use Rattle.graphql_reader.specs.Parts.{IsDefault, IsDefaultFault};
ghost use Rattle.graphql_reader.specs.Passed.{BeginsWith, Optional, Reads, Then};
ghost use Rattle.graphql_reader.specs.Selections.{SpellsCondition, SpellsFragmentName, SpellsName};
ghost use Rattle.language.specs.declared.tree.OperationType.{OperationType as Kind};
ghost use Rattle.value_reader.specs.Seen.{rules_of};
ghost use Rattle.value_reader.specs.declared.rules.Variables.TheVariants.{Refused};

use crate::arguments::read_directives;
use crate::expected::{expect, name};
use crate::selections::{OpenSets, read_selection_set};
use crate::types::read_type;
use graphql_lexer::error::ReadError;
use graphql_lexer::lexer::{Punctuator, Token};
use graphql_lexer::tokens::Tokens;
use language::position::{SourcePosition, Spanning};
use language::tree::{
    Definition, Fragment, Operation, OperationType, VariableDefinition, VariableDefinitions,
};
use language::value::InputValue;
use sdl_scalars::scalar::SourceScalar;
use std::alloc::Global;
use value_reader::reader::read_value;
use value_reader::rules::Variables;

/// Parses an executable document: one or more operations and fragments (section 2.2). Names are slices of the text.
/// It takes time in proportion to the length of the text.
///
/// # Errors
///
/// The text is no document: the error tells the place of the first token with which no document goes on, what was
/// expected there and what was found. Or out of memory, which says nothing of the text.
pub fn read_document<'a>(
    alloc: Global,
    text: &'a str,
) -> Result<Vec<Definition<'a, SourceScalar>>, ReadError<'a>>
    ensures some { IfOk result (λ definitions. 0 < length definitions.items) }
    ensures document { IfOk result (λ definitions.
        IsDocument None text.now (map definition_seen definitions.items)) }
    ensures only { IfOk result (λ definitions. (others : List g.Definition)
        → IsDocument None text.now others → others ≡ map definition_seen definitions.items) }
    ensures none { IfErr result (IsNoDocument None text.now) }
    ensures fault { IfErr result (IsDocumentFault None text.now) }
{
    read_document_within(alloc, text, None)
}

/// The same, where selection sets, lists and objects of a value, and list types each nest at most `max_depth` levels
/// deep, if it is given.
///
/// # Errors
///
/// As [`read_document`], where no document nests deeper: the first token at fault may be one that begins a level too
/// many.
pub fn read_document_within<'a>(
    alloc: Global,
    text: &'a str,
    max_depth: Option<usize>,
) -> Result<Vec<Definition<'a, SourceScalar>>, ReadError<'a>>
    ensures some { IfOk result (λ definitions. 0 < length definitions.items) }
    ensures document { IfOk result (λ definitions.
        IsDocument max_depth text.now (map definition_seen definitions.items)) }
    ensures only { IfOk result (λ definitions. (others : List g.Definition)
        → IsDocument max_depth text.now others → others ≡ map definition_seen definitions.items) }
    ensures none { IfErr result (IsNoDocument max_depth text.now) }
    ensures fault { IfErr result (IsDocumentFault max_depth text.now) }
{
    let mut tokens = Tokens::new(alloc, text.as_bytes());
    read_definitions(&mut tokens, max_depth)
}

/// Parses the definitions of a document up to the end of the text, from the next token on.
///
/// # Errors
///
/// As [`read_document_within`]. The first token at fault is next then.
pub fn read_definitions<'a>(
    tokens: &mut Tokens<'a>,
    max_depth: Option<usize>,
) -> Result<Vec<Definition<'a, SourceScalar>>, ReadError<'a>>
    ensures some { IfOk result (λ definitions. 0 < length definitions.items) }
    ensures tree { IfOk result (λ definitions.
        Reads (SpellsDocument max_depth (map definition_seen definitions.items)) tokens.old tokens.new) }
    ensures ended { OnOk result ((ahead_of tokens.new).token ≡ end) }
    ensures stuck { IfErr result (IsFault max_depth AtEnd ADocument tokens.old tokens.new) }
{
    let mut open = OpenSets::new(tokens.alloc());
    let mut definitions = Vec::new(tokens.alloc());
    loop {
        let definition = read_definition(tokens, &mut open, max_depth)?;
        definitions.push(definition)?;
        if tokens.is_at_end() {
            definitions.shrink_to_fit();
            return Ok(definitions);
        }
    }
}

fn read_definition<'a>(
    tokens: &mut Tokens<'a>,
    open: &mut OpenSets<'a>,
    max_depth: Option<usize>,
) -> Result<Definition<'a, SourceScalar>, ReadError<'a>>
    ensures tree { IfOk result (λ d.
        Reads (SpellsDefinition max_depth (definition_seen d)) tokens.old tokens.new) }
    ensures leaves { OnOk result (Leaves max_depth Anything ADefinition Nothing tokens.old tokens.new) }
    ensures stuck { IfErr result (IsFault max_depth Anything ADefinition tokens.old tokens.new) }
{
    if tokens.is(Punctuator::BraceOpen) {
        return read_bare_query(tokens, open, max_depth);
    }
    if let Some(operation_type) = operation_type_ahead(tokens) {
        return read_operation(tokens, open, max_depth, operation_type);
    }
    if tokens.is_word("fragment") {
        return read_fragment(tokens, open, max_depth);
    }
    Err(tokens.fault("an operation or a fragment"))
}

/// The kind of operation whose keyword is next.
pub fn operation_type_ahead(tokens: &Tokens<'_>) -> Option<OperationType>
    ensures kind { IfSome result (λ kind. (ahead_of tokens.now).token ≡ name_token (keyword kind)) }
    ensures other { MatchOption result
        ((kind : Kind) → (ahead_of tokens.now).token ≢ name_token (keyword kind)) (λ kind. Unit {0}) }
{
    match tokens.ahead() {
        Token::Name("query") => Some(OperationType::Query),
        Token::Name("mutation") => Some(OperationType::Mutation),
        Token::Name("subscription") => Some(OperationType::Subscription),
        _ => None,
    }
}

// A query in shorthand form: only its selection set.
fn read_bare_query<'a>(
    tokens: &mut Tokens<'a>,
    open: &mut OpenSets<'a>,
    max_depth: Option<usize>,
) -> Result<Definition<'a, SourceScalar>, ReadError<'a>>
    ensures tree { IfOk result (λ d.
        Reads (SpellsDefinition max_depth (definition_seen d)) tokens.old tokens.new) }
    ensures leaves { OnOk result ((ahead_of tokens.old).token ≡ punctuator BraceOpen
        → Leaves max_depth Anything ADefinition Nothing tokens.old tokens.new) }
    ensures stuck { IfErr result (λ e. (ahead_of tokens.old).token ≡ punctuator BraceOpen
        → IsFault max_depth Anything ADefinition tokens.old tokens.new e) }
{
    let start = tokens.start();
    let selection_set = read_selection_set(tokens, open, max_depth)?;
    let span = tokens.span_from(start);
    Ok(Definition::Operation(Spanning {
        item: Operation {
            operation_type: OperationType::Query,
            name: None,
            variable_definitions: None,
            directives: None,
            selection_set,
        },
        span,
    }))
}

fn read_operation<'a>(
    tokens: &mut Tokens<'a>,
    open: &mut OpenSets<'a>,
    max_depth: Option<usize>,
    operation_type: OperationType,
) -> Result<Definition<'a, SourceScalar>, ReadError<'a>>
    ensures tree { IfOk result (λ d. (ahead_of tokens.old).token ≡ name_token (keyword operation_type)
        → Reads (SpellsDefinition max_depth (definition_seen d)) tokens.old tokens.new) }
    ensures leaves { OnOk result ((ahead_of tokens.old).token ≡ name_token (keyword operation_type)
        → Leaves max_depth Anything ADefinition Nothing tokens.old tokens.new) }
    ensures stuck { IfErr result (λ e. (ahead_of tokens.old).token ≡ name_token (keyword operation_type)
        → IsFault max_depth Anything ADefinition tokens.old tokens.new e) }
{
    let start = tokens.start();
    tokens.advance();
    let name = read_operation_name(tokens)?;
    let variable_definitions = read_variable_definitions(tokens, max_depth)?;
    let directives = read_directives(tokens, Variables::Allowed, max_depth)?;
    let selection_set = read_selection_set(tokens, open, max_depth)?;
    let span = tokens.span_from(start);
    Ok(Definition::Operation(Spanning {
        item: Operation {
            operation_type,
            name,
            variable_definitions,
            directives,
            selection_set,
        },
        span,
    }))
}

// The name of an operation, if it has one.
fn read_operation_name<'a>(
    tokens: &mut Tokens<'a>,
) -> Result<Option<Spanning<&'a str>>, ReadError<'a>>
    ensures tree { IfOk result (λ name.
        Reads (Optional SpellsName (option_map name_seen name)) tokens.old tokens.new) }
    ensures leaves { OnOk result ((limit : Option ℕ)
        → Leaves limit NoNameNext (Perhaps AName) Nothing tokens.old tokens.new) }
    ensures stuck { IfErr result (λ e. (limit : Option ℕ)
        → IsFault limit NoNameNext (Perhaps AName) tokens.old tokens.new e) }
{
    match tokens.ahead() {
        Token::Name(_) => Ok(Some(name(tokens, "a name")?)),
        _ => Ok(None),
    }
}

fn read_fragment<'a>(
    tokens: &mut Tokens<'a>,
    open: &mut OpenSets<'a>,
    max_depth: Option<usize>,
) -> Result<Definition<'a, SourceScalar>, ReadError<'a>>
    ensures tree { IfOk result (λ d. (ahead_of tokens.old).token ≡ name_token fragment_word
        → Reads (SpellsDefinition max_depth (definition_seen d)) tokens.old tokens.new) }
    ensures leaves { OnOk result ((ahead_of tokens.old).token ≡ name_token fragment_word
        → Leaves max_depth Anything ADefinition Nothing tokens.old tokens.new) }
    ensures stuck { IfErr result (λ e. (ahead_of tokens.old).token ≡ name_token fragment_word
        → IsFault max_depth Anything ADefinition tokens.old tokens.new e) }
{
    let start = tokens.start();
    tokens.advance();
    let (name, type_condition) = read_fragment_head(tokens)?;
    let directives = read_directives(tokens, Variables::Allowed, max_depth)?;
    let selection_set = read_selection_set(tokens, open, max_depth)?;
    let span = tokens.span_from(start);
    Ok(Definition::Fragment(Spanning {
        item: Fragment {
            name,
            type_condition,
            directives,
            selection_set,
        },
        span,
    }))
}

// A fragment's name, which must not be `on`, and its type condition.
fn read_fragment_head<'a>(
    tokens: &mut Tokens<'a>,
) -> Result<(Spanning<&'a str>, Spanning<&'a str>), ReadError<'a>>
    ensures tree { IfOk result (λ r.
        Reads (Then (SpellsFragmentName (name_seen r.0)) (SpellsCondition (name_seen r.1))) tokens.old tokens.new) }
    ensures leaves { OnOk result ((limit : Option ℕ)
        → Leaves limit Anything AFragmentHead Nothing tokens.old tokens.new) }
    ensures stuck { IfErr result (λ e. (limit : Option ℕ)
        → IsFault limit Anything AFragmentHead tokens.old tokens.new e) }
{
    if tokens.is_word("on") {
        return Err(tokens.fault("a fragment's name"));
    }
    let fragment = name(tokens, "a fragment's name")?;
    if !tokens.take_word("on") {
        return Err(tokens.fault("`on`"));
    }
    let condition = name(tokens, "a type's name")?;
    Ok((fragment, condition))
}

fn read_variable_definitions<'a>(
    tokens: &mut Tokens<'a>,
    max_depth: Option<usize>,
) -> Result<Option<Spanning<VariableDefinitions<'a, SourceScalar>>>, ReadError<'a>>
    ensures tree { IfOk result (λ vs.
        Reads (Optional (SpellsVariables max_depth) (option_map variables_seen vs)) tokens.old tokens.new) }
    ensures leaves { OnOk result (Leaves max_depth NoParen (Perhaps AllVariables) Nothing tokens.old tokens.new) }
    ensures stuck { IfErr result (IsFault max_depth NoParen (Perhaps AllVariables) tokens.old tokens.new) }
{
    let start = tokens.start();
    if !tokens.take(Punctuator::ParenOpen) {
        return Ok(None);
    }
    read_variables_from(tokens, max_depth, start)
}

// The variable definitions after the opening parenthesis.
fn read_variables_from<'a>(
    tokens: &mut Tokens<'a>,
    max_depth: Option<usize>,
    start: SourcePosition,
) -> Result<Option<Spanning<VariableDefinitions<'a, SourceScalar>>>, ReadError<'a>>
    ensures tree { IfOk result (λ vs. (paren : Reader) → IsTaken (punctuator ParenOpen) paren tokens.old
        → start ≡ (ahead_of paren).start
        → Reads (Optional (SpellsVariables max_depth) (option_map variables_seen vs)) paren tokens.new) }
    ensures leaves { OnOk result (Leaves max_depth Anything BegunVariables Nothing tokens.old tokens.new) }
    ensures stuck { IfErr result (IsFault max_depth Anything BegunVariables tokens.old tokens.new) }
{
    let mut items = Vec::new(tokens.alloc());
    loop {
        let variable = read_variable_definition(tokens, max_depth)?;
        items.push(variable)?;
        if tokens.take(Punctuator::ParenClose) {
            items.shrink_to_fit();
            let span = tokens.span_from(start);
            let item = VariableDefinitions { items };
            return Ok(Some(Spanning { item, span }));
        }
    }
}

type Variable<'a> = (Spanning<&'a str>, VariableDefinition<'a, SourceScalar>);

// One variable: its name, a colon and its definition.
fn read_variable_definition<'a>(
    tokens: &mut Tokens<'a>,
    max_depth: Option<usize>,
) -> Result<Variable<'a>, ReadError<'a>>
    ensures tree { IfOk result (λ v.
        BeginsWith (SpellsVariableDefinition max_depth (variable_seen v)) (left tokens.old) (left tokens.new)) }
    ensures leaves { OnOk result
        (Leaves max_depth NoVariable AVariableDefinition Nothing tokens.old tokens.new) }
    ensures stuck { IfErr result (IsFault max_depth NoVariable AVariableDefinition tokens.old tokens.new) }
{
    let name = read_variable(tokens)?;
    expect(tokens, Punctuator::Colon, ":")?;
    let var_type = read_type(tokens, max_depth)?;
    let default_value = read_default_value(tokens, max_depth)?;
    let directives = read_directives(tokens, Variables::Refused, max_depth)?;
    let definition = VariableDefinition {
        var_type,
        default_value,
        directives,
    };
    Ok((name, definition))
}

// A variable: `$` and its name. Its span starts at the `$`.
fn read_variable<'a>(tokens: &mut Tokens<'a>) -> Result<Spanning<&'a str>, ReadError<'a>>
    ensures tree { IfOk result (λ v. Reads (SpellsVariable (name_seen v)) tokens.old tokens.new) }
    ensures leaves { OnOk result ((limit : Option ℕ)
        → Leaves limit Anything AVariable Nothing tokens.old tokens.new) }
    ensures stuck { IfErr result (λ e. (limit : Option ℕ)
        → IsFault limit Anything AVariable tokens.old tokens.new e) }
{
    let start = tokens.start();
    expect(tokens, Punctuator::Dollar, "a variable")?;
    let name = name(tokens, "the variable's name")?;
    let span = tokens.span_from(start);
    Ok(Spanning {
        item: name.item,
        span,
    })
}

/// Parses a default value, if there is one.
///
/// # Errors
///
/// The first token behind the `=` with which no constant goes on, which is a level too many where it opens more than
/// `max_depth`, or out of memory.
pub fn read_default_value<'a>(
    tokens: &mut Tokens<'a>,
    max_depth: Option<usize>,
) -> Result<Option<Spanning<InputValue<SourceScalar>>>, ReadError<'a>>
    ensures default { IfOk result (IsDefault (rules_of Refused max_depth) tokens.old tokens.new) }
    ensures fault { IfErr result
        (IsDefaultFault (rules_of Refused max_depth) (left tokens.old) (left tokens.new)) }
    ensures leaves { OnOk result (Leaves max_depth NoEquals (Perhaps ADefault) Nothing tokens.old tokens.new) }
    ensures stuck { IfErr result (IsFault max_depth NoEquals (Perhaps ADefault) tokens.old tokens.new) }
{
    if !tokens.take(Punctuator::Equals) {
        return Ok(None);
    }
    let value = read_value(tokens, Variables::Refused, max_depth)?;
    Ok(Some(value))
}
