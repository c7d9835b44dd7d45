//! Arguments and directives (GraphQL, October 2021, sections 2.6 and 2.12).
ghost use Rattle.std.specs.Prelude.{◌≡◌, IfOk, IfErr, List, OnOk};
ghost use Rattle.graphql_lexer.specs.Ahead.{left};
ghost use Rattle.graphql_lexer.specs.Lexemes.{Lexeme};
ghost use Rattle.graphql_reader.specs.Arguments as g;
ghost use Rattle.graphql_reader.specs.Arguments.{argument_seen, directive_seen, BeginsArgument, SpellsDirective};
ghost use Rattle.graphql_reader.specs.Arguments.{IsArgumentFault, IsArguments, IsDirectives};
ghost use Rattle.graphql_reader.specs.Languages.{ADirective, AnArgument, Anything, InParens, Marks, NoMarks, NoParen};
ghost use Rattle.graphql_reader.specs.Languages.{Nothing, Perhaps, IsFault, Leaves};
ghost use Rattle.graphql_reader.specs.Passed.{Reads};
ghost use Rattle.value_reader.specs.Seen.{rules_of};

use crate::expected::{expect, name};
use graphql_lexer::error::ReadError;
use graphql_lexer::lexer::Punctuator;
use graphql_lexer::tokens::Tokens;
use language::position::Spanning;
use language::tree::{Arguments, Directive};
use language::value::InputValue;
use sdl_scalars::scalar::SourceScalar;
use value_reader::reader::read_value;
use value_reader::rules::Variables;

/// The directives of a node, or `None` without any.
pub type Directives<'a> = Option<Vec<Spanning<Directive<'a, SourceScalar>>>>;

type Argument<'a> = (Spanning<&'a str>, Spanning<InputValue<SourceScalar>>);

/// Parses arguments, if there are any. The list is never empty.
///
/// # Errors
///
/// The first token behind the parenthesis with which no arguments go on, which is a level too many where it opens more
/// than `max_depth`, or out of memory.
pub fn read_arguments<'a>(
    tokens: &mut Tokens<'a>,
    variables: Variables,
    max_depth: Option<usize>,
) -> Result<Option<Spanning<Arguments<'a, SourceScalar>>>, ReadError<'a>>
    ensures tree { IfOk result (IsArguments (rules_of variables max_depth) tokens.old tokens.new) }
    ensures leaves { OnOk result
        (Leaves max_depth NoParen (Perhaps (InParens variables)) Nothing tokens.old tokens.new) }
    ensures stuck { IfErr result
        (IsFault max_depth NoParen (Perhaps (InParens variables)) tokens.old tokens.new) }
{
    let start = tokens.start();
    if !tokens.take(Punctuator::ParenOpen) {
        return Ok(None);
    }
    let mut items = Vec::with_capacity(tokens.alloc(), 1)?;
    loop {
        let argument = read_argument(tokens, variables, max_depth)?;
        items.push(argument)?;
        if tokens.take(Punctuator::ParenClose) {
            items.shrink_to_fit();
            let span = tokens.span_from(start);
            let item = Arguments { items };
            return Ok(Some(Spanning { item, span }));
        }
    }
}

// One argument: its name, a colon and its value.
fn read_argument<'a>(
    tokens: &mut Tokens<'a>,
    variables: Variables,
    max_depth: Option<usize>,
) -> Result<Argument<'a>, ReadError<'a>>
    ensures argument { IfOk result (λ a.
        BeginsArgument (rules_of variables max_depth) (left tokens.old) (argument_seen a) (left tokens.new)) }
    ensures only { IfOk result (λ a. (b : g.Argument) (rest : List Lexeme)
        → BeginsArgument (rules_of variables max_depth) (left tokens.old) b rest
        → (b ≡ argument_seen a) × (rest ≡ left tokens.new)) }
    ensures fault { IfErr result
        (IsArgumentFault (rules_of variables max_depth) (left tokens.old) (left tokens.new)) }
    ensures leaves { OnOk result (Leaves max_depth Anything (AnArgument variables) Nothing tokens.old tokens.new) }
    ensures stuck { IfErr result (IsFault max_depth Anything (AnArgument variables) tokens.old tokens.new) }
{
    let name = name(tokens, "an argument's name")?;
    expect(tokens, Punctuator::Colon, ":")?;
    let value = read_value(tokens, variables, max_depth)?;
    Ok((name, value))
}

/// Parses directives, if there are any. The list is never empty.
///
/// # Errors
///
/// The first token behind an `@` with which no directives go on, which is a level too many where it opens more than
/// `max_depth`, or out of memory.
pub fn read_directives<'a>(
    tokens: &mut Tokens<'a>,
    variables: Variables,
    max_depth: Option<usize>,
) -> Result<Directives<'a>, ReadError<'a>>
    ensures tree { IfOk result (IsDirectives (rules_of variables max_depth) tokens.old tokens.new) }
    ensures leaves { OnOk result (Leaves max_depth NoMarks (Marks variables) Nothing tokens.old tokens.new) }
    ensures stuck { IfErr result (IsFault max_depth NoMarks (Marks variables) tokens.old tokens.new) }
{
    if !tokens.is(Punctuator::At) {
        return Ok(None);
    }
    let mut directives = Vec::with_capacity(tokens.alloc(), 1)?;
    while tokens.is(Punctuator::At) {
        let directive = read_directive(tokens, variables, max_depth)?;
        directives.push(directive)?;
    }
    directives.shrink_to_fit();
    Ok(Some(directives))
}

fn read_directive<'a>(
    tokens: &mut Tokens<'a>,
    variables: Variables,
    max_depth: Option<usize>,
) -> Result<Spanning<Directive<'a, SourceScalar>>, ReadError<'a>>
    ensures tree { IfOk result (λ d.
        Reads (SpellsDirective (rules_of variables max_depth) (directive_seen d)) tokens.old tokens.new) }
    ensures leaves { OnOk result (Leaves max_depth NoParen (ADirective variables) Nothing tokens.old tokens.new) }
    ensures stuck { IfErr result (IsFault max_depth NoParen (ADirective variables) tokens.old tokens.new) }
{
    let start = tokens.start();
    expect(tokens, Punctuator::At, "@")?;
    let name = name(tokens, "a directive's name")?;
    let arguments = read_arguments(tokens, variables, max_depth)?;
    let span = tokens.span_from(start);
    let item = Directive { name, arguments };
    Ok(Spanning { item, span })
}
