//! Selection sets (GraphQL, October 2021, sections 2.4, 2.5 and 2.8).
ghost use Rattle.std.specs.Prelude.{◌≡◌, ◌≢◌, ◌++◌, ◌∷◌, ◌<◌, ◌≤◌, [], true, false, IsTrue, IfErr, IfOk, OnOk};
ghost use Rattle.std.specs.Prelude.{ℕ, List, Option, length, option_map, reverse};
ghost use Rattle.graphql_lexer.specs.Ahead.{ahead_of, last_end_of, left, IsTaken};
ghost use Rattle.graphql_lexer.specs.Lexical.{punctuator, name as name_token};
ghost use Rattle.graphql_lexer.specs.declared.lexer.Punctuator.TheVariants.{BraceOpen, BraceClose, Spread};
ghost use Rattle.graphql_lexer.specs.declared.tokens.Tokens.{Tokens as Reader};
ghost use Rattle.language.specs.declared.tree.Selection.{Selection as Node};
ghost use Rattle.sdl_scalars.specs.declared.scalar.SourceScalar.{SourceScalar as Scalar};
ghost use Rattle.value_reader.specs.Grammar.{may_nest};
ghost use Rattle.graphql_reader.specs.Arguments.{name_seen};
ghost use Rattle.graphql_reader.specs.Languages.{AField, ASelection, ASet, ASpread, AfterDots};
ghost use Rattle.graphql_reader.specs.Languages.{AliasedName, Anything, BegunSet, InlineBody, NoColon};
ghost use Rattle.graphql_reader.specs.Languages.{Nothing, IsFault, Leaves};
ghost use Rattle.graphql_reader.specs.Passed.{Reads};
ghost use Rattle.graphql_reader.specs.OpenSets.{first_of, given_field, given_inline, given_set, Adds, GoingOn, IsPart};
ghost use Rattle.graphql_reader.specs.OpenSets.{IsPartFault, IsTurn, LeavesPart, Standing};
ghost use Rattle.graphql_reader.specs.Selections.{nodes_seen, selection_seen, on};
ghost use Rattle.graphql_reader.specs.Selections.{SpellsAliased, SpellsDots, SpellsSet};

use crate::arguments::{read_arguments, read_directives};
use crate::depth::check_depth;
use crate::expected::{expect, name};
use graphql_lexer::error::ReadError;
use graphql_lexer::lexer::Punctuator;
use graphql_lexer::tokens::Tokens;
use language::position::{SourcePosition, Spanning};
use language::tree::{Field, FragmentSpread, InlineFragment, Selection};
use sdl_scalars::scalar::SourceScalar;
use std::alloc::Global;
use value_reader::rules::Variables;

type Nodes<'a> = Vec<Selection<'a, SourceScalar>>;

/// The sets that are begun. Their lists are used again for the next set that is read.
#[derive(Drop)]
pub(crate) struct OpenSets<'a> {
    // The selections of all of them. A field or an inline fragment whose set is begun stands there without it.
    nodes: Nodes<'a>,
    // Where in that list the selections of each set but the outermost begin, the innermost set last.
    firsts: Vec<usize>,
}

impl<'a> OpenSets<'a> {
    /// No set.
    pub(crate) fn new(alloc: Global) -> OpenSets<'a> {
        OpenSets {
            nodes: Vec::new(alloc),
            firsts: Vec::new(alloc),
        }
    }
}

/// Parses a selection set, which is never empty. What is begun stands on a list in memory, so no depth is too deep for
/// the machine's stack.
///
/// # Errors
///
/// The first token with which no selection set goes on, which is a level too many where it opens more than `max_depth`,
/// or out of memory.
pub(crate) fn read_selection_set<'a>(
    tokens: &mut Tokens<'a>,
    open: &mut OpenSets<'a>,
    max_depth: Option<usize>,
) -> Result<Nodes<'a>, ReadError<'a>>
    ensures tree { IfOk result (λ set. Reads (SpellsSet max_depth 0 (nodes_seen set.items)) tokens.old tokens.new) }
    ensures leaves { OnOk result (Leaves max_depth Anything (ASet 0) Nothing tokens.old tokens.new) }
    ensures stuck { IfErr result (IsFault max_depth Anything (ASet 0) tokens.old tokens.new) }
{
    open_set(tokens, 0, max_depth)?;
    open.nodes.clear();
    open.firsts.clear();
    loop {
        let turn = step(tokens, max_depth, &mut open.nodes, &mut open.firsts)?;
        match turn {
            Some(set) => return Ok(set),
            None => {}
        }
    }
}

// Takes the brace that begins a set inside of so many.
fn open_set<'a>(
    tokens: &mut Tokens<'a>,
    levels: usize,
    max_depth: Option<usize>,
) -> Result<(), ReadError<'a>>
    ensures depth { OnOk result (may_nest max_depth levels ≡ true) }
    ensures taken { OnOk result (IsTaken (punctuator BraceOpen) tokens.old tokens.new) }
    ensures leaves { OnOk result (Leaves max_depth Anything (ASet levels) (BegunSet levels) tokens.old tokens.new) }
    ensures stuck { IfErr result (IsFault max_depth Anything (ASet levels) tokens.old tokens.new) }
{
    check_depth(tokens, levels, max_depth)?;
    expect(tokens, Punctuator::BraceOpen, "{")
}

// Takes the brace that ends a set, or reads a selection more, or one up to its set and the brace that begins that. The
// outermost set, if it ends there.
fn step<'a>(
    tokens: &mut Tokens<'a>,
    max_depth: Option<usize>,
    nodes: &mut Nodes<'a>,
    firsts: &mut Vec<usize>,
) -> Result<Option<Nodes<'a>>, ReadError<'a>>
    ensures tree { IfOk result (λ turn. (first : Reader)
        → Standing max_depth first (reverse firsts.old.items) nodes.old.items tokens.old
        → IsTurn max_depth first (reverse firsts.new.items) nodes.new.items tokens.new turn) }
    ensures less { OnOk result (length (left tokens.new) < length (left tokens.old)) }
    ensures stuck { IfErr result (λ e. (first : Reader)
        → Standing max_depth first (reverse firsts.old.items) nodes.old.items tokens.old
        → IsFault max_depth Anything (ASet 0) first tokens.new e) }
{
    if ends(tokens, nodes, firsts) {
        return end_set(tokens, nodes, firsts);
    }
    let begins = read_part(tokens, max_depth, nodes)?;
    begin_set(tokens, max_depth, begins, nodes, firsts)?;
    Ok(None)
}

// Where the selections of the innermost set begin.
fn first_of(firsts: &Vec<usize>) -> usize
    ensures { result ≡ first_of (reverse firsts.now.items) }
{
    match firsts.last() {
        Some(first) => *first,
        None => 0,
    }
}

// Takes the brace that ends a set, if it is next and the set has some selection.
fn ends<'a>(tokens: &mut Tokens<'a>, nodes: &Nodes<'a>, firsts: &Vec<usize>) -> bool
    ensures taken { IsTrue result → IsTaken (punctuator BraceClose) tokens.old tokens.new }
    ensures some { IsTrue result → first_of (reverse firsts.now.items) < length nodes.now.items }
    ensures left { result ≡ false → tokens.new ≡ tokens.old }
    ensures other { result ≡ false → first_of (reverse firsts.now.items) < length nodes.now.items
        → (ahead_of tokens.old).token ≢ punctuator BraceClose }
{
    if nodes.len() <= first_of(firsts) {
        return false;
    }
    tokens.take(Punctuator::BraceClose)
}

// Puts the innermost set into the selection that it belongs to.
fn end_set<'a>(
    tokens: &Tokens<'a>,
    nodes: &mut Nodes<'a>,
    firsts: &mut Vec<usize>,
) -> Result<Option<Nodes<'a>>, ReadError<'a>>
    requires { first_of (reverse firsts.old.items) < length nodes.old.items }
    ensures tree { IfOk result (λ turn. (limit : Option ℕ) (first : Reader) (mid : Reader)
        → Standing limit first (reverse firsts.old.items) nodes.old.items mid
        → IsTaken (punctuator BraceClose) mid tokens.now
        → IsTurn limit first (reverse firsts.new.items) nodes.new.items tokens.now turn) }
    ensures memory { IfErr result (λ e. e ≡ ReadError.OutOfMemory) }
{
    let set = nodes.split_off(first_of(firsts))?;
    match firsts.pop() {
        None => Ok(Some(set)),
        Some(_) => {
            give_last(tokens, nodes, set);
            Ok(None)
        }
    }
}

// Puts a set, whose brace was taken last, into the last of these selections.
fn give_last<'a>(tokens: &Tokens<'a>, nodes: &mut Nodes<'a>, set: Nodes<'a>)
    ensures { (before : List (Node Scalar)) (holder : Node Scalar) → nodes.old.items ≡ before ++ holder ∷ []
        → Adds (λ n. selection_seen n
        ≡ given_set (selection_seen holder) (nodes_seen set.entry.items) (last_end_of tokens.now))
        before nodes.new.items }
{
    if let Some(holder) = nodes.last_mut() {
        give(tokens, holder, set);
    }
}

// Puts a set, whose brace was taken last, into a field or an inline fragment, which ends there.
fn give<'a>(tokens: &Tokens<'a>, holder: &mut Selection<'a, SourceScalar>, set: Nodes<'a>)
    ensures { selection_seen holder.new
        ≡ given_set (selection_seen holder.old) (nodes_seen set.entry.items) (last_end_of tokens.now) }
{
    match holder {
        Selection::Field(field) => give_field(tokens, field, set),
        Selection::InlineFragment(inline) => give_inline(tokens, inline, set),
        Selection::FragmentSpread(_) => {}
    }
}

fn give_field<'a>(
    tokens: &Tokens<'a>,
    field: &mut Spanning<Field<'a, SourceScalar>>,
    set: Nodes<'a>,
)
    ensures item { field.new.item ≡ given_field field.old.item set.entry }
    ensures start { field.new.span.start ≡ field.old.span.start }
    ensures end { field.new.span.end ≡ last_end_of tokens.now }
{
    field.item.selection_set = Some(set);
    field.span = tokens.span_from(field.span.start);
}

fn give_inline<'a>(
    tokens: &Tokens<'a>,
    inline: &mut Spanning<InlineFragment<'a, SourceScalar>>,
    set: Nodes<'a>,
)
    ensures item { inline.new.item ≡ given_inline inline.old.item set.entry }
    ensures start { inline.new.span.start ≡ inline.old.span.start }
    ensures end { inline.new.span.end ≡ last_end_of tokens.now }
{
    put_set(&mut inline.item, set);
    inline.span = tokens.span_from(inline.span.start);
}

fn put_set<'a>(inline: &mut InlineFragment<'a, SourceScalar>, set: Nodes<'a>)
    ensures { inline.new ≡ given_inline inline.old set.entry }
{
    inline.selection_set = set;
}

// Begins the set of the selection that was read last, if it has one.
fn begin_set<'a>(
    tokens: &mut Tokens<'a>,
    max_depth: Option<usize>,
    begins: bool,
    nodes: &Nodes<'a>,
    firsts: &mut Vec<usize>,
) -> Result<(), ReadError<'a>>
    ensures tree { OnOk result ((first : Reader) (mid : Reader) (old : List (Node Scalar))
        → GoingOn max_depth first (reverse firsts.old.items) old mid
        → Adds (IsPart max_depth mid tokens.old begins) old nodes.now.items
        → LeavesPart ASelection max_depth mid tokens.old begins
        → Standing max_depth first (reverse firsts.new.items) nodes.now.items tokens.new) }
    ensures less { OnOk result (length (left tokens.new) ≤ length (left tokens.old)) }
    ensures stuck { IfErr result (λ e. (first : Reader) (mid : Reader) (old : List (Node Scalar))
        → GoingOn max_depth first (reverse firsts.old.items) old mid
        → LeavesPart ASelection max_depth mid tokens.old begins
        → IsFault max_depth Anything (ASet 0) first tokens.new e) }
{
    if !begins {
        return Ok(());
    }
    let first = nodes.len();
    firsts.push(first)?;
    let levels = firsts.len();
    open_set(tokens, levels, max_depth)
}

// A selection more, up to its set if it has one, and whether it has.
fn read_part<'a>(
    tokens: &mut Tokens<'a>,
    max_depth: Option<usize>,
    nodes: &mut Nodes<'a>,
) -> Result<bool, ReadError<'a>>
    ensures tree { IfOk result (λ begins.
        Adds (IsPart max_depth tokens.old tokens.new begins) nodes.old.items nodes.new.items) }
    ensures leaves { IfOk result (LeavesPart ASelection max_depth tokens.old tokens.new) }
    ensures stuck { IfErr result (IsPartFault ASelection max_depth tokens.old tokens.new) }
{
    let start = tokens.start();
    if tokens.take(Punctuator::Spread) {
        read_after_dots(tokens, max_depth, nodes, start)
    } else {
        read_field(tokens, max_depth, nodes)
    }
}

// An inline fragment up to its brace, or the spread of a fragment.
fn read_after_dots<'a>(
    tokens: &mut Tokens<'a>,
    max_depth: Option<usize>,
    nodes: &mut Nodes<'a>,
    start: SourcePosition,
) -> Result<bool, ReadError<'a>>
    ensures tree { IfOk result (λ begins. (dots : Reader) → IsTaken (punctuator Spread) dots tokens.old
        → start ≡ (ahead_of dots).start
        → Adds (IsPart max_depth dots tokens.new begins) nodes.old.items nodes.new.items) }
    ensures leaves { IfOk result (LeavesPart AfterDots max_depth tokens.old tokens.new) }
    ensures stuck { IfErr result (IsPartFault AfterDots max_depth tokens.old tokens.new) }
{
    if tokens.take_word("on") {
        let condition = name(tokens, "a type's name")?;
        return read_inline(tokens, max_depth, nodes, start, Some(condition));
    }
    if tokens.is(Punctuator::At) || tokens.is(Punctuator::BraceOpen) {
        return read_inline(tokens, max_depth, nodes, start, None);
    }
    read_fragment_spread(tokens, max_depth, nodes, start)
}

// A field up to its set if it has one, and whether it has.
fn read_field<'a>(
    tokens: &mut Tokens<'a>,
    max_depth: Option<usize>,
    nodes: &mut Nodes<'a>,
) -> Result<bool, ReadError<'a>>
    ensures tree { IfOk result (λ begins.
        Adds (IsPart max_depth tokens.old tokens.new begins) nodes.old.items nodes.new.items) }
    ensures leaves { IfOk result (LeavesPart AField max_depth tokens.old tokens.new) }
    ensures stuck { IfErr result (IsPartFault AField max_depth tokens.old tokens.new) }
{
    nodes.reserve(1)?;
    let start = tokens.start();
    let (alias, name) = read_alias_and_name(tokens)?;
    let arguments = read_arguments(tokens, Variables::Allowed, max_depth)?;
    let directives = read_directives(tokens, Variables::Allowed, max_depth)?;
    let item = Field {
        alias,
        name,
        arguments,
        directives,
        selection_set: None,
    };
    let span = tokens.span_from(start);
    nodes.push_reserved(Selection::Field(Spanning { item, span }));
    Ok(tokens.is(Punctuator::BraceOpen))
}

fn read_alias_and_name<'a>(
    tokens: &mut Tokens<'a>,
) -> Result<(Option<Spanning<&'a str>>, Spanning<&'a str>), ReadError<'a>>
    ensures tree { IfOk result (λ r.
        Reads (SpellsAliased (option_map name_seen r.0) (name_seen r.1)) tokens.old tokens.new) }
    ensures leaves { OnOk result ((limit : Option ℕ)
        → Leaves limit NoColon AliasedName Nothing tokens.old tokens.new) }
    ensures stuck { IfErr result (λ e. (limit : Option ℕ)
        → IsFault limit NoColon AliasedName tokens.old tokens.new e) }
{
    let first = name(tokens, "a selection")?;
    if tokens.take(Punctuator::Colon) {
        let name = name(tokens, "a field's name")?;
        return Ok((Some(first), name));
    }
    Ok((None, first))
}

// What follows the dots, and a type condition if there is one, up to the brace.
fn read_inline<'a>(
    tokens: &mut Tokens<'a>,
    max_depth: Option<usize>,
    nodes: &mut Nodes<'a>,
    start: SourcePosition,
    type_condition: Option<Spanning<&'a str>>,
) -> Result<bool, ReadError<'a>>
    ensures tree { IfOk result (λ begins. (dots : Reader) → start ≡ (ahead_of dots).start
        → Reads (SpellsDots (option_map name_seen type_condition.entry)) dots tokens.old
        → Adds (IsPart max_depth dots tokens.new begins) nodes.old.items nodes.new.items) }
    ensures leaves { IfOk result (LeavesPart InlineBody max_depth tokens.old tokens.new) }
    ensures stuck { IfErr result (IsPartFault InlineBody max_depth tokens.old tokens.new) }
{
    nodes.reserve(1)?;
    let directives = read_directives(tokens, Variables::Allowed, max_depth)?;
    let item = InlineFragment {
        type_condition,
        directives,
        selection_set: Vec::new(tokens.alloc()),
    };
    let span = tokens.span_from(start);
    nodes.push_reserved(Selection::InlineFragment(Spanning { item, span }));
    Ok(true)
}

fn read_fragment_spread<'a>(
    tokens: &mut Tokens<'a>,
    max_depth: Option<usize>,
    nodes: &mut Nodes<'a>,
    start: SourcePosition,
) -> Result<bool, ReadError<'a>>
    ensures tree { IfOk result (λ begins. (dots : Reader) → IsTaken (punctuator Spread) dots tokens.old
        → start ≡ (ahead_of dots).start → (ahead_of tokens.old).token ≢ name_token on
        → Adds (IsPart max_depth dots tokens.new begins) nodes.old.items nodes.new.items) }
    ensures leaves { IfOk result (λ begins. (ahead_of tokens.old).token ≢ name_token on
        → LeavesPart (λ depth. ASpread) max_depth tokens.old tokens.new begins) }
    ensures stuck { IfErr result (λ e. (ahead_of tokens.old).token ≢ name_token on
        → IsPartFault (λ depth. ASpread) max_depth tokens.old tokens.new e) }
{
    nodes.reserve(1)?;
    let name = name(tokens, "a fragment's name, `on`, a directive or {")?;
    let directives = read_directives(tokens, Variables::Allowed, max_depth)?;
    let span = tokens.span_from(start);
    let item = FragmentSpread { name, directives };
    nodes.push_reserved(Selection::FragmentSpread(Spanning { item, span }));
    Ok(false)
}
