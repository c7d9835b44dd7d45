//! The fields that are collected from a selection set at a root, with no values of variables (GraphQL, October 2021,
//! section 6.3.2).

ghost use Rattle.std.specs.Prelude.{◌≡◌, ◌++◌, ◌∷◌, [], ℕ, List, Some, IfOk, OnOk, option_copied, option_and_then};
ghost use Rattle.std.specs.Prelude.{reverse, slice_get};
ghost use Rattle.std.specs.List.{list_any};
ghost use Rattle.language_types.specs.References.{list_copied};
ghost use Rattle.language.specs.declared.tree.Field.{Field};
ghost use Rattle.language_types.specs.Position.{Placed};
ghost use Rattle.fragment_graph.specs.Numbers.{number_of, NumberedDefinitions};
ghost use Rattle.rules_specified.specs.Collected.{are_leaving_out, given_if, is_false, is_not_included, is_true};
ghost use Rattle.rules_specified.specs.Collected.{is_variable, last_fragment, leaves_out, of_inline, of_spread, truth_of};
ghost use Rattle.rules_specified.specs.Collecting.{fragment_in, part_at, placed, CollectsAt, IsPart, IsRoot, Leads};
ghost use Rattle.rules_specified.specs.Collecting.{Marks};

use bit_matrix::set::BitSet;
use fragment_graph::document_graph::graph_of;
use fragment_graph::numbers::{NumberedNames, Numbers, number};
use language::error::OutOfMemory;
use language::position::Spanning;
use language::scalar::ScalarValue;
use language::tree::{Definition, Directive, Field, Fragment, InlineFragment, Selection};
use language::value::InputValue;
use merge_graph::definitions::last_places;
use schema::model::SchemaTypeOf;
use std::alloc::{AllocError, Global};

/// A root at which fields are collected, with the fragments of a document.
#[derive(Drop)]
pub struct Root<'a, S, C> {
    schema: &'a SchemaTypeOf<S, C>,
    name: &'a str,
    document: &'a [Definition<'a, S>],
    numbers: Numbers<'a>,
    last: Vec<Option<usize>>,
}

/// A field that is collected.
#[derive(Drop)]
pub struct RootField<'a, S> {
    pub field: &'a Spanning<Field<'a, S>>,
}

// What a selection gives: nothing, a field, or the set of a fragment.
#[derive(Drop)]
pub(crate) enum Found<'a, S> {
    Nothing,
    Field(&'a Spanning<Field<'a, S>>),
    Inside(&'a [Selection<'a, S>]),
}

// What waits while fields are collected: sets, the last one first, and the numbers of the fragments that were opened.
#[derive(Drop)]
pub(crate) struct Collecting<'a, S> {
    waiting: Vec<&'a [Selection<'a, S>]>,
    opened: BitSet,
    fields: Vec<RootField<'a, S>>,
}

/// The root of this name.
///
/// # Errors
///
/// Out of memory.
pub fn root_of<'a, S, C>(
    alloc: Global,
    schema: &'a SchemaTypeOf<S, C>,
    name: &'a str,
    document: &'a [Definition<'a, S>],
    names: NumberedNames<'a>,
) -> Result<Root<'a, S, C>, AllocError>
    requires { NumberedDefinitions document.now names.numbers names.defined.items }
    ensures root { IfOk result IsRoot }
    ensures schema { IfOk result (λ root. root.schema.now ≡ schema.now) }
    ensures name { IfOk result (λ root. root.name.now ≡ name.now) }
    ensures document { IfOk result (λ root. root.document.now ≡ document.now) }
{
    let graph = graph_of(alloc, document, names)?;
    let last = last_places(alloc, document, &graph)?;
    Ok(Root {
        schema,
        name,
        document,
        numbers: graph.numbers,
        last,
    })
}

// The first argument `if` of a directive.
fn given_if<'d, S>(directive: &'d Directive<'_, S>) -> Option<&'d Spanning<InputValue<S>>>
    ensures { option_copied result ≡ given_if directive.now }
{
    match &directive.arguments {
        Some(arguments) => arguments.item.get("if"),
        None => None,
    }
}

// The value of a Boolean.
fn truth_of<S: ScalarValue>(value: &InputValue<S>) -> Option<bool>
    ensures { result ≡ truth_of S.bool_of value.now }
{
    match value {
        InputValue::Scalar(scalar) => scalar.as_bool(),
        _ => None,
    }
}

// Whether an argument is there and is `true`.
fn is_true<S: ScalarValue>(given: Option<&Spanning<InputValue<S>>>) -> bool
    ensures { result ≡ is_true S.bool_of (option_copied given.entry) }
{
    match given {
        Some(value) => truth_of(&value.item).unwrap_or(false),
        None => false,
    }
}

// Whether an argument is there and is `false`.
fn is_false<S: ScalarValue>(given: Option<&Spanning<InputValue<S>>>) -> bool
    ensures { result ≡ is_false S.bool_of (option_copied given.entry) }
{
    match given {
        Some(value) => !truth_of(&value.item).unwrap_or(true),
        None => false,
    }
}

fn is_variable<S>(value: &InputValue<S>) -> bool
    ensures { result ≡ is_variable value.now }
{
    match value {
        InputValue::Variable(_) => true,
        _ => false,
    }
}

// Whether an `if` of `@include` is `false` or a variable.
fn is_not_included<S: ScalarValue>(given: Option<&Spanning<InputValue<S>>>) -> bool
    ensures { result ≡ is_not_included S.bool_of (option_copied given.entry) }
{
    match given {
        Some(value) => is_variable(&value.item) || is_false(Some(value)),
        None => false,
    }
}

// Whether a directive leaves out what it is at.
fn leaves_out<S: ScalarValue>(directive: &Directive<'_, S>) -> bool
    ensures { result ≡ leaves_out S.bool_of directive.now }
{
    if directive.name.item == "skip" {
        return is_true(given_if(directive));
    }
    if directive.name.item == "include" {
        return is_not_included(given_if(directive));
    }
    false
}

// Whether one of these directives does.
fn some_leaves_out<S: ScalarValue>(directives: &[Spanning<Directive<'_, S>>]) -> bool
    ensures { result ≡ list_any (λ d. leaves_out S.bool_of d.item) directives.now }
{
    for directive in directives {
        if leaves_out(&directive.item) {
            return true;
        }
    }
    false
}

// Whether one of the directives of a node does.
fn are_leaving_out<S: ScalarValue>(directives: &Option<Vec<Spanning<Directive<'_, S>>>>) -> bool
    ensures { result ≡ are_leaving_out S.bool_of directives.now }
{
    match directives {
        Some(directives) => some_leaves_out(directives.as_slice()),
        None => false,
    }
}

// The place that is kept at a number.
fn place_at(places: &[Option<usize>], number: usize) -> Option<usize>
    ensures { result ≡ option_and_then (λ o. o) (slice_get places.now number) }
{
    match places.get(number) {
        Some(place) => *place,
        None => None,
    }
}

// The fragment at a place of a document.
fn fragment_at<'a, S>(
    document: &'a [Definition<'a, S>],
    place: usize,
) -> Option<&'a Spanning<Fragment<'a, S>>>
    ensures { option_copied result ≡ fragment_in (slice_get document.now place) }
{
    match document.get(place) {
        Some(Definition::Fragment(fragment)) => Some(fragment),
        _ => None,
    }
}

// The last fragment of the name of a number.
fn last_fragment<'a, S, C>(
    root: &Root<'a, S, C>,
    number: usize,
) -> Option<&'a Spanning<Fragment<'a, S>>>
    requires { IsRoot root.now }
    ensures { (name : List ℕ) → number_of root.now.numbers name ≡ Some number
        → option_copied result ≡ last_fragment root.now.document.now name }
{
    match place_at(root.last.as_slice(), number) {
        Some(place) => fragment_at(root.document, place),
        None => None,
    }
}

// What an inline fragment gives.
fn of_inline<'a, S, C>(root: &Root<'a, S, C>, inline: &'a InlineFragment<'a, S>) -> Found<'a, S>
    ensures { (names : List (List ℕ)) → IsPart names names
        (of_inline root.now.schema.now root.now.document.now root.now.name.now names inline.now) result }
{
    match &inline.type_condition {
        Some(condition) if !root.schema.is_named_subtype(root.name, condition.item) => {
            Found::Nothing
        }
        _ => Found::Inside(inline.selection_set.as_slice()),
    }
}

// What a spread gives. The fragment is opened from then on.
fn of_spread<'a, S, C>(
    root: &Root<'a, S, C>,
    opened: &mut BitSet,
    name: &str,
) -> Result<Found<'a, S>, AllocError>
    requires { IsRoot root.now }
    ensures { IfOk result (λ found. (names : List (List ℕ)) → Marks root.now.numbers opened.old names
        → (after : List (List ℕ)) × Marks root.now.numbers opened.new after × IsPart names after
        (of_spread root.now.schema.now root.now.document.now root.now.name.now names name.now) found) }
{
    let Some(number) = number(&root.numbers, name) else {
        return Ok(Found::Nothing);
    };
    if opened.contains(number) {
        return Ok(Found::Nothing);
    }
    let Some(fragment) = last_fragment(root, number) else {
        return Ok(Found::Nothing);
    };
    let condition = fragment.item.type_condition.item;
    if !root.schema.is_named_subtype(root.name, condition) {
        return Ok(Found::Nothing);
    }
    opened.insert(number)?;
    Ok(Found::Inside(fragment.item.selection_set.as_slice()))
}

// What a selection gives.
fn found_at<'a, S: ScalarValue, C>(
    root: &Root<'a, S, C>,
    opened: &mut BitSet,
    selection: &'a Selection<'a, S>,
) -> Result<Found<'a, S>, AllocError>
    requires { IsRoot root.now }
    ensures { IfOk result (λ found. (names : List (List ℕ)) → Marks root.now.numbers opened.old names
        → (after : List (List ℕ)) × Marks root.now.numbers opened.new after
        × IsPart names after (part_at S.bool_of root.now names selection.now) found) }
{
    match selection {
        Selection::Field(field) => {
            if are_leaving_out(&field.item.directives) {
                return Ok(Found::Nothing);
            }
            Ok(Found::Field(field))
        }
        Selection::FragmentSpread(spread) => {
            if are_leaving_out(&spread.item.directives) {
                return Ok(Found::Nothing);
            }
            of_spread(root, opened, spread.item.name.item)
        }
        Selection::InlineFragment(inline) => {
            if are_leaving_out(&inline.item.directives) {
                return Ok(Found::Nothing);
            }
            Ok(of_inline(root, &inline.item))
        }
    }
}

// Collects what the first selection of a set gives. What is left of the set waits.
fn collect_first<'a, S: ScalarValue, C>(
    root: &Root<'a, S, C>,
    set: &'a [Selection<'a, S>],
    state: &mut Collecting<'a, S>,
) -> Result<(), AllocError>
    requires { IsRoot root.now }
    ensures { OnOk result ((names : List (List ℕ)) → Marks root.now.numbers state.old.opened names
        → (added : List (Placed (Field S)))
        × (placed state.new.fields.items ≡ placed state.old.fields.items ++ added)
        × Leads S.bool_of root.now state.new.opened
        (set.now ∷ reverse (list_copied state.old.waiting.items))
        (reverse (list_copied state.new.waiting.items)) added names) }
{
    let Some((first, rest)) = set.split_first() else {
        return Ok(());
    };
    state.waiting.push(rest)?;
    match found_at(root, &mut state.opened, first)? {
        Found::Nothing => {}
        Found::Field(field) => state.fields.push(RootField { field })?,
        Found::Inside(inner) => state.waiting.push(inner)?,
    }
    Ok(())
}

/// The fields that are collected from a set at a root, in order.
///
/// # Errors
///
/// Out of memory.
pub fn collected<'a, S: ScalarValue, C>(
    alloc: Global,
    root: &Root<'a, S, C>,
    set: &'a [Selection<'a, S>],
) -> Result<Vec<RootField<'a, S>>, OutOfMemory>
    requires { IsRoot root.now }
    ensures { IfOk result (λ fields. (after : List (List ℕ))
        × CollectsAt S.bool_of root.now [] set.now (placed fields.items) after) }
{
    let mut state = Collecting {
        waiting: Vec::new(alloc),
        opened: BitSet::new(alloc),
        fields: Vec::new(alloc),
    };
    state.waiting.push(set)?;
    for _ in 0..u64::MAX {
        let Some(next) = state.waiting.pop() else {
            return Ok(state.fields);
        };
        collect_first(root, next, &mut state)?;
    }
    Err(OutOfMemory)
}
