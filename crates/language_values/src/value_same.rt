//! `==` of values, by a loop, so that no depth is too deep for the machine's stack.
ghost use Rattle.std.specs.Prelude.{◌≡◌, ◌&&◌, IfOk};
ghost use Rattle.std.specs.List.{list_all};
ghost use Rattle.std.specs.Cmp.Lexicographic.{pointwise};
ghost use Rattle.language_values.specs.ValuesSame.{same_value, same_item, same_entry, same_place, same_span, is_match};

use crate::value::InputValue;
use language_types::position::{Span, Spanning};
use std::alloc::{AllocError, Global};

/// Two values are equal if they are of one kind, with equal texts or scalars, and what they hold is equal in order,
/// each at the same place in its text. Where the list of what is to be compared after is refused memory the call
/// recurses: it can tell no fault.
impl<S: PartialEq> PartialEq for InputValue<S> {
    ghost use Rattle.language_values.specs.ValuesSame.{same_value};
    ghost use Rattle.language_values.specs.SameLaws.{same_value-laws};

    ghost eq = { same_value S.eq };

    ghost laws = { same_value-laws S.eq S.laws };

    fn eq(&self, other: &InputValue<S>) -> bool {
        match self {
            InputValue::List(items) => values_equal(*items.allocator(), self, other),
            InputValue::Object(entries) => values_equal(*entries.allocator(), self, other),
            _ => values_same(self, other),
        }
    }
}

fn values_equal<S: PartialEq>(alloc: Global, left: &InputValue<S>, right: &InputValue<S>) -> bool
    ensures { result ≡ same_value S.eq left.now right.now }
{
    match all_match(alloc, match_values(left, right)) {
        Ok(answer) => answer,
        Err(_) => values_same(left, right),
    }
}

// What two values, or two lists of values, come down to as they are compared in order.
#[derive(Drop)]
enum Matching<'v, S> {
    Answer(bool),
    Items(&'v [Spanning<InputValue<S>>], &'v [Spanning<InputValue<S>>]),
    Entries(
        &'v [(Spanning<String>, Spanning<InputValue<S>>)],
        &'v [(Spanning<String>, Spanning<InputValue<S>>)],
    ),
}

fn all_match<S: PartialEq>(alloc: Global, first: Matching<'_, S>) -> Result<bool, AllocError>
    ensures { IfOk result (λ b. b ≡ is_match S.eq first.entry) }
{
    let mut waiting = Vec::new(alloc);
    waiting.push(first)?;
    for _ in 0..u64::MAX {
        let Some(matching) = waiting.pop() else {
            return Ok(true);
        };
        if !match_first(matching, &mut waiting)? {
            return Ok(false);
        }
    }
    Err(AllocError)
}

// Whether the first of both sides match. What is to be compared after waits.
fn match_first<'v, S: PartialEq>(
    matching: Matching<'v, S>,
    waiting: &mut Vec<Matching<'v, S>>,
) -> Result<bool, AllocError>
    ensures { IfOk result (λ b. (b && list_all (is_match S.eq) waiting.new.items)
        ≡ (is_match S.eq matching.entry && list_all (is_match S.eq) waiting.old.items)) }
{
    match matching {
        Matching::Answer(answer) => Ok(answer),
        Matching::Items(left, right) => match_items(left, right, waiting),
        Matching::Entries(left, right) => match_entries(left, right, waiting),
    }
}

fn match_values<'v, S: PartialEq>(
    left: &'v InputValue<S>,
    right: &'v InputValue<S>,
) -> Matching<'v, S>
    ensures { is_match S.eq result ≡ same_value S.eq left.now right.now }
{
    match (left, right) {
        (InputValue::Null, InputValue::Null) => Matching::Answer(true),
        (InputValue::Scalar(a), InputValue::Scalar(b)) => Matching::Answer(a == b),
        (InputValue::Enum(a), InputValue::Enum(b)) => Matching::Answer(a == b),
        (InputValue::Variable(a), InputValue::Variable(b)) => Matching::Answer(a == b),
        (InputValue::List(xs), InputValue::List(ys)) => {
            Matching::Items(xs.as_slice(), ys.as_slice())
        }
        (InputValue::Object(xs), InputValue::Object(ys)) => {
            Matching::Entries(xs.as_slice(), ys.as_slice())
        }
        _ => Matching::Answer(false),
    }
}

fn match_items<'v, S: PartialEq>(
    left: &'v [Spanning<InputValue<S>>],
    right: &'v [Spanning<InputValue<S>>],
    waiting: &mut Vec<Matching<'v, S>>,
) -> Result<bool, AllocError>
    ensures { IfOk result (λ b. (b && list_all (is_match S.eq) waiting.new.items)
        ≡ (pointwise (same_item (same_value S.eq)) left.now right.now
        && list_all (is_match S.eq) waiting.old.items)) }
{
    let Some((x, xs)) = left.split_first() else {
        return Ok(right.is_empty());
    };
    let Some((y, ys)) = right.split_first() else {
        return Ok(false);
    };
    if !spans_same(&x.span, &y.span) {
        return Ok(false);
    }
    waiting.push(Matching::Items(xs, ys))?;
    waiting.push(match_values(&x.item, &y.item))?;
    Ok(true)
}

fn match_entries<'v, S: PartialEq>(
    left: &'v [(Spanning<String>, Spanning<InputValue<S>>)],
    right: &'v [(Spanning<String>, Spanning<InputValue<S>>)],
    waiting: &mut Vec<Matching<'v, S>>,
) -> Result<bool, AllocError>
    ensures { IfOk result (λ b. (b && list_all (is_match S.eq) waiting.new.items)
        ≡ (pointwise (same_entry (same_value S.eq)) left.now right.now
        && list_all (is_match S.eq) waiting.old.items)) }
{
    let Some((x, xs)) = left.split_first() else {
        return Ok(right.is_empty());
    };
    let Some((y, ys)) = right.split_first() else {
        return Ok(false);
    };
    if !places_same(x, y) {
        return Ok(false);
    }
    waiting.push(Matching::Entries(xs, ys))?;
    waiting.push(match_values(&x.1.item, &y.1.item))?;
    Ok(true)
}

#[tactic(auto, unfolding(crate::specs::ValuesSame::same_span))]
fn spans_same(x: &Span, y: &Span) -> bool
    ensures { result ≡ same_span x.now y.now }
{
    x == y
}

// Whether two entries are equal but for their values.
fn places_same<S>(
    x: &(Spanning<String>, Spanning<InputValue<S>>),
    y: &(Spanning<String>, Spanning<InputValue<S>>),
) -> bool
    ensures { result ≡ same_place x.now y.now }
{
    if x.0.item != y.0.item {
        return false;
    }
    if !spans_same(&x.0.span, &y.0.span) {
        return false;
    }
    spans_same(&x.1.span, &y.1.span)
}

#[cycle(values_same)]
fn values_same<S: PartialEq>(left: &InputValue<S>, right: &InputValue<S>) -> bool
    ensures { result ≡ same_value S.eq left.now right.now }
{
    match (left, right) {
        (InputValue::Null, InputValue::Null) => true,
        (InputValue::Scalar(a), InputValue::Scalar(b)) => a == b,
        (InputValue::Enum(a), InputValue::Enum(b)) => a == b,
        (InputValue::Variable(a), InputValue::Variable(b)) => a == b,
        (InputValue::List(xs), InputValue::List(ys)) => items_same(xs.as_slice(), ys.as_slice()),
        (InputValue::Object(xs), InputValue::Object(ys)) => {
            entries_same(xs.as_slice(), ys.as_slice())
        }
        _ => false,
    }
}

#[cycle(values_same)]
fn items_same<S: PartialEq>(
    left: &[Spanning<InputValue<S>>],
    right: &[Spanning<InputValue<S>>],
) -> bool
    ensures { result ≡ pointwise (same_item (same_value S.eq)) left.now right.now }
{
    if left.len() != right.len() {
        return false;
    }
    for (i, x) in left.iter().enumerate() {
        let y = &right[i];
        if !spans_same(&x.span, &y.span) {
            return false;
        }
        if !values_same(&x.item, &y.item) {
            return false;
        }
    }
    true
}

#[cycle(values_same)]
fn entries_same<S: PartialEq>(
    left: &[(Spanning<String>, Spanning<InputValue<S>>)],
    right: &[(Spanning<String>, Spanning<InputValue<S>>)],
) -> bool
    ensures { result ≡ pointwise (same_entry (same_value S.eq)) left.now right.now }
{
    if left.len() != right.len() {
        return false;
    }
    for (i, x) in left.iter().enumerate() {
        let y = &right[i];
        if !places_same(x, y) {
            return false;
        }
        if !values_same(&x.1.item, &y.1.item) {
            return false;
        }
    }
    true
}
