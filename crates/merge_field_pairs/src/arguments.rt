//! Whether two fields are given the same arguments.
ghost use Rattle.std.specs.Prelude.{◌≡◌, IfOk, IsOk, true};
ghost use Rattle.std.specs.Bool.{OnTrue};
ghost use Rattle.std.specs.List.{All};
ghost use Rattle.merge_field_pairs.specs.SameArguments.{is_given, are_given, same_arguments};
ghost use Rattle.merge_field_pairs.specs.SimpleArguments.{IsSimple, AreSimple};

use crate::equal_values::are_plainly_equal;
use language::position::Spanning;
use language::scalar::ScalarValue;
use language::tree::Arguments;
use language::value::InputValue;
use std::alloc::AllocError;

// As deep as values of arguments are compared by a recursion.
const LEVELS: u32 = 32;

/// Whether neither has a list, or both have one that gives the same.
///
/// # Errors
///
/// Out of memory, and only where a value on the left is a list or an object.
pub fn have_same_arguments<S: ScalarValue>(
    left: &Option<Spanning<Arguments<'_, S>>>,
    right: &Option<Spanning<Arguments<'_, S>>>,
) -> Result<bool, AllocError>
    ensures value { IfOk result (λ b. b ≡ same_arguments S.eq left.now right.now) }
    ensures succeeds { AreSimple left.now → IsOk result }
{
    match (left, right) {
        (None, None) => Ok(true),
        (Some(l), Some(r)) => give_the_same(&l.item, &r.item),
        _ => Ok(false),
    }
}

/// Whether it is plain that each gives what the other gives. Where a value is a list or an object, `false` says
/// nothing.
pub fn agree_either_way<S: ScalarValue>(
    left: &Option<Spanning<Arguments<'_, S>>>,
    right: &Option<Spanning<Arguments<'_, S>>>,
) -> bool
    ensures forth { OnTrue result (same_arguments S.eq left.now right.now ≡ true) }
    ensures back { OnTrue result (same_arguments S.eq right.now left.now ≡ true) }
    ensures found { AreSimple left.now → AreSimple right.now → same_arguments S.eq left.now right.now ≡ true
        → same_arguments S.eq right.now left.now ≡ true → result ≡ true }
{
    if left.is_none() && right.is_none() {
        return true;
    }
    are_plainly_the_same(left, right) && are_plainly_the_same(right, left)
}

// Whether they are the same, where that is plain.
fn are_plainly_the_same<S: ScalarValue>(
    left: &Option<Spanning<Arguments<'_, S>>>,
    right: &Option<Spanning<Arguments<'_, S>>>,
) -> bool
    ensures value { OnTrue result (same_arguments S.eq left.now right.now ≡ true) }
    ensures found { AreSimple left.now → result ≡ same_arguments S.eq left.now right.now }
{
    match (left, right) {
        (None, None) => true,
        (Some(l), Some(r)) => are_plainly_given(&l.item, &r.item),
        _ => false,
    }
}

fn are_plainly_given<S: ScalarValue>(left: &Arguments<'_, S>, right: &Arguments<'_, S>) -> bool
    ensures value { OnTrue result (are_given S.eq left.now.items.items right.now.items.items ≡ true) }
    ensures found { All (λ p. IsSimple p.1.item) left.now.items.items
        → result ≡ are_given S.eq left.now.items.items right.now.items.items }
{
    if left.len() != right.len() {
        return false;
    }
    for (name, value) in &left.items {
        if !is_plainly_given_by(right, name.item, &value.item) {
            return false;
        }
    }
    true
}

fn is_plainly_given_by<S: ScalarValue>(
    arguments: &Arguments<'_, S>,
    name: &str,
    value: &InputValue<S>,
) -> bool
    ensures value { OnTrue result (is_given S.eq arguments.now.items.items name.now value.now ≡ true) }
    ensures found { IsSimple value.now → result ≡ is_given S.eq arguments.now.items.items name.now value.now }
{
    match arguments.get(name) {
        Some(other) => are_plainly_equal(value, &other.item, LEVELS),
        None => false,
    }
}

fn give_the_same<S: ScalarValue>(
    left: &Arguments<'_, S>,
    right: &Arguments<'_, S>,
) -> Result<bool, AllocError>
    ensures value { IfOk result (λ b. b ≡ are_given S.eq left.now.items.items right.now.items.items) }
    ensures succeeds { All (λ p. IsSimple p.1.item) left.now.items.items → IsOk result }
{
    if left.len() != right.len() {
        return Ok(false);
    }
    for (name, value) in &left.items {
        let is_given = is_given_by(right, name.item, &value.item)?;
        if !is_given {
            return Ok(false);
        }
    }
    Ok(true)
}

fn is_given_by<S: ScalarValue>(
    arguments: &Arguments<'_, S>,
    name: &str,
    value: &InputValue<S>,
) -> Result<bool, AllocError>
    ensures value { IfOk result (λ b. b ≡ is_given S.eq arguments.now.items.items name.now value.now) }
    ensures succeeds { IsSimple value.now → IsOk result }
{
    match arguments.get(name) {
        Some(other) => value.try_unlocated_eq(&other.item),
        None => Ok(false),
    }
}
