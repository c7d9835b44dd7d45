//! Fields by number: what stands between two of them.
ghost use Rattle.std.specs.Prelude.{◌≡◌, IfOk, IfSome, IsOk, IsTrue, map, option_copied, option_map, slice_get};
ghost use Rattle.std.specs.Bool.{OnTrue};
ghost use Rattle.merge_field_pairs.specs.Alike.{AreAlikeBetween, AreAlikeAt};
ghost use Rattle.merge_field_pairs.specs.Entries.{plain};
ghost use Rattle.merge_field_pairs.specs.Kinds.{IsKinBetween, IsKinAt};
ghost use Rattle.merge_field_pairs.specs.Numbered.{exclusive_between, exclusive_at, direct_between, direct_at};
ghost use Rattle.merge_field_pairs.specs.Objects.{object_number_at};
ghost use Rattle.merge_field_pairs.specs.SimpleArguments.{HasSimpleArguments};

use crate::alike::are_alike;
use crate::direct::{DirectReason, direct_reason};
use crate::entry::{Entry, are_exclusive};
use crate::kinds::are_kin;
use crate::objects::object_number;
use language::scalar::ScalarValue;
use schema::model::SchemaTypeOf;
use std::alloc::AllocError;

/// Whether no response contains both fields. For a number that is no field's the result is `exclusive`.
pub fn are_exclusive_at<S, C>(
    fields: &[Entry<'_, S, C>],
    exclusive: bool,
    left: usize,
    right: usize,
) -> bool
    ensures { result ≡ exclusive_at (map plain fields.now) exclusive left right }
{
    are_exclusive_if_there(exclusive, field_at(fields, left), field_at(fields, right))
}

/// Why two fields can't be merged. For a number that is no field's there is no reason.
///
/// # Errors
///
/// Out of memory, and only where an argument of the field on the left is a list or an object.
pub fn direct_reason_at<S: ScalarValue, C>(
    schema: &SchemaTypeOf<S, C>,
    fields: &[Entry<'_, S, C>],
    exclusive: bool,
    left: usize,
    right: usize,
) -> Result<Option<DirectReason>, AllocError>
    ensures value { IfOk result (λ r. r ≡ direct_at S.eq schema.now (map plain fields.now) exclusive left right) }
    ensures succeeds { IfSome (slice_get (map plain fields.now) left) HasSimpleArguments → IsOk result }
{
    direct_reason_if_there(
        schema,
        exclusive,
        field_at(fields, left),
        field_at(fields, right),
    )
}

/// Whether two fields are plainly alike. A number that is no field's is like no other. Where an argument is a list or
/// an object, `false` says nothing.
pub fn are_alike_at<S: ScalarValue, C>(
    fields: &[Entry<'_, S, C>],
    left: usize,
    right: usize,
) -> bool
    ensures value { OnTrue result (AreAlikeAt S.eq (map plain fields.now) left right) }
    ensures found { IfSome (slice_get (map plain fields.now) left) HasSimpleArguments
        → IfSome (slice_get (map plain fields.now) right) HasSimpleArguments
        → AreAlikeAt S.eq (map plain fields.now) left right → IsTrue result }
{
    are_alike_if_there(field_at(fields, left), field_at(fields, right))
}

/// Whether it is plain that two fields are of one kind. A number that is no field's is of no kind. Where an argument is
/// a list or an object, `false` says nothing.
pub fn are_kin_at<S: ScalarValue, C>(fields: &[Entry<'_, S, C>], left: usize, right: usize) -> bool
    ensures value { OnTrue result (IsKinAt S.eq (map plain fields.now) left right) }
    ensures found { IfSome (slice_get (map plain fields.now) left) HasSimpleArguments
        → IfSome (slice_get (map plain fields.now) right) HasSimpleArguments
        → IsKinAt S.eq (map plain fields.now) left right → IsTrue result }
{
    are_kin_if_there(field_at(fields, left), field_at(fields, right))
}

/// A number for the object type around a field, from 1 on; 0 where there is none, or no such field. No response contains
/// two fields that have different numbers from 1 on.
pub fn object_number_at<S, C>(fields: &[Entry<'_, S, C>], number: usize) -> usize
    ensures { result ≡ object_number_at (map plain fields.now) number }
{
    match field_at(fields, number) {
        Some(field) => object_number(field),
        None => 0,
    }
}

fn field_at<'e, 'a, S, C>(
    fields: &'e [Entry<'a, S, C>],
    number: usize,
) -> Option<&'e Entry<'a, S, C>>
    ensures { option_copied result ≡ slice_get fields.now number }
{
    fields.get(number)
}

fn are_exclusive_if_there<S, C>(
    exclusive: bool,
    left: Option<&Entry<'_, S, C>>,
    right: Option<&Entry<'_, S, C>>,
) -> bool
    ensures { result
        ≡ exclusive_between exclusive (option_map plain (option_copied left.entry))
        (option_map plain (option_copied right.entry)) }
{
    match (left, right) {
        (Some(l), Some(r)) => are_exclusive(exclusive, l, r),
        _ => exclusive,
    }
}

fn direct_reason_if_there<S: ScalarValue, C>(
    schema: &SchemaTypeOf<S, C>,
    exclusive: bool,
    left: Option<&Entry<'_, S, C>>,
    right: Option<&Entry<'_, S, C>>,
) -> Result<Option<DirectReason>, AllocError>
    ensures value { IfOk result
        (λ r. r ≡ direct_between S.eq schema.now exclusive (option_map plain (option_copied left.entry))
        (option_map plain (option_copied right.entry))) }
    ensures succeeds { IfSome (option_map plain (option_copied left.entry)) HasSimpleArguments → IsOk result }
{
    match (left, right) {
        (Some(l), Some(r)) => direct_reason(schema, exclusive, l, r),
        _ => Ok(None),
    }
}

fn are_alike_if_there<S: ScalarValue, C>(
    left: Option<&Entry<'_, S, C>>,
    right: Option<&Entry<'_, S, C>>,
) -> bool
    ensures value { OnTrue result
        (AreAlikeBetween S.eq (option_map plain (option_copied left.entry))
        (option_map plain (option_copied right.entry))) }
    ensures found { IfSome (option_map plain (option_copied left.entry)) HasSimpleArguments
        → IfSome (option_map plain (option_copied right.entry)) HasSimpleArguments
        → AreAlikeBetween S.eq (option_map plain (option_copied left.entry))
        (option_map plain (option_copied right.entry)) → IsTrue result }
{
    match (left, right) {
        (Some(l), Some(r)) => are_alike(l, r),
        _ => false,
    }
}

fn are_kin_if_there<S: ScalarValue, C>(
    left: Option<&Entry<'_, S, C>>,
    right: Option<&Entry<'_, S, C>>,
) -> bool
    ensures value { OnTrue result
        (IsKinBetween S.eq (option_map plain (option_copied left.entry))
        (option_map plain (option_copied right.entry))) }
    ensures found { IfSome (option_map plain (option_copied left.entry)) HasSimpleArguments
        → IfSome (option_map plain (option_copied right.entry)) HasSimpleArguments
        → IsKinBetween S.eq (option_map plain (option_copied left.entry))
        (option_map plain (option_copied right.entry)) → IsTrue result }
{
    match (left, right) {
        (Some(l), Some(r)) => are_kin(l, r),
        _ => false,
    }
}
