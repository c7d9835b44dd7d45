//! Why two fields can't be merged, whatever stands below them.
ghost use Rattle.std.specs.Prelude.{◌≡◌, IfOk, IsOk, IsSome, None, true, false, option_copied};
ghost use Rattle.merge_field_pairs.specs.Entries.{plain, IsTidy};
ghost use Rattle.merge_field_pairs.specs.DirectReason.{direct_of, reason_under, do_known_types_conflict};
ghost use Rattle.merge_field_pairs.specs.SimpleArguments.{HasSimpleArguments};

use crate::arguments::have_same_arguments;
use crate::entry::{Entry, are_exclusive};
use crate::type_conflict::are_in_conflict;
use language::scalar::ScalarValue;
use meta::Field as FieldMeta;
use schema::model::SchemaTypeOf;
use std::alloc::AllocError;

/// Why two fields of one response name can't be merged, whatever stands below them.
#[derive(Clone, Copy, Debug, PartialEq, Eq)]
pub enum DirectReason {
    DifferentNames,
    DifferentArguments,
    DifferentTypes,
}

/// The first reason that holds, where `exclusive` says that no response contains the surroundings of both fields.
///
/// Where neither field repeats an argument, nor a key in one, the order of the two does not matter, and a field has no
/// conflict with itself. Two fields without a conflict have none where their surroundings exclude each other.
///
/// # Errors
///
/// Out of memory, and only where an argument of `left` is a list or an object.
pub fn direct_reason<S: ScalarValue, C>(
    schema: &SchemaTypeOf<S, C>,
    exclusive: bool,
    left: &Entry<'_, S, C>,
    right: &Entry<'_, S, C>,
) -> Result<Option<DirectReason>, AllocError>
    ensures value { IfOk result (λ r. r ≡ direct_of S.eq schema.now exclusive (plain left.now) (plain right.now)) }
    ensures either_order { IsTidy (plain left.now) → IsTidy (plain right.now)
        → IfOk result (λ r. r ≡ direct_of S.eq schema.now exclusive (plain right.now) (plain left.now)) }
    ensures itself { IsTidy (plain left.now) → plain left.now ≡ plain right.now → IfOk result (λ r. r ≡ None) }
    ensures less_where_exclusive { IfOk result (λ r. r ≡ None
        → direct_of S.eq schema.now true (plain left.now) (plain right.now) ≡ None) }
    ensures more_elsewhere { IfOk result (λ r. IsSome r
        → IsSome (direct_of S.eq schema.now false (plain left.now) (plain right.now))) }
    ensures succeeds { HasSimpleArguments (plain left.now) → IsOk result }
{
    first_reason(schema, are_exclusive(exclusive, left, right), left, right)
}

// Of two fields of which it is known whether they exclude each other.
fn first_reason<S: ScalarValue, C>(
    schema: &SchemaTypeOf<S, C>,
    exclusive: bool,
    left: &Entry<'_, S, C>,
    right: &Entry<'_, S, C>,
) -> Result<Option<DirectReason>, AllocError>
    ensures value { IfOk result (λ r. r ≡ reason_under S.eq schema.now exclusive (plain left.now) (plain right.now)) }
    ensures succeeds { HasSimpleArguments (plain left.now) → IsOk result }
{
    if !exclusive {
        let (l, r) = (left.field, right.field);
        if l.item.name.item != r.item.name.item {
            return Ok(Some(DirectReason::DifferentNames));
        }
        let are_same = have_same_arguments(&l.item.arguments, &r.item.arguments)?;
        if !are_same {
            return Ok(Some(DirectReason::DifferentArguments));
        }
    }
    if are_known_in_conflict(schema, left.metadata, right.metadata) {
        return Ok(Some(DirectReason::DifferentTypes));
    }
    Ok(None)
}

// Whether both types are known, and in conflict.
fn are_known_in_conflict<S, C>(
    schema: &SchemaTypeOf<S, C>,
    left: Option<&FieldMeta<S>>,
    right: Option<&FieldMeta<S>>,
) -> bool
    ensures { result ≡ do_known_types_conflict schema.now (option_copied left.entry) (option_copied right.entry) }
{
    match (left, right) {
        (Some(l), Some(r)) => are_in_conflict(schema, &l.field_type, &r.field_type),
        _ => false,
    }
}
