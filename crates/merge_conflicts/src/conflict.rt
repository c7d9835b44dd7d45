//! The error of a conflict.
ghost use Rattle.std.specs.Prelude.{◌≡◌, IfOk, map};
ghost use Rattle.merge_field_pairs.specs.Entries.{plain};
ghost use Rattle.merge_conflicts.specs.Telling.{IsToldOf, plain_conflict};
ghost use Rattle.merge_conflicts.specs.Texts.{Told, error_of};

use crate::account::{add_name, add_text, no_account};
use crate::parts::Part;
use crate::reasons::{add_why, response_at};
use language_types::error::OutOfMemory;
use language_types::position::SourcePosition;
use language_values::scalar::ScalarValue;
use merge_field_pairs::entry::Entry;
use schema::model::SchemaTypeOf;
use std::alloc::Global;

/// A conflict: the message of its error, and the positions of its fields (0-based line, column and index).
#[derive(Drop)]
pub struct Conflict {
    pub message: String,
    pub places: Vec<SourcePosition>,
}

/// The error of a conflict, with all that was found below it.
///
/// For a part that is not a conflict of these fields, some error is returned.
///
/// # Errors
///
/// Out of memory.
pub fn conflict_of<'a, S: ScalarValue, C>(
    alloc: Global,
    schema: &SchemaTypeOf<S, C>,
    fields: &[Entry<'a, S, C>],
    part: &Part<'_>,
) -> Result<Conflict, OutOfMemory>
    ensures { (t : Told) → IsToldOf S.eq schema.now (map plain fields.now) part.now t
        → IfOk result (λ c. plain_conflict c ≡ error_of t) }
{
    let mut account = no_account(alloc);
    let name = response_at(fields, part.first);
    add_name(&mut account, "Fields \"", name, "\" conflict because ")?;
    add_why(alloc, schema, fields, part, &mut account)?;
    add_text(
        &mut account,
        ". Use different aliases on the fields to fetch both if this was intentional",
    )?;
    let mut places = account.lefts;
    places.extend_from_slice(account.rights.as_slice())?;
    Ok(Conflict {
        message: account.text,
        places,
    })
}
