//! What is written of conflicts so far.
ghost use Rattle.std.specs.Prelude.{◌≡◌, ◌++◌, ◌∷◌, [], OnOk, codes, string_bytes};
ghost use Rattle.merge_field_pairs.specs.Entries.{plain};
ghost use Rattle.merge_conflicts.specs.Telling.{Adds};
ghost use Rattle.merge_conflicts.specs.Texts.{place_of, reason_between};

use language_types::error::OutOfMemory;
use language_types::position::SourcePosition;
use language_values::scalar::ScalarValue;
use merge_field_pairs::direct::direct_reason;
use merge_field_pairs::entry::Entry;
use merge_field_pairs::texts::reason_text;
use schema::model::SchemaTypeOf;
use std::alloc::Global;

/// A text, and the places of the first fields and of the second, each with those below them.
#[derive(Drop)]
pub struct Account {
    pub text: String,
    pub lefts: Vec<SourcePosition>,
    pub rights: Vec<SourcePosition>,
}

/// An account of nothing.
pub fn no_account(alloc: Global) -> Account
    ensures text { string_bytes result.text ≡ [] }
    ensures lefts { result.lefts.items ≡ [] }
    ensures rights { result.rights.items ≡ [] }
{
    Account {
        text: String::new(alloc),
        lefts: Vec::new(alloc),
        rights: Vec::new(alloc),
    }
}

/// Adds a text.
///
/// # Errors
///
/// Out of memory.
pub fn add_text(account: &mut Account, text: &str) -> Result<(), OutOfMemory>
    ensures { OnOk result (Adds text.now [] [] account.old account.new) }
{
    account.text.push_str(text)?;
    Ok(())
}

/// Adds a response name between two texts.
///
/// # Errors
///
/// Out of memory. Part of it may have been added.
pub fn add_name(
    account: &mut Account,
    before: &str,
    name: &str,
    after: &str,
) -> Result<(), OutOfMemory>
    ensures { OnOk result (Adds (before.now ++ (name.now ++ after.now)) [] [] account.old account.new) }
{
    account.text.push_str(before)?;
    account.text.push_str(name)?;
    account.text.push_str(after)?;
    Ok(())
}

/// Adds the places of two fields.
///
/// # Errors
///
/// Out of memory. Part of it may have been added.
pub fn add_places<S, C>(
    account: &mut Account,
    first: &Entry<'_, S, C>,
    second: &Entry<'_, S, C>,
) -> Result<(), OutOfMemory>
    ensures { OnOk result (Adds [] (place_of (plain first.now) ∷ []) (place_of (plain second.now)
        ∷ []) account.old account.new) }
{
    account.lefts.push(first.field.span.start)?;
    account.rights.push(second.field.span.start)?;
    Ok(())
}

/// Adds why two fields conflict by themselves, with their places.
///
/// # Errors
///
/// Out of memory. Part of it may have been added.
pub fn add_reason<S: ScalarValue, C>(
    alloc: Global,
    schema: &SchemaTypeOf<S, C>,
    flag: bool,
    first: &Entry<'_, S, C>,
    second: &Entry<'_, S, C>,
    account: &mut Account,
) -> Result<(), OutOfMemory>
    ensures { OnOk result (Adds (reason_between S.eq schema.now flag (plain first.now) (plain second.now))
        (place_of (plain first.now) ∷ []) (place_of (plain second.now) ∷ []) account.old account.new) }
{
    add_places(account, first, second)?;
    match direct_reason(schema, flag, first, second)? {
        Some(reason) => {
            let text = reason_text(alloc, reason, first, second)?;
            add_text(account, text.as_str())
        }
        None => Ok(()),
    }
}
