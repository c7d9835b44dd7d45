//! Keys that no input field has.
ghost use Rattle.std.specs.Prelude.{◌≡◌, [], ◌∷◌, ◌++◌, ℕ, List, IfOk, OnOk, if◌then◌else◌, map, true};
ghost use Rattle.std.specs.Str.{bytes_eq};
ghost use Rattle.variable_values.specs.NameSet.{has_name};
ghost use Rattle.schema.specs.Possible.{is_among};
ghost use Rattle.variable_values.specs.Faults.{unknown_field};
ghost use Rattle.variable_values.specs.Keys.{field_names, keys_of, unknown_keys};
ghost use Rattle.variable_values.specs.Messages.{texts_of, told_after};
ghost use Rattle.variable_values.specs.Places.{before};

use crate::messages::add;
use crate::place::Place;
use crate::texts::unknown_message;
use language::error::OutOfMemory;
use language::position::Spanning;
use language::value::InputValue;
use meta::arguments::Argument;
use std::alloc::Global;
use std::collections::BTreeSet;

/// Reports once each key of an object that no field has.
///
/// # Errors
///
/// Out of memory. Some messages may have been added.
pub fn add_unknown_keys<S>(
    alloc: Global,
    fields: &[Argument<S>],
    entries: &[(Spanning<String>, Spanning<InputValue<S>>)],
    place: &Place<'_>,
    messages: &mut Vec<String>,
) -> Result<(), OutOfMemory>
    ensures { OnOk result (texts_of messages.new ≡ texts_of messages.old
        ++ map (told_after (before place.now))
        (map unknown_field (unknown_keys (field_names fields.now) (keys_of entries.now)))) }
{
    let mut noted = names_of(alloc, fields)?;
    for (key, _) in entries {
        note_key(alloc, key.item.as_str(), place, &mut noted, messages)?;
    }
    Ok(())
}

// Reports a key that is not noted yet, and notes it.
#[tactic(auto, using(crate::proofs::KeyLaws::has_more))]
fn note_key<'k>(
    alloc: Global,
    key: &'k str,
    place: &Place<'_>,
    noted: &mut BTreeSet<&'k str>,
    messages: &mut Vec<String>,
) -> Result<(), OutOfMemory>
    ensures told { OnOk result (texts_of messages.new ≡ texts_of messages.old
        ++ (if has_name noted.old key.now then [] else told_after (before place.now) (unknown_field key.now) ∷ [])) }
    ensures noted { OnOk result ((n : List ℕ) → has_name noted.new n
        ≡ (if bytes_eq key.now n then true else has_name noted.old n)) }
{
    if noted.insert(key)? {
        add(unknown_message(alloc, place, key)?, messages)
    } else {
        Ok(())
    }
}

// The names of the fields, as a set, since strangers choose the keys that are looked up in it.
fn names_of<S>(alloc: Global, fields: &[Argument<S>]) -> Result<BTreeSet<&str>, OutOfMemory>
    ensures { IfOk result (λ names. (n : List ℕ) → has_name names n ≡ is_among (field_names fields.now) n) }
{
    let mut names = BTreeSet::new(alloc);
    for field in fields {
        names.insert(field.name.as_str())?;
    }
    Ok(names)
}
