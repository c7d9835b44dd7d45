//! The slots of the types of a schema: a look-up by name looks there before it asks the map.
ghost use Rattle.std.specs.Prelude.{◌≡◌, ◌<◌, ℕ, IfErr, IfOk, Some, length, set};

use crate::error::SchemaError;
use indexmap::IndexMap;
use meta::kinds::MetaTypeOf;
use name_tables::slots::{slot_count, slot_of};
use std::alloc::Global;

/// For each slot the index of the last type whose name has this slot. Types that share a slot with a
/// later one are found by the map.
///
/// # Errors
///
/// Out of memory.
pub fn type_slots<S, C>(
    alloc: Global,
    types: &IndexMap<String, MetaTypeOf<S, C>>,
) -> Result<Vec<Option<usize>>, SchemaError>
    ensures some { IfOk result (λ v. 0 < length v.items) }
    ensures err { IfErr result (λ e. e ≡ SchemaError.OutOfMemory) }
{
    // a schema is made once, so more than two slots for each type are affordable
    let count = slot_count(types.len().saturating_mul(4));
    let mut slots = vec![in alloc; None; count]?;
    for (place, name) in types.keys().enumerate() {
        note_place(&mut slots, name.as_str(), place);
    }
    Ok(slots)
}

// Writes an index into the slot of a name.
fn note_place(slots: &mut [Option<usize>], name: &str, place: usize)
    requires { 0 < length slots.old }
    ensures { (slot : ℕ) × (slot < length slots.old) × (slots.new ≡ set slots.old slot (Some place)) }
{
    let slot = slot_of(name, slots.len());
    slots[slot] = Some(place);
}
