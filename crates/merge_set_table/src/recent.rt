//! Names that were numbered a short while ago, so that most names need no look at the map.
ghost use Rattle.std.specs.Prelude.{◌≡◌, ◌<◌, OnOk, length};
ghost use Rattle.merge_set_table.specs.Recent.{number_in_slot, ForgetsNames, KeepsName};

use name_tables::slots::slot_count;
use std::alloc::AllocError;

/// The least number of names for which there are slots.
const FEW: usize = 16;

/// From this number of names on, there are no more slots.
const MANY: usize = 1 << 18;

/// A name and its number.
#[derive(Clone, Copy, Debug, Drop)]
pub struct RecentName<'a> {
    pub name: &'a str,
    pub number: usize,
}

/// Makes more slots than this many names, where there are not. The names in the slots are forgotten then.
///
/// # Errors
///
/// Out of memory. The names in the slots may be forgotten.
pub fn make_slots(recent: &mut Vec<Option<RecentName<'_>>>, names: usize) -> Result<(), AllocError>
    ensures some { OnOk result (0 < length recent.new.items) }
    ensures forgets { ForgetsNames recent.old.items recent.new.items }
{
    let names = names.min(MANY);
    if names < recent.len() {
        return Ok(());
    }
    recent.clear();
    recent.resize(slot_count(2 * names.max(FEW)), None)
}

/// The number of a name, where it is the one in the slot.
pub fn recent_number(recent: &[Option<RecentName<'_>>], slot: usize, name: &str) -> Option<usize>
    ensures { result ≡ number_in_slot recent.now slot name.now }
{
    let kept = (*recent.get(slot)?)?;
    if kept.name == name {
        Some(kept.number)
    } else {
        None
    }
}

/// Puts a name into its slot, in place of the one there.
pub fn keep_name<'a>(
    recent: &mut Vec<Option<RecentName<'a>>>,
    slot: usize,
    name: &'a str,
    number: usize,
)
    requires { slot < length recent.old.items }
    ensures { KeepsName slot name.now number recent.old.items recent.new.items }
{
    recent[slot] = Some(RecentName { name, number });
}
