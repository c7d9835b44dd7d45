//! Names by number.
ghost use Rattle.std.specs.Prelude.{◌≡◌, ℕ, List, None, Some, OnOk, IfOk};
ghost use Rattle.merge_set_table.specs.NameMap.{number_at, KeepsNumbers, AreNumbersApart};
ghost use Rattle.merge_set_table.specs.Names.{number_in, KeepsNames, AreApart};

use crate::recent::{keep_name, make_slots, recent_number};
use crate::responses::ResponseNames;
use language::error::OutOfMemory;
use name_tables::slots::slot_of;
use std::alloc::Global;
use std::collections::BTreeMap;

/// No names.
pub fn no_names<'a>(alloc: Global) -> ResponseNames<'a>
    ensures { AreApart result }
{
    ResponseNames {
        map: BTreeMap::new(alloc),
        recent: Vec::new(alloc),
    }
}

/// The number of a name in a map.
pub fn number_of_name(map: &BTreeMap<&str, usize>, name: &str) -> Option<usize>
    ensures { result ≡ number_at map.now name.now }
{
    map.get(name).copied()
}

/// The number of a name in a map; a name without one gets the next.
///
/// # Errors
///
/// Out of memory. The numbers that were there are kept.
pub fn number_in_map<'a>(
    map: &mut BTreeMap<&'a str, usize>,
    name: &'a str,
) -> Result<usize, OutOfMemory>
    ensures numbered { IfOk result (λ k. number_at map.new name.now ≡ Some k) }
    ensures kept { KeepsNumbers map.old map.new }
    ensures apart { AreNumbersApart map.old → OnOk result (AreNumbersApart map.new) }
{
    match number_of_name(map, name) {
        Some(number) => Ok(number),
        None => {
            let next = map.len();
            map.insert(name, next)?;
            Ok(next)
        }
    }
}

/// The number of a name; a name without one gets the next.
///
/// In real documents the same names stand again and again, so the recent ones are tried before the map.
///
/// # Errors
///
/// Out of memory.
pub fn number_name<'a>(names: &mut ResponseNames<'a>, name: &'a str) -> Result<usize, OutOfMemory>
    ensures numbered { IfOk result (λ k. number_in names.new name.now ≡ Some k) }
    ensures kept { OnOk result (KeepsNames names.old names.new) }
    ensures apart { AreApart names.old → OnOk result (AreApart names.new) }
{
    make_slots(&mut names.recent, names.map.len())?;
    let slot = slot_of(name, names.recent.len());
    if let Some(number) = recent_number(names.recent.as_slice(), slot, name) {
        return Ok(number);
    }
    let number = number_in_map(&mut names.map, name)?;
    keep_name(&mut names.recent, slot, name, number);
    Ok(number)
}
