//! The entries of an object, by key.
ghost use Rattle.std.specs.Prelude.{◌≡◌, IfOk};
ghost use Rattle.variable_values.specs.Entries.{HasPlaces, place_in};

use language::error::OutOfMemory;
use language::position::Spanning;
use language::value::InputValue;
use std::alloc::Global;
use std::collections::BTreeMap;

/// Finds the index of the last entry of each key of an object, whose value `to_object_value` takes.
///
/// # Errors
///
/// Out of memory.
pub fn last_places<'v, S>(
    alloc: Global,
    entries: &'v [(Spanning<String>, Spanning<InputValue<S>>)],
) -> Result<BTreeMap<&'v str, usize>, OutOfMemory>
    ensures { IfOk result (λ places. HasPlaces places entries.now) }
{
    let mut places = BTreeMap::new(alloc);
    for (i, entry) in entries.iter().enumerate() {
        places.insert(entry.0.item.as_str(), i)?;
    }
    Ok(places)
}

/// The index of the last entry of a key, if there is one.
pub fn place_of(places: &BTreeMap<&str, usize>, key: &str) -> Option<usize>
    ensures { result ≡ place_in places.now key.now }
{
    places.get(key).copied()
}
