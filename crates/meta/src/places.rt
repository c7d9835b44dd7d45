//! Look-ups by name in long lists: by a hash of the name, and by binary search over indices that are sorted by name.
ghost use Rattle.std.specs.Prelude.{◌≡◌, ℕ, IfOk, Some, find, map, option_copied};
ghost use Rattle.std.specs.List.{All, Contains};
ghost use Rattle.std.specs.Str.{bytes_eq};
ghost use Rattle.meta.specs.Places.{AreAscending, ArePlaces, IsFirst, StandFirst, first_place, name_at};

use crate::named::{Named, first_named};
use language_types::error::OutOfMemory;
use name_tables::slots::{slot_count, slot_of};
use std::alloc::Global;

// The greatest number of items that are searched one by one: most names differ in length, which is seen at once.
const FEW: usize = 16;

/// Where the names of a list stand; nothing is kept of few.
#[derive(Drop)]
pub struct Places {
    // The indices of the items in the order of their names.
    order: Vec<usize>,
    // For each slot, by a hash, the index of the first item of a name that has this slot.
    slots: Vec<Option<usize>>,
}

/// Where the names of these items stand.
///
/// # Errors
///
/// Out of memory.
pub(crate) fn places_of<T: Named>(alloc: Global, items: &Vec<T>) -> Result<Places, OutOfMemory>
    ensures { IfOk result (ArePlaces (map T.name_of items.now.items)) }
{
    if items.len() <= FEW {
        return Ok(Places {
            order: Vec::new(alloc),
            slots: Vec::new(alloc),
        });
    }
    let order = places_by_name(alloc, items.as_slice())?;
    let slots = slots_of(alloc, items.as_slice(), order.as_slice())?;
    Ok(Places { order, slots })
}

/// The first item of this name, if there is one.
pub(crate) fn first_by_places<'t, T: Named>(
    items: &'t Vec<T>,
    places: &Places,
    name: &str,
) -> Option<&'t T>
    requires { ArePlaces (map T.name_of items.now.items) places.now }
    ensures { option_copied result ≡ find (λ x. bytes_eq (T.name_of x) name.now) items.now.items }
{
    if places.order.is_empty() {
        return first_named(items.as_slice(), name);
    }
    first_at(items.as_slice(), places, name)
}

// The first item of this name, by the places of all names.
fn first_at<'t, T: Named>(items: &'t [T], places: &Places, name: &str) -> Option<&'t T>
    requires ascending { AreAscending (map T.name_of items.now) places.now.order.items }
    requires first { StandFirst (map T.name_of items.now) places.now.order.items }
    requires slots { All (IsFirst (map T.name_of items.now)) places.now.slots.items }
    ensures { option_copied result ≡ find (λ x. bytes_eq (T.name_of x) name.now) items.now }
{
    let item = items.get(first_place(items, places, name)?)?;
    Some(item)
}

// The first index of this name, by its slot, and if another name has that, by the order.
fn first_place<T: Named>(items: &[T], places: &Places, name: &str) -> Option<usize>
    requires ascending { AreAscending (map T.name_of items.now) places.now.order.items }
    requires first { StandFirst (map T.name_of items.now) places.now.order.items }
    requires slots { All (IsFirst (map T.name_of items.now)) places.now.slots.items }
    ensures { result ≡ first_place name.now (map T.name_of items.now) }
{
    if let Some(place) = place_held(places.slots.as_slice(), name) {
        if name_of_place(items, place) == name {
            return Some(place);
        }
    }
    place_in_order(items, places.order.as_slice(), name)
}

// The index in the slot of a name, if there is one.
fn place_held(slots: &[Option<usize>], name: &str) -> Option<usize>
    ensures { (place : ℕ) → result ≡ Some place → Contains slots.now (Some place) }
{
    if slots.is_empty() {
        return None;
    }
    slots[slot_of(name, slots.len())]
}

// For each slot the index of the first item of the last name that has this slot.
fn slots_of<T: Named>(
    alloc: Global,
    items: &[T],
    order: &[usize],
) -> Result<Vec<Option<usize>>, OutOfMemory>
    requires ascending { AreAscending (map T.name_of items.now) order.now }
    requires first { StandFirst (map T.name_of items.now) order.now }
    ensures { IfOk result (λ v. All (IsFirst (map T.name_of items.now)) v.items) }
{
    let mut slots = vec![in alloc; None; slot_count(items.len())]?;
    for item in items {
        let slot = slot_of(item.name(), slots.len());
        slots[slot] = place_in_order(items, order, item.name());
    }
    Ok(slots)
}

// The indices of the items in the order of their names; those of one name stay in order.
fn places_by_name<T: Named>(alloc: Global, items: &[T]) -> Result<Vec<usize>, OutOfMemory>
    ensures ascending { IfOk result (λ v. AreAscending (map T.name_of items.now) v.items) }
    ensures first { IfOk result (λ v. StandFirst (map T.name_of items.now) v.items) }
{
    let mut places = all_places(alloc, items)?;
    places.sort_by(|left, right| name_of_place(items, *left).cmp(name_of_place(items, *right)))?;
    Ok(places)
}

// The first index of this name, by the indices of the items in the order of their names.
fn place_in_order<T: Named>(items: &[T], order: &[usize], name: &str) -> Option<usize>
    requires ascending { AreAscending (map T.name_of items.now) order.now }
    requires first { StandFirst (map T.name_of items.now) order.now }
    ensures { result ≡ first_place name.now (map T.name_of items.now) }
{
    let start = order.partition_point(|place| name_of_place(items, *place) < name);
    let place = *order.get(start)?;
    if name_of_place(items, place) == name {
        Some(place)
    } else {
        None
    }
}

// The indices of the items in their own order.
fn all_places<T: Named>(alloc: Global, items: &[T]) -> Result<Vec<usize>, OutOfMemory>
    ensures { IfOk result (λ v. StandFirst (map T.name_of items.now) v.items) }
{
    let mut places = Vec::with_capacity(alloc, items.len())?;
    for i in 0..items.len() {
        places.push(i)?;
    }
    Ok(places)
}

// The name of the item at an index, counted from 0.
fn name_of_place<T: Named>(items: &[T], place: usize) -> &str
    ensures { result.now ≡ name_at (map T.name_of items.now) place }
{
    match items.get(place) {
        Some(item) => item.name(),
        None => "",
    }
}
