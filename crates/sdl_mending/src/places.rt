//! Where reasons stand.
ghost use Rattle.std.specs.Prelude.{◌≡◌, ◌++◌, IfOk, OnOk};
ghost use Rattle.std.specs.List.Sorted.{IsNonDecreasingBy, IsPermutation};
ghost use Rattle.sdl_mending.specs.Touched.{has_reason, places, standing};

use language_types::error::OutOfMemory;
use language_types::position::Span;
use sdl_index::error::{PlacedFault, SchemaFault};
use std::alloc::Global;

/// The indices of the places where reasons stand, in ascending order.
///
/// # Errors
///
/// Out of memory.
pub(crate) fn places_of(
    alloc: Global,
    reasons: &[PlacedFault<'_>],
) -> Result<Vec<usize>, OutOfMemory>
    ensures all { IfOk result (λ v. IsPermutation (places reasons.now) v.items) }
    ensures in_order { IfOk result (λ v. IsNonDecreasingBy (λ i. i) v.items) }
{
    let mut found = Vec::new(alloc);
    add_places(reasons, &mut found)?;
    found.sort()?;
    Ok(found)
}

fn add_places(reasons: &[PlacedFault<'_>], found: &mut Vec<usize>) -> Result<(), OutOfMemory>
    ensures { OnOk result (found.new.items ≡ found.old.items ++ places reasons.now) }
{
    for reason in reasons {
        add_place(reason, found)?;
    }
    Ok(())
}

// That there is no query root stands nowhere.
fn add_place(reason: &PlacedFault<'_>, found: &mut Vec<usize>) -> Result<(), OutOfMemory>
    ensures { OnOk result (found.new.items ≡ found.old.items ++ standing reason.now) }
{
    if !matches!(reason.fault, SchemaFault::NoQueryRoot) {
        found.push(reason.position.index())?;
    }
    Ok(())
}

/// Whether one of these places, which ascend, is in a part of the text.
pub(crate) fn has_reason(places: &[usize], span: Span) -> bool
    requires { IsNonDecreasingBy (λ i. i) places.now }
    ensures { result ≡ has_reason places.now span }
{
    let start = span.start.index();
    let first = places.partition_point(|place| *place < start);
    match places.get(first) {
        Some(place) => *place < span.end.index(),
        None => false,
    }
}
