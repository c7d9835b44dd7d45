//! The places of the definitions of a document, by the numbers of their names.
ghost use Rattle.std.specs.Prelude.{◌≡◌, [], ℕ, IfOk, OnOk, length};
ghost use Rattle.operation_scopes.specs.Places.{numbered_places, AddsAt};

use std::alloc::{AllocError, Global};

/// This many empty lists of places, which own no memory.
///
/// # Errors
///
/// Out of memory.
pub fn empty_lists(alloc: Global, count: usize) -> Result<Vec<Vec<usize>>, AllocError>
    ensures len { IfOk result (λ v. length v.items ≡ count) }
    ensures empty { IfOk result (λ v. (k : ℕ) → numbered_places v.items k ≡ []) }
{
    let mut lists = Vec::with_capacity(alloc, count)?;
    for _number in 0..count {
        lists.push(Vec::new(alloc))?;
    }
    Ok(lists)
}

/// The places in the list of a number, ascending; the empty list for a number past the last.
pub fn numbered_places(lists: &[Vec<usize>], number: usize) -> &[usize]
    ensures { result.now ≡ numbered_places lists.now number }
{
    match lists.get(number) {
        Some(found) => found.as_slice(),
        None => &[],
    }
}

/// Appends a place to the list of a number, if there is one.
///
/// # Errors
///
/// Out of memory.
pub fn add_numbered(
    lists: &mut Vec<Vec<usize>>,
    number: usize,
    place: usize,
) -> Result<(), AllocError>
    ensures { OnOk result (AddsAt number place lists.old.items lists.new.items) }
{
    if number < lists.len() {
        lists[number].push(place)?;
    }
    Ok(())
}
