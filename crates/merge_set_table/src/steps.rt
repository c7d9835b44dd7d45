//! The steps by which a table grows.
ghost use Rattle.std.specs.Prelude.{◌≡◌, ◌+◌, ℕ, OnOk, IfOk, length};
ghost use Rattle.merge_field_pairs.specs.Entries.{plain};
ghost use Rattle.merge_set_table.specs.Adding.{AddsSpread, BeginsPart, EndsPart, PushesField, OpensSet, StoresSet};
ghost use Rattle.merge_set_table.specs.Adding.{ClosesSet, IsEmptySet, IsSameTable};
ghost use Rattle.merge_set_table.specs.Nesting.{inner_measure, parts_measure};
ghost use Rattle.merge_set_table.specs.Known.{known_rank};

use crate::known::{KnownFragments, rank_of_name};
use crate::names::number_name;
use crate::once::each_once;
use crate::table::{NumberedSet, Table};
use language::error::OutOfMemory;
use merge_field_pairs::entry::Entry;
use merge_sets::node::{Entry as OwnField, InnerSet};
use std::alloc::Global;

/// An empty set, with room for `room` fields, so that its list seldom grows.
///
/// # Errors
///
/// Out of memory.
pub fn no_fields(alloc: Global, room: usize) -> Result<NumberedSet, OutOfMemory>
    ensures { IfOk result IsEmptySet }
{
    Ok(NumberedSet {
        own: Vec::with_capacity(alloc, room)?,
        spreads: Vec::new(alloc),
        inner: Vec::new(alloc),
    })
}

/// Numbers a field, and adds it to its set.
///
/// # Errors
///
/// Out of memory.
pub fn push_field<'a, S, C>(
    table: &mut Table<'a, S, C>,
    part: &mut NumberedSet,
    entry: Entry<'a, S, C>,
    below: Option<usize>,
) -> Result<(), OutOfMemory>
    ensures { OnOk result (PushesField (plain entry.entry) below part.old part.new table.old table.new) }
{
    let response = number_name(&mut table.responses, entry.response_name())?;
    let field = table.fields.len();
    table.fields.push(entry)?;
    part.own.push(OwnField {
        response,
        field,
        below,
    })?;
    Ok(())
}

/// Adds the number of the fragment of a name, where it is known.
///
/// # Errors
///
/// Out of memory.
pub fn add_spread(
    fragments: &KnownFragments<'_, '_>,
    name: &str,
    part: &mut NumberedSet,
) -> Result<(), OutOfMemory>
    ensures { OnOk result (AddsSpread (known_rank fragments.now name.now) part.old part.new) }
{
    if let Some(number) = rank_of_name(fragments, name) {
        part.spreads.push(number)?;
    }
    Ok(())
}

/// Begins the set of an inline fragment, which is a part of the set round it, and returns its place.
///
/// # Errors
///
/// Out of memory.
pub fn begin_part(part: &mut NumberedSet) -> Result<usize, OutOfMemory>
    ensures { IfOk result (λ place. BeginsPart place part.old part.new) }
{
    let place = part.inner.len();
    part.inner.push(InnerSet {
        outer: 0,
        first_field: part.own.len(),
        fields_end: 0,
        first_spread: part.spreads.len(),
        spreads_end: 0,
        next: 0,
    })?;
    Ok(place)
}

/// Ends the set of an inline fragment at its place.
pub fn end_part(place: usize, part: &mut NumberedSet)
    ensures { EndsPart place part.old part.new }
{
    if place >= part.inner.len() {
        return;
    }
    let begun = part.inner[place];
    part.inner[place] = InnerSet {
        outer: 0,
        first_field: begun.first_field,
        fields_end: part.own.len(),
        first_spread: begun.first_spread,
        spreads_end: part.spreads.len(),
        next: part.inner.len(),
    };
}

// Adds the inner sets of the set of a number. Its spreads begin at a place among all that are written.
fn add_parts(
    inner: &[InnerSet],
    number: usize,
    start: usize,
    all: &mut Vec<InnerSet>,
) -> Result<(), OutOfMemory>
    ensures count { OnOk result (length all.new.items ≡ length all.old.items + length inner.now) }
    ensures measure { OnOk result ((g : ℕ → ℕ → ℕ → ℕ) → inner_measure g all.new.items
        ≡ inner_measure g all.old.items + parts_measure (g number) inner.now) }
{
    for part in inner {
        all.push(InnerSet {
            outer: number,
            first_field: part.first_field,
            fields_end: part.fields_end,
            first_spread: start.saturating_add(part.first_spread),
            spreads_end: start.saturating_add(part.spreads_end),
            next: part.next,
        })?;
    }
    Ok(())
}

// Keeps the inner sets of a set that gets a number, with its spreads as they are written.
fn keep_parts<S, C>(
    inner: &[InnerSet],
    spreads: &[usize],
    number: usize,
    table: &mut Table<'_, S, C>,
) -> Result<(), OutOfMemory>
    ensures { let most = length inner.now + length spreads.now in
        OnOk result (IsSameTable number inner.now most table.old table.new) }
{
    if inner.is_empty() {
        return Ok(());
    }
    let start = table.written.len();
    table.written.extend_from_slice(spreads)?;
    add_parts(inner, number, start, &mut table.inner)?;
    Ok(())
}

/// Keeps a place in the order for a set that is begun, and returns that place.
///
/// # Errors
///
/// Out of memory.
pub fn open_set<S, C>(table: &mut Table<'_, S, C>) -> Result<usize, OutOfMemory>
    ensures { IfOk result (λ place. OpensSet place table.old table.new) }
{
    let place = table.order.len();
    table.order.push(0)?;
    Ok(place)
}

/// Stores a set, each fragment that it spreads once, and returns its number. It gets no place in the order.
///
/// # Errors
///
/// Out of memory.
pub fn store_set<S, C>(
    alloc: Global,
    part: NumberedSet,
    table: &mut Table<'_, S, C>,
) -> Result<usize, OutOfMemory>
    ensures { IfOk result (λ n. StoresSet part n table.old table.new) }
{
    let NumberedSet {
        own,
        spreads,
        inner,
    } = part;
    let number = table.sets.len();
    keep_parts(inner.as_slice(), spreads.as_slice(), number, table)?;
    let once = each_once(alloc, spreads)?;
    let mut own = own;
    own.shrink_to_fit();
    let none = Vec::new(alloc);
    table.sets.push(NumberedSet {
        own,
        spreads: once,
        inner: none,
    })?;
    Ok(number)
}

/// Stores a set, puts its number at its place in the order, and returns the number. A place past the end of the order
/// is left out.
///
/// # Errors
///
/// Out of memory.
pub fn close_set<S, C>(
    alloc: Global,
    place: usize,
    part: NumberedSet,
    table: &mut Table<'_, S, C>,
) -> Result<usize, OutOfMemory>
    ensures { IfOk result (λ n. ClosesSet place part n table.old table.new) }
{
    let number = store_set(alloc, part, table)?;
    if table.order.len() <= place {
        return Ok(number);
    }
    table.order[place] = number;
    Ok(number)
}
