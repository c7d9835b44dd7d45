//! What is left to do while a selection set is added to a table, and what is done where a set ends.
ghost use Rattle.std.specs.Prelude.{◌≡◌, ◌&&◌, OnOk, IfOk, not, is_some};
ghost use Rattle.merge_set_table.specs.Tasks.{IsPlaced, StoresAt, EndsField, EndsInline};

use crate::steps::{close_set, open_set, push_field, store_set};
use crate::table::{NumberedSet, Table};
use language::error::OutOfMemory;
use language::tree::Selection;
use merge_field_pairs::entry::Entry;
use meta::kinds::MetaTypeOf;
use std::alloc::Global;
use std::mem;

/// What becomes of the sets inside a set.
#[derive(Clone, Copy)]
pub enum Role {
    /// Each gets a place in the order, those of inline fragments too.
    Searched,
    /// They are compared with others, and not searched by themselves, as inside an inline fragment of an unknown type.
    /// Those below fields are stored, and none gets a place in the order.
    Compared,
}

/// What is left of the selections of a set, under a type.
#[derive(Drop)]
pub struct Members<'a, S, C> {
    pub role: Role,
    pub parent: Option<&'a MetaTypeOf<S, C>>,
    pub set: &'a [Selection<'a, S>],
}

/// A field whose set is begun: the place of that set in the order, if it has one, and the set that the field stands in.
#[derive(Drop)]
pub struct BegunField<'a, S, C> {
    pub place: Option<usize>,
    pub outer: NumberedSet,
    pub entry: Entry<'a, S, C>,
}

/// An inline fragment of an unknown type whose set is begun: the place of that set in the order, and the set that the
/// fragment stands in.
#[derive(Drop)]
pub struct BegunInline {
    pub place: usize,
    pub outer: NumberedSet,
}

/// What is left to do: selections to be added to the set that is being filled, or what follows where that set ends.
#[derive(Drop)]
pub enum Task<'a, S, C> {
    Members(Members<'a, S, C>),
    Field(BegunField<'a, S, C>),
    Inline(BegunInline),
    /// The end of an inline fragment whose set is a part of the one that is being filled.
    Part(usize),
}

/// The place in the order for a set below a field, if it gets one.
///
/// # Errors
///
/// Out of memory.
pub fn place_for<S, C>(
    role: Role,
    table: &mut Table<'_, S, C>,
) -> Result<Option<usize>, OutOfMemory>
    ensures { IfOk result (λ place. IsPlaced role place table.old table.new) }
{
    match role {
        Role::Searched => Ok(Some(open_set(table)?)),
        Role::Compared => Ok(None),
    }
}

// Stores a set, and puts its number at its place, if it has one.
fn store_at<S, C>(
    alloc: Global,
    place: Option<usize>,
    part: NumberedSet,
    table: &mut Table<'_, S, C>,
) -> Result<usize, OutOfMemory>
    ensures { IfOk result (λ n. StoresAt place part n table.old table.new) }
{
    match place {
        Some(place) => close_set(alloc, place, part, table),
        None => store_set(alloc, part, table),
    }
}

/// Stores the set below a field, and adds the field to the set that it stands in, which is filled from then on.
///
/// # Errors
///
/// Out of memory.
pub fn end_field<'a, S, C>(
    alloc: Global,
    begun: BegunField<'a, S, C>,
    part: &mut NumberedSet,
    table: &mut Table<'a, S, C>,
) -> Result<(), OutOfMemory>
    ensures { OnOk result (EndsField begun.entry part.old part.new table.old table.new) }
{
    let BegunField {
        place,
        outer,
        entry,
    } = begun;
    let inner = mem::replace(part, outer);
    let number = store_at(alloc, place, inner, table)?;
    push_field(table, part, entry, Some(number))
}

/// Stores the set of an inline fragment of an unknown type. The set around it is filled from then on.
///
/// # Errors
///
/// Out of memory.
pub fn end_inline<S, C>(
    alloc: Global,
    begun: BegunInline,
    part: &mut NumberedSet,
    table: &mut Table<'_, S, C>,
) -> Result<(), OutOfMemory>
    ensures { OnOk result (EndsInline begun part.old part.new table.old table.new) }
{
    let BegunInline { place, outer } = begun;
    let inner = mem::replace(part, outer);
    close_set(alloc, place, inner, table)?;
    Ok(())
}

/// Whether there is no type inside, though there is one around.
pub fn is_lost<S, C>(entered: Option<&MetaTypeOf<S, C>>, parent: Option<&MetaTypeOf<S, C>>) -> bool
    ensures { result ≡ (not (is_some entered.entry) && is_some parent.entry) }
{
    entered.is_none() && parent.is_some()
}
