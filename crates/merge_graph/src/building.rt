//! How the sets of a document are added.
ghost use Rattle.std.specs.Prelude.{◌≡◌, ℕ, Option, Some, None, OnOk, IfOk, length, slice_get};
ghost use Rattle.merge_set_table.specs.Known.{known_rank};
ghost use Rattle.merge_graph.specs.Building.{IsFree, NotesOrder, AddsDefinition, AddsFragment, IsNothing};

use crate::definitions::{selections, type_of_definition};
use language::error::OutOfMemory;
use language::tree::Definition;
use merge_set_table::adding::add_set;
use merge_set_table::known::KnownFragments;
use merge_set_table::table::{Table, no_table};
use schema::model::SchemaTypeOf;
use std::alloc::{AllocError, Global};

/// What was made of a document so far.
#[derive(Drop)]
pub struct Building<'a, S, C> {
    pub table: Table<'a, S, C>,
    /// The set of each fragment whose set is there.
    pub fragments: Vec<usize>,
    /// The sets of one definition after those of another, each one's in the order of a walk: one list, so that
    /// many definitions ask for memory as seldom as one.
    pub order: Vec<usize>,
    /// Where those of the definition at each place start and end in it, once they are there.
    pub stretches: Vec<Option<(usize, usize)>>,
}

// No stretch at each of so many places.
fn no_stretches(alloc: Global, count: usize) -> Result<Vec<Option<(usize, usize)>>, AllocError>
    ensures len { IfOk result (λ v. length v.items ≡ count) }
    ensures none { IfOk result (λ v. (p : ℕ) (o : Option (ℕ × ℕ)) → slice_get v.items p ≡ Some o → o ≡ None) }
{
    vec![in alloc; None; count]
}

/// Nothing built, with `count` places, each of which brings at least one set, and room for `fragments` fragments.
///
/// # Errors
///
/// Out of memory.
pub fn no_building<'a, S, C>(
    alloc: Global,
    count: usize,
    fragments: usize,
) -> Result<Building<'a, S, C>, AllocError>
    ensures { IfOk result (IsNothing count) }
{
    let stretches = no_stretches(alloc, count)?;
    Ok(Building {
        table: no_table(alloc, count)?,
        fragments: Vec::with_capacity(alloc, fragments)?,
        order: Vec::with_capacity(alloc, count)?,
        stretches,
    })
}

// Keeps the order of the sets that were added as that of a place.
fn note_order<S, C>(place: usize, building: &mut Building<'_, S, C>) -> Result<(), AllocError>
    requires { IsFree place building.old }
    ensures { OnOk result (NotesOrder place building.old building.new) }
{
    let start = building.order.len();
    building
        .order
        .extend_from_slice(building.table.order.as_slice())?;
    building.table.order.clear();
    building.stretches[place] = Some((start, building.order.len()));
    Ok(())
}

/// Adds the set of a definition, which may spread the known fragments, and returns its number.
///
/// # Errors
///
/// Out of memory. Some sets in it may have been added.
pub fn add_definition<'a, S, C>(
    alloc: Global,
    schema: &'a SchemaTypeOf<S, C>,
    known: &KnownFragments<'_, '_>,
    definition: &'a Definition<'a, S>,
    place: usize,
    building: &mut Building<'a, S, C>,
) -> Result<usize, OutOfMemory>
    requires { IsFree place building.old }
    ensures { IfOk result (λ n. AddsDefinition schema.now (known_rank known.now) definition.now place n building.old
        building.new) }
{
    let parent = type_of_definition(schema, definition);
    let set = selections(definition);
    let number = add_set(alloc, schema, known, parent, set, &mut building.table)?;
    note_order(place, building)?;
    Ok(number)
}

/// Adds the set of the next fragment, by a definition of it.
///
/// # Errors
///
/// Out of memory. Some sets in it may have been added.
pub fn add_fragment<'a, S, C>(
    alloc: Global,
    schema: &'a SchemaTypeOf<S, C>,
    known: &KnownFragments<'_, '_>,
    definition: &'a Definition<'a, S>,
    place: usize,
    building: &mut Building<'a, S, C>,
) -> Result<(), OutOfMemory>
    requires { IsFree place building.old }
    ensures { OnOk result (AddsFragment schema.now (known_rank known.now) definition.now place building.old
        building.new) }
{
    let set = add_definition(alloc, schema, known, definition, place, building)?;
    building.fragments.push(set)?;
    Ok(())
}
