//! Adds a selection set to a table, with all sets in it.
ghost use Rattle.std.specs.Prelude.{◌≡◌, ◌∷◌, ◌&&◌, [], OnOk, IfOk, not, is_some, option_copied, reverse, true, false};
ghost use Rattle.merge_set_table.specs.Known.{known_rank};
ghost use Rattle.merge_set_table.specs.Adding.{Adds, AddsSet};
ghost use Rattle.merge_set_table.specs.Inside.{type_entered};
ghost use Rattle.merge_set_table.specs.declared.table.Table.{Table};
ghost use Rattle.merge_set_table.specs.Tasks.{AddsAs, Meets, Becomes};

use crate::known::KnownFragments;
use crate::steps::{add_spread, begin_part, close_set, end_part, no_fields, open_set, push_field};
use crate::table::{NumberedSet, Table};
use crate::tasks::{
    BegunField, BegunInline, Members, Role, Task, end_field, end_inline, is_lost, place_for,
};
use language::error::OutOfMemory;
use language::position::Spanning;
use language::tree::{Field, InlineFragment, Selection};
use merge_field_pairs::own_fields::{entry_of_field, type_below_field, type_inside_fragment};
use meta::kinds::MetaTypeOf;
use schema::model::SchemaTypeOf;
use std::alloc::{AllocError, Global};
use std::mem;

/// Adds a set under a type, after the sets in it, and returns its number.
///
/// `fragments` are those that may be spread; any other counts as unknown.
///
/// # Errors
///
/// Out of memory. Some sets in it may have been added.
pub fn add_set<'a, S, C>(
    alloc: Global,
    schema: &'a SchemaTypeOf<S, C>,
    fragments: &KnownFragments<'_, '_>,
    parent: Option<&'a MetaTypeOf<S, C>>,
    set: &'a [Selection<'a, S>],
    table: &mut Table<'a, S, C>,
) -> Result<usize, OutOfMemory>
    ensures { IfOk result (λ n. AddsSet schema.now (known_rank fragments.now) (option_copied parent.entry) set.now n
        table.old table.new) }
{
    let place = open_set(table)?;
    let mut part = no_fields(alloc, set.len())?;
    add_selections(alloc, schema, fragments, parent, set, &mut part, table)?;
    close_set(alloc, place, part, table)
}

// Adds selections to a set, with all sets in them. What is begun waits on a list in memory, so no depth is too deep for
// the machine's stack.
fn add_selections<'a, S, C>(
    alloc: Global,
    schema: &'a SchemaTypeOf<S, C>,
    fragments: &KnownFragments<'_, '_>,
    parent: Option<&'a MetaTypeOf<S, C>>,
    set: &'a [Selection<'a, S>],
    part: &mut NumberedSet,
    table: &mut Table<'a, S, C>,
) -> Result<(), OutOfMemory>
    ensures { OnOk result (Adds schema.now (known_rank fragments.now) (option_copied parent.entry) set.now part.old
        part.new table.old table.new) }
{
    let mut tasks = Vec::new(alloc);
    tasks.push(Task::Members(Members {
        role: Role::Searched,
        parent,
        set,
    }))?;
    for _ in 0..u64::MAX {
        let Some(task) = tasks.pop() else {
            return Ok(());
        };
        step(alloc, schema, fragments, task, part, &mut tasks, table)?;
    }
    Err(OutOfMemory::from(AllocError))
}

// Does the task that was put on the list last, or a part of it.
fn step<'a, S, C>(
    alloc: Global,
    schema: &'a SchemaTypeOf<S, C>,
    fragments: &KnownFragments<'_, '_>,
    task: Task<'a, S, C>,
    part: &mut NumberedSet,
    tasks: &mut Vec<Task<'a, S, C>>,
    table: &mut Table<'a, S, C>,
) -> Result<(), OutOfMemory>
    ensures { OnOk result (Becomes schema.now (known_rank fragments.now) (reverse tasks.new.items) part.new table.new
        (reverse tasks.old.items)
        (λ b t. Meets schema.now (known_rank fragments.now) task.entry part.old b table.old t)) }
{
    match task {
        Task::Members(members) => {
            add_next(alloc, schema, fragments, members, part, tasks, table)
        }
        Task::Field(begun) => end_field(alloc, begun, part, table),
        Task::Inline(begun) => end_inline(alloc, begun, part, table),
        Task::Part(place) => {
            end_part(place, part);
            Ok(())
        }
    }
}

// Adds the next of these selections; the others wait.
fn add_next<'a, S, C>(
    alloc: Global,
    schema: &'a SchemaTypeOf<S, C>,
    fragments: &KnownFragments<'_, '_>,
    members: Members<'a, S, C>,
    part: &mut NumberedSet,
    tasks: &mut Vec<Task<'a, S, C>>,
    table: &mut Table<'a, S, C>,
) -> Result<(), OutOfMemory>
    ensures { OnOk result (Becomes schema.now (known_rank fragments.now) (reverse tasks.new.items) part.new table.new
        (reverse tasks.old.items)
        (λ b t. AddsAs schema.now (known_rank fragments.now) members.entry.role (option_copied members.entry.parent)
        members.entry.set.now part.old b table.old t)) }
{
    let Members { role, parent, set } = members;
    let Some((first, others)) = set.split_first() else {
        return Ok(());
    };
    tasks.push(Task::Members(Members {
        role,
        parent,
        set: others,
    }))?;
    add_member(
        alloc, schema, fragments, role, parent, first, part, tasks, table,
    )
}

fn add_member<'a, S, C>(
    alloc: Global,
    schema: &'a SchemaTypeOf<S, C>,
    fragments: &KnownFragments<'_, '_>,
    role: Role,
    parent: Option<&'a MetaTypeOf<S, C>>,
    selection: &'a Selection<'a, S>,
    part: &mut NumberedSet,
    tasks: &mut Vec<Task<'a, S, C>>,
    table: &mut Table<'a, S, C>,
) -> Result<(), OutOfMemory>
    ensures { OnOk result (Becomes schema.now (known_rank fragments.now) (reverse tasks.new.items) part.new table.new
        (reverse tasks.old.items)
        (λ b t. AddsAs schema.now (known_rank fragments.now) role (option_copied parent.entry) (selection.now ∷ [])
        part.old b table.old t)) }
{
    match selection {
        Selection::Field(field) => {
            add_field(
                alloc, schema, fragments, role, parent, field, part, tasks, table,
            )
        }
        Selection::FragmentSpread(spread) => add_spread(fragments, spread.item.name.item, part),
        Selection::InlineFragment(inline) => {
            add_inline(
                alloc, schema, fragments, role, parent, inline, part, tasks, table,
            )
        }
    }
}

// Adds a field, or begins its set.
fn add_field<'a, S, C>(
    alloc: Global,
    schema: &'a SchemaTypeOf<S, C>,
    fragments: &KnownFragments<'_, '_>,
    role: Role,
    parent: Option<&'a MetaTypeOf<S, C>>,
    field: &'a Spanning<Field<'a, S>>,
    part: &mut NumberedSet,
    tasks: &mut Vec<Task<'a, S, C>>,
    table: &mut Table<'a, S, C>,
) -> Result<(), OutOfMemory>
    ensures { OnOk result (Becomes schema.now (known_rank fragments.now) (reverse tasks.new.items) part.new table.new
        (reverse tasks.old.items)
        (λ b t. AddsAs schema.now (known_rank fragments.now) role (option_copied parent.entry)
        (Selection.Field field.now ∷ []) part.old b table.old t)) }
{
    let entry = entry_of_field(parent, field);
    let Some(selections) = &field.item.selection_set else {
        return push_field(table, part, entry, None);
    };
    let set = selections.as_slice();
    let place = place_for(role, table)?;
    let inner = no_fields(alloc, set.len())?;
    let outer = mem::replace(part, inner);
    tasks.push(Task::Field(BegunField {
        place,
        outer,
        entry,
    }))?;
    let parent = type_below_field(schema, &entry);
    tasks.push(Task::Members(Members { role, parent, set }))?;
    Ok(())
}

// Begins the set of an inline fragment, unless its fields are only compared: then they are added as they stand.
fn add_inline<'a, S, C>(
    alloc: Global,
    schema: &'a SchemaTypeOf<S, C>,
    fragments: &KnownFragments<'_, '_>,
    role: Role,
    parent: Option<&'a MetaTypeOf<S, C>>,
    inline: &'a Spanning<InlineFragment<'a, S>>,
    part: &mut NumberedSet,
    tasks: &mut Vec<Task<'a, S, C>>,
    table: &mut Table<'a, S, C>,
) -> Result<(), OutOfMemory>
    ensures { OnOk result (Becomes schema.now (known_rank fragments.now) (reverse tasks.new.items) part.new table.new
        (reverse tasks.old.items)
        (λ b t. AddsAs schema.now (known_rank fragments.now) role (option_copied parent.entry)
        (Selection.InlineFragment inline.now ∷ []) part.old b table.old t)) }
{
    match role {
        Role::Searched => {
            begin_inline(alloc, schema, fragments, parent, inline, part, tasks, table)
        }
        Role::Compared => {
            let set = inline.item.selection_set.as_slice();
            let parent = type_inside_fragment(schema, parent, &inline.item.type_condition);
            tasks.push(Task::Members(Members { role, parent, set }))?;
            Ok(())
        }
    }
}

fn begin_inline<'a, S, C>(
    alloc: Global,
    schema: &'a SchemaTypeOf<S, C>,
    fragments: &KnownFragments<'_, '_>,
    parent: Option<&'a MetaTypeOf<S, C>>,
    inline: &'a Spanning<InlineFragment<'a, S>>,
    part: &mut NumberedSet,
    tasks: &mut Vec<Task<'a, S, C>>,
    table: &mut Table<'a, S, C>,
) -> Result<(), OutOfMemory>
    ensures { OnOk result (Becomes schema.now (known_rank fragments.now) (reverse tasks.new.items) part.new table.new
        (reverse tasks.old.items)
        (λ b t. AddsAs schema.now (known_rank fragments.now) Role.Searched (option_copied parent.entry)
        (Selection.InlineFragment inline.now ∷ []) part.old b table.old t)) }
{
    let entered = type_entered(schema, parent, &inline.item.type_condition);
    if is_lost(entered, parent) {
        begin_lost(
            alloc, schema, fragments, parent, entered, inline, part, tasks, table,
        )
    } else {
        begin_inner(schema, fragments, parent, entered, inline, part, tasks)
    }
}

// Begins the set of an inline fragment as a part of the set round it.
fn begin_inner<'a, S, C>(
    schema: &'a SchemaTypeOf<S, C>,
    fragments: &KnownFragments<'_, '_>,
    parent: Option<&'a MetaTypeOf<S, C>>,
    entered: Option<&'a MetaTypeOf<S, C>>,
    inline: &'a Spanning<InlineFragment<'a, S>>,
    part: &mut NumberedSet,
    tasks: &mut Vec<Task<'a, S, C>>,
) -> Result<(), OutOfMemory>
    requires typed { option_copied entered
        ≡ type_entered schema.now (option_copied parent) inline.now.item.type_condition }
    requires lost { (not (is_some entered) && is_some parent) ≡ false }
    ensures { OnOk result ((t : Table S C) → Becomes schema.now (known_rank fragments.now) (reverse tasks.new.items)
        part.new t (reverse tasks.old.items)
        (λ b u. AddsAs schema.now (known_rank fragments.now) Role.Searched (option_copied parent.entry)
        (Selection.InlineFragment inline.now ∷ []) part.old b t u)) }
{
    let set = inline.item.selection_set.as_slice();
    let place = begin_part(part)?;
    tasks.push(Task::Part(place))?;
    tasks.push(Task::Members(Members {
        role: Role::Searched,
        parent: entered,
        set,
    }))?;
    Ok(())
}

// Begins the set of an inline fragment of an unknown type: it has no type, while its fields have that around the
// fragment. So they are added once more, to the set round it.
fn begin_lost<'a, S, C>(
    alloc: Global,
    schema: &'a SchemaTypeOf<S, C>,
    fragments: &KnownFragments<'_, '_>,
    parent: Option<&'a MetaTypeOf<S, C>>,
    entered: Option<&'a MetaTypeOf<S, C>>,
    inline: &'a Spanning<InlineFragment<'a, S>>,
    part: &mut NumberedSet,
    tasks: &mut Vec<Task<'a, S, C>>,
    table: &mut Table<'a, S, C>,
) -> Result<(), OutOfMemory>
    requires typed { option_copied entered
        ≡ type_entered schema.now (option_copied parent) inline.now.item.type_condition }
    requires lost { (not (is_some entered) && is_some parent) ≡ true }
    ensures { OnOk result (Becomes schema.now (known_rank fragments.now) (reverse tasks.new.items) part.new table.new
        (reverse tasks.old.items)
        (λ b t. AddsAs schema.now (known_rank fragments.now) Role.Searched (option_copied parent.entry)
        (Selection.InlineFragment inline.now ∷ []) part.old b table.old t)) }
{
    let set = inline.item.selection_set.as_slice();
    let place = open_set(table)?;
    let inner = no_fields(alloc, set.len())?;
    let outer = mem::replace(part, inner);
    tasks.push(Task::Members(Members {
        role: Role::Compared,
        parent,
        set,
    }))?;
    tasks.push(Task::Inline(BegunInline { place, outer }))?;
    tasks.push(Task::Members(Members {
        role: Role::Searched,
        parent: entered,
        set,
    }))?;
    Ok(())
}

// The type under which a walk enters the set of an inline fragment.
fn type_entered<'a, S, C>(
    schema: &'a SchemaTypeOf<S, C>,
    parent: Option<&'a MetaTypeOf<S, C>>,
    condition: &Option<Spanning<&str>>,
) -> Option<&'a MetaTypeOf<S, C>>
    ensures { option_copied result ≡ type_entered schema.now (option_copied parent.entry) condition.now }
{
    match condition {
        Some(name) => schema.concrete_type_by_name(name.item),
        None => parent,
    }
}
