//! Why two fields can't be merged, written out with all that stands below them. What is left to tell stands on a list
//! in memory, so no depth is too deep.
ghost use Rattle.std.specs.Prelude.{◌≡◌, ◌++◌, ◌∷◌, [], OnOk, Some, List, codes, map, reverse, slice_get};
ghost use Rattle.merge_sets.specs.declared.node.Entry as numbered;
ghost use Rattle.merge_field_pairs.specs.Entries.{PlainEntry, plain, response_of};
ghost use Rattle.merge_conflicts.specs.declared.parts.Part as numbers;
ghost use Rattle.merge_conflicts.specs.Reports.{Reports, postfix, AreReportsOf};
ghost use Rattle.merge_conflicts.specs.Parts.{ArePartsOf};
ghost use Rattle.merge_conflicts.specs.Telling.{Adds, IsToldOf};
ghost use Rattle.merge_conflicts.specs.Tasks.{IsWaiting, Leads, Meets, MeetsAll, MeetsPart, MeetsWhy};
ghost use Rattle.merge_conflicts.specs.declared.reasons.Task.{Task};
ghost use Rattle.merge_conflicts.specs.Texts.{Told, told};

use crate::account::{Account, add_name, add_places, add_reason, add_text};
use crate::parts::{Part, Why, parts_of};
use language_types::error::OutOfMemory;
use language_values::scalar::ScalarValue;
use merge_field_pairs::entry::Entry;
use merge_sets::finding::Finding;
use schema::model::SchemaTypeOf;
use std::alloc::{AllocError, Global};

/// What is left to tell: a part, or the parts from that place on, each behind another.
#[derive(Drop)]
pub enum Task<'f> {
    One(Part<'f>),
    Others(Vec<Part<'f>>, usize),
}

/// The response name of a field; empty for a number that is no field's.
pub fn response_at<'a, S, C>(fields: &[Entry<'a, S, C>], number: usize) -> &'a str
    ensures { (x : PlainEntry S C) → slice_get (map plain fields.now) number ≡ Some x → result.now ≡ response_of x }
{
    match fields.get(number) {
        Some(field) => field.response_name(),
        None => "",
    }
}

/// Adds why the two fields of a part can't be merged, with their places; nothing for a number that is no field's.
///
/// # Errors
///
/// Out of memory. Part of it may have been added.
pub fn add_why<'a, S: ScalarValue, C>(
    alloc: Global,
    schema: &SchemaTypeOf<S, C>,
    fields: &[Entry<'a, S, C>],
    part: &Part<'_>,
    account: &mut Account,
) -> Result<(), OutOfMemory>
    ensures { (t : Told) → IsToldOf S.eq schema.now (map plain fields.now) part.now t
        → OnOk result (Adds t.reason t.lefts t.rights account.old account.new) }
{
    let mut tasks = Vec::new(alloc);
    begin_why(alloc, schema, fields, *part, &mut tasks, account)?;
    tell_all(alloc, schema, fields, &mut tasks, account)
}

// Tells all that is left, the last task first.
fn tell_all<'a, 'f, S: ScalarValue, C>(
    alloc: Global,
    schema: &SchemaTypeOf<S, C>,
    fields: &[Entry<'a, S, C>],
    tasks: &mut Vec<Task<'f>>,
    account: &mut Account,
) -> Result<(), OutOfMemory>
    ensures { OnOk result
        (MeetsAll S.eq schema.now (map plain fields.now) (reverse tasks.old.items) account.old account.new) }
{
    for _ in 0..u64::MAX {
        let Some(task) = tasks.pop() else {
            return Ok(());
        };
        step(alloc, schema, fields, task, tasks, account)?;
    }
    Err(OutOfMemory::from(AllocError))
}

// Tells the beginning of a task; the rest waits before the others.
fn step<'a, 'f, S: ScalarValue, C>(
    alloc: Global,
    schema: &SchemaTypeOf<S, C>,
    fields: &[Entry<'a, S, C>],
    task: Task<'f>,
    tasks: &mut Vec<Task<'f>>,
    account: &mut Account,
) -> Result<(), OutOfMemory>
    ensures { let fs = map plain fields.now in
        OnOk result
        (Leads S.eq schema.now fs (reverse tasks.new.items) account.new (Meets S.eq schema.now fs task.entry)
        (reverse tasks.old.items) account.old) }
{
    match task {
        Task::One(part) => begin_part(alloc, schema, fields, part, tasks, account),
        Task::Others(parts, k) => next_part(alloc, schema, fields, parts, k, tasks, account),
    }
}

// Tells the next of some parts, behind another.
fn next_part<'a, 'f, S: ScalarValue, C>(
    alloc: Global,
    schema: &SchemaTypeOf<S, C>,
    fields: &[Entry<'a, S, C>],
    parts: Vec<Part<'f>>,
    k: usize,
    tasks: &mut Vec<Task<'f>>,
    account: &mut Account,
) -> Result<(), OutOfMemory>
    ensures { let fs = map plain fields.now in
        OnOk result
        (Leads S.eq schema.now fs (reverse tasks.new.items) account.new
        (Meets S.eq schema.now fs (Task.Others parts.entry k)) (reverse tasks.old.items) account.old) }
{
    if k >= parts.len() {
        return Ok(());
    }
    let part = parts[k];
    tasks.push(Task::Others(parts, k + 1))?;
    add_text(account, " and ")?;
    begin_part(alloc, schema, fields, part, tasks, account)
}

// Tells a part as it stands among those of the fields around them.
fn begin_part<'a, 'f, S: ScalarValue, C>(
    alloc: Global,
    schema: &SchemaTypeOf<S, C>,
    fields: &[Entry<'a, S, C>],
    part: Part<'f>,
    tasks: &mut Vec<Task<'f>>,
    account: &mut Account,
) -> Result<(), OutOfMemory>
    ensures { let fs = map plain fields.now in
        OnOk result
        (Leads S.eq schema.now fs (reverse tasks.new.items) account.new (MeetsPart S.eq schema.now fs part.entry)
        (reverse tasks.old.items) account.old) }
{
    let name = response_at(fields, part.first);
    add_name(account, "subfields \"", name, "\" conflict because ")?;
    begin_why(alloc, schema, fields, part, tasks, account)
}

// Tells why the two fields of a part can't be merged; the parts below them wait.
fn begin_why<'a, 'f, S: ScalarValue, C>(
    alloc: Global,
    schema: &SchemaTypeOf<S, C>,
    fields: &[Entry<'a, S, C>],
    part: Part<'f>,
    tasks: &mut Vec<Task<'f>>,
    account: &mut Account,
) -> Result<(), OutOfMemory>
    ensures { let fs = map plain fields.now in
        OnOk result
        (Leads S.eq schema.now fs (reverse tasks.new.items) account.new (MeetsWhy S.eq schema.now fs part.entry)
        (reverse tasks.old.items) account.old) }
{
    let (Some(first), Some(second)) = (fields.get(part.first), fields.get(part.second)) else {
        return Ok(());
    };
    match part.why {
        Why::Direct(flag) => add_reason(alloc, schema, flag, first, second, account),
        Why::Below(found) => {
            add_places(account, first, second)?;
            wait_below(alloc, found, tasks)
        }
    }
}

// Lets the conflicts that the findings write out wait, the first one next.
fn wait_below<'f>(
    alloc: Global,
    found: &'f [Finding],
    tasks: &mut Vec<Task<'f>>,
) -> Result<(), OutOfMemory>
    ensures { OnOk result
        ((parts : List numbers.Part) × IsWaiting parts tasks.old.items tasks.new.items
        × ((rs : Reports numbered.Entry) → found.now ≡ postfix rs → ArePartsOf rs parts)) }
{
    let parts = parts_of(alloc, found)?;
    if parts.is_empty() {
        return Ok(());
    }
    let first = parts[0];
    tasks.push(Task::Others(parts, 1))?;
    tasks.push(Task::One(first))?;
    Ok(())
}
