//! The steps of a search that compare fields.
ghost use Rattle.std.specs.Prelude.{◌≡◌, ◌*◌, ◌≤◌, OnOk, Bool, false, length, reverse, sum_by};
ghost use Rattle.merge_search.specs.declared.state.Search.{Search};
ghost use Rattle.std.specs.Bool.{OnTrue};
ghost use Rattle.merge_sets.specs.Clear.{AreClearRows, IsClear};
ghost use Rattle.merge_sets.specs.Names.{named};
ghost use Rattle.merge_sets.specs.World.{World, world, own_of, conflict_of};
ghost use Rattle.merge_search.specs.Tasks.{Turns, Waits, Meets, MeetsFields, MeetsNamed, MeetsNested, MeetsBelow};
ghost use Rattle.merge_search.specs.Tasks.{AreClearWith, Closes, MeetsBoth, MeetsRows, MeetsWith};
ghost use Rattle.merge_search.specs.Spending.{AsksUpto, Compares, CostsMore, Pays, name_cost, row_cost, rows_cost};
ghost use Rattle.merge_search.specs.Spending.{task_cost};
ghost use Rattle.merge_search.specs.Weight.{below_weight, weight};
ghost use Rattle.merge_search.specs.declared.task.Task.{Task};

use crate::passing::{ask_clear, ask_others, ask_pairs, ask_rows};
use crate::settle::settle_from;
use crate::state::{Search, report};
use crate::task::{Partner, Task, wait};
use bit_matrix::set::BitSet;
use merge_certificates::clear::MANY;
use merge_certificates::two_sets::Rows;
use merge_sets::finding::Finding;
use merge_sets::graph::Graph;
use merge_sets::judge::Judge;
use merge_sets::node::Entry;
use merge_sets::view::{are_exclusive, first_of_names, group, spreads};
use std::alloc::AllocError;

/// Lets what stands below two fields wait that don't fail by themselves.
///
/// # Errors
///
/// Out of memory.
pub(crate) fn begin_below<J: Judge>(
    graph: &Graph<J>,
    a: Entry,
    b: Entry,
    e: bool,
    tasks: &mut Vec<Task>,
    search: &Search,
) -> Result<(), AllocError>
    requires { conflict_of (world J.judgement graph.now) e a b ≡ false }
    ensures turns { let w = world J.judgement graph.now in
        OnOk result (Turns w (MeetsFields w e a b) tasks.old.items tasks.new.items search.now search.now) }
    ensures costs { let w = world J.judgement graph.now in
        OnOk result (CostsMore w (8 * (below_weight w a * below_weight w b)) tasks.old.items tasks.new.items) }
{
    match (a.below, b.below) {
        (Some(i), Some(j)) => begin_nested(graph, a, b, i, j, e, tasks, search),
        _ => Ok(()),
    }
}

/// Lets the sets below two fields wait, and then the report of the two.
fn begin_nested<J: Judge>(
    graph: &Graph<J>,
    a: Entry,
    b: Entry,
    i: usize,
    j: usize,
    e: bool,
    tasks: &mut Vec<Task>,
    search: &Search,
) -> Result<(), AllocError>
    ensures turns { let w = world J.judgement graph.now in
        OnOk result (Turns w (MeetsNested w e a b i j) tasks.old.items tasks.new.items search.now search.now) }
    ensures costs { let w = world J.judgement graph.now in
        OnOk result (CostsMore w (8 * (weight w i * weight w j)) tasks.old.items tasks.new.items) }
{
    tasks.push(Task::Close(a, b, search.found.len()))?;
    wait_below(graph, i, j, are_exclusive(graph, e, a, b), tasks)?;
    Ok(())
}

/// Lets two sets wait, with what they spread written out.
fn wait_below<J: Judge>(
    graph: &Graph<J>,
    i: usize,
    j: usize,
    e: bool,
    tasks: &mut Vec<Task>,
) -> Result<(), AllocError>
    ensures waits { let w = world J.judgement graph.now in
        OnOk result (Waits w (reverse tasks.new.items) (MeetsBelow w e i j) (reverse tasks.old.items)) }
    ensures costs { let w = world J.judgement graph.now in
        OnOk result (CostsMore w (8 * (weight w i * weight w j)) tasks.old.items tasks.new.items) }
{
    let left = spreads(graph, i).len();
    let right = spreads(graph, j).len();
    wait(tasks, Task::Spreads(i, Partner::Each(j), e, 0), left)?;
    wait(tasks, Task::Spreads(i, Partner::Own(j), e, 0), left)?;
    wait(tasks, Task::Spreads(j, Partner::Own(i), e, 0), right)?;
    let firsts = first_of_names(graph, i);
    wait(tasks, Task::Own(i, j, e, 0), firsts.len())?;
    Ok(())
}

/// Compares a field with the next of the own fields of a set that have its response name.
///
/// # Errors
///
/// Out of memory.
pub(crate) fn next_with<J: Judge>(
    graph: &Graph<J>,
    a: Entry,
    j: usize,
    e: bool,
    n: usize,
    tasks: &mut Vec<Task>,
    search: &mut Search,
) -> Result<(), AllocError>
    ensures turns { let w = world J.judgement graph.now in
        OnOk result (Turns w (Meets w (Task.With a j e n)) tasks.old.items tasks.new.items search.old search.new) }
    ensures pays { let w = world J.judgement graph.now in let cost = task_cost w (Task.With a j e n) in
        OnOk result (Pays w cost tasks.old.items tasks.new.items search.old search.new) }
{
    let fields = group(graph, j, a.response);
    let k = settle_from(graph, a, fields, e, n, search)?;
    if k >= fields.len() {
        return Ok(());
    }
    let b = fields[k];
    wait(tasks, Task::With(a, j, e, k + 1), fields.len() - (k + 1))?;
    begin_below(graph, a, b, e, tasks, search)?;
    Ok(())
}

/// Compares a field with the next of a list.
///
/// # Errors
///
/// Out of memory.
pub(crate) fn next_listed<J: Judge>(
    graph: &Graph<J>,
    a: Entry,
    list: Vec<Entry>,
    e: bool,
    n: usize,
    tasks: &mut Vec<Task>,
    search: &mut Search,
) -> Result<(), AllocError>
    ensures turns { let w = world J.judgement graph.now in
        OnOk result (Turns w (Meets w (Task.Listed a list e n)) tasks.old.items tasks.new.items search.old search.new) }
    ensures pays { let w = world J.judgement graph.now in let cost = task_cost w (Task.Listed a list e n) in
        OnOk result (Pays w cost tasks.old.items tasks.new.items search.old search.new) }
{
    let fields = list.as_slice();
    let k = settle_from(graph, a, fields, e, n, search)?;
    if k >= fields.len() {
        return Ok(());
    }
    let b = fields[k];
    let left = fields.len() - (k + 1);
    wait(tasks, Task::Listed(a, list, e, k + 1), left)?;
    begin_below(graph, a, b, e, tasks, search)?;
    Ok(())
}

/// Compares the next of some rows.
///
/// # Errors
///
/// Out of memory.
pub(crate) fn next_row<J: Judge>(
    graph: &Graph<J>,
    rows: Rows,
    e: bool,
    k: usize,
    tasks: &mut Vec<Task>,
    search: &mut Search,
) -> Result<(), AllocError>
    ensures turns { let w = world J.judgement graph.now in
        OnOk result (Turns w (Meets w (Task.Rows rows e k)) tasks.old.items tasks.new.items search.old search.new) }
    ensures pays { let w = world J.judgement graph.now in let cost = task_cost w (Task.Rows rows e k) in
        OnOk result (Pays w cost tasks.old.items tasks.new.items search.old search.new) }
{
    let left = rows.left.as_slice();
    if k >= left.len() {
        return Ok(());
    }
    let a = left[k];
    let others = ask_others(graph, &rows, e, k, search)?;
    tasks.push(Task::Rows(rows, e, k + 1))?;
    next_listed(graph, a, others, e, 0, tasks, search)?;
    Ok(())
}

// Lets a field wait, unless it is known to merge with the own fields of a set.
fn wait_with(
    a: Entry,
    is_clear: bool,
    j: usize,
    e: bool,
    tasks: &mut Vec<Task>,
) -> Result<(), AllocError>
    ensures waits { OnOk result ((w : World) → OnTrue is_clear (IsClear w e a (named a.response (own_of w j)))
        → Waits w (reverse tasks.new.items) (MeetsWith w e a j) (reverse tasks.old.items)) }
    ensures costs { OnOk result ((w : World) → CostsMore w (row_cost w j a) tasks.old.items tasks.new.items) }
{
    if is_clear {
        return Ok(());
    }
    tasks.push(Task::With(a, j, e, 0))?;
    Ok(())
}

// Lets those of some fields wait of which it isn't known that they merge with the own fields of a set.
fn wait_rows(
    fields: &[Entry],
    clear: &BitSet,
    j: usize,
    e: bool,
    tasks: &mut Vec<Task>,
) -> Result<(), AllocError>
    ensures waits { OnOk result ((w : World) → AreClearWith w e j fields.now clear.now
        → Waits w (reverse tasks.new.items) (MeetsRows w e j fields.now) (reverse tasks.old.items)) }
    ensures costs { OnOk result ((w : World)
        → CostsMore w (sum_by (row_cost w j) fields.now) tasks.old.items tasks.new.items) }
{
    let mut k = fields.len();
    while k > 0 {
        k -= 1;
        wait_with(fields[k], clear.contains(k), j, e, tasks)?;
    }
    Ok(())
}

// Lets the fields of two lists wait as rows. Those listed are known to merge with all of the other list.
fn wait_wide<J: Judge>(
    graph: &Graph<J>,
    left: &[Entry],
    right: &[Entry],
    clear: BitSet,
    e: bool,
    tasks: &mut Vec<Task>,
    search: &mut Search,
) -> Result<(), AllocError>
    requires { AreClearRows (world J.judgement graph.now) e left.now right.now clear }
    ensures waits { let w = world J.judgement graph.now in OnOk result
        (Waits w (reverse tasks.new.items) (MeetsBoth w e left.now right.now 0) (reverse tasks.old.items)) }
    ensures costs { let w = world J.judgement graph.now in OnOk result
        (CostsMore w (rows_cost w left.now right.now) tasks.old.items tasks.new.items) }
    ensures counts { OnOk result (AsksUpto (2 * (length left.now * length right.now)) search.old search.new) }
{
    let rows = ask_pairs(graph, left, right, clear, e, search)?;
    tasks.push(Task::Rows(rows, e, 0))?;
    Ok(())
}

/// Compares the own fields of one response name with those of another set. Those that are known to merge with all of
/// them are passed, and where there are many, so is each two that are known to merge.
fn next_named<J: Judge>(
    graph: &Graph<J>,
    i: usize,
    j: usize,
    name: usize,
    e: bool,
    tasks: &mut Vec<Task>,
    search: &mut Search,
) -> Result<(), AllocError>
    ensures turns { let w = world J.judgement graph.now in
        OnOk result (Turns w (MeetsNamed w e i j name) tasks.old.items tasks.new.items search.old search.new) }
    ensures pays { let w = world J.judgement graph.now in let cost = 8 * name_cost w i j name in
        OnOk result (Pays w cost tasks.old.items tasks.new.items search.old search.new) }
{
    let fields = group(graph, i, name);
    if fields.len() == 1 {
        next_with(graph, fields[0], j, e, 0, tasks, search)?;
        return Ok(());
    }
    let others = group(graph, j, name);
    if ask_clear(graph, fields, others, e, search)? {
        return Ok(());
    }
    let clear = ask_rows(graph, fields, others, e, search)?;
    if fields.len().saturating_mul(others.len()) < MANY {
        wait_rows(fields, &clear, j, e, tasks)?;
        return Ok(());
    }
    wait_wide(graph, fields, others, clear, e, tasks, search)?;
    Ok(())
}

/// The next place from that one on whose response name the other set has too.
fn next_shared<J: Judge>(graph: &Graph<J>, i: usize, j: usize, k: usize) -> usize
    ensures meets { let w = world J.judgement graph.now in
        (e : Bool) (s t : Search) → Meets w (Task.Own i j e result) s t → Meets w (Task.Own i j e k) s t }
    ensures costs { let w = world J.judgement graph.now in
        (e : Bool) → task_cost w (Task.Own i j e result) ≤ task_cost w (Task.Own i j e k) }
{
    let firsts = first_of_names(graph, i);
    let mut next = k;
    while next < firsts.len() {
        if !group(graph, j, firsts[next].response).is_empty() {
            return next;
        }
        next += 1;
    }
    next
}

/// Compares the own fields of two sets that have the next response name.
///
/// # Errors
///
/// Out of memory.
pub(crate) fn next_own<J: Judge>(
    graph: &Graph<J>,
    i: usize,
    j: usize,
    e: bool,
    k: usize,
    tasks: &mut Vec<Task>,
    search: &mut Search,
) -> Result<(), AllocError>
    ensures turns { let w = world J.judgement graph.now in
        OnOk result (Turns w (Meets w (Task.Own i j e k)) tasks.old.items tasks.new.items search.old search.new) }
    ensures pays { let w = world J.judgement graph.now in let cost = task_cost w (Task.Own i j e k) in
        OnOk result (Pays w cost tasks.old.items tasks.new.items search.old search.new) }
{
    let firsts = first_of_names(graph, i);
    let next = next_shared(graph, i, j, k);
    if next >= firsts.len() {
        return Ok(());
    }
    wait(
        tasks,
        Task::Own(i, j, e, next + 1),
        firsts.len() - (next + 1),
    )?;
    next_named(graph, i, j, firsts[next].response, e, tasks, search)?;
    Ok(())
}

/// Reports two fields, if something was found below them.
///
/// # Errors
///
/// Out of memory.
pub(crate) fn close(a: Entry, b: Entry, start: usize, search: &mut Search) -> Result<(), AllocError>
    ensures closes { OnOk result (Closes a b start search.old search.new) }
    ensures counts { OnOk result (Compares 0 search.old search.new) }
{
    let end = search.found.len();
    if end > start {
        return report(search, Finding::Nested(a, b, end - start));
    }
    Ok(())
}
