//! Comparing fields, sets and fragments. What is left to do stands on a list in memory, so no depth is too deep. Where
//! enough was found, it is passed over.
ghost use Rattle.std.specs.Prelude.{◌≡◌, ◌∷◌, ◌*◌, ◌<◌, OnOk, length, reverse};
ghost use Rattle.std.specs.Bool.{OnTrue};
ghost use Rattle.merge_sets.specs.World.{world};
ghost use Rattle.merge_search.specs.State.{Keeps};
ghost use Rattle.merge_search.specs.Work.{Did, Done, Pair, OwnPairs};
ghost use Rattle.merge_search.specs.Reports.{Finds, FindsAll, AtFields, AtOwn, AtFragments};
ghost use Rattle.merge_search.specs.Spending.{Pays, Spends, Takes, pair_cost, task_cost, tasks_cost};
ghost use Rattle.merge_search.specs.Weight.{weight};
ghost use Rattle.merge_search.specs.Tasks.{Meets, MeetsAll, Turns};
ghost use Rattle.merge_search.specs.declared.state.Search.{Search};

use crate::fields::{begin_below, close, next_listed, next_own, next_row, next_with};
use crate::fragments::{begin_fragments, next_opened, next_spread};
use crate::settle::settle;
use crate::state::{Search, is_full, note_conflicts};
use crate::task::{Task, put_tasks, take_tasks};
use merge_sets::graph::Graph;
use merge_sets::judge::Judge;
use merge_sets::node::Entry;
use std::alloc::AllocError;

/// Compares two fields of one response name.
///
/// # Errors
///
/// Out of memory. Some of the work may have been done.
pub fn compare_fields<J: Judge>(
    graph: &Graph<J>,
    a: Entry,
    b: Entry,
    e: bool,
    search: &mut Search,
) -> Result<(), AllocError>
    ensures done { let w = world J.judgement graph.now in
        OnOk result (Did w (λ M. Done w M e a b) search.old search.new) }
    ensures real { let w = world J.judgement graph.now in
        OnOk result (FindsAll w e (AtFields a b) (AtFields a b) search.old search.new) }
    ensures takes { let w = world J.judgement graph.now in
        OnOk result (Takes w (pair_cost w a b) search.old search.new) }
{
    if settle(graph, a, b, e, search)? {
        return Ok(());
    }
    let mut tasks = take_tasks(search);
    begin_below(graph, a, b, e, &mut tasks, search)?;
    finish(graph, tasks, search)?;
    Ok(())
}

/// Compares the own fields of two sets.
///
/// # Errors
///
/// Out of memory. Some of the work may have been done.
pub fn compare_own<J: Judge>(
    graph: &Graph<J>,
    i: usize,
    j: usize,
    e: bool,
    search: &mut Search,
) -> Result<(), AllocError>
    ensures done { let w = world J.judgement graph.now in
        OnOk result (Did w (λ M. OwnPairs w M e i j) search.old search.new) }
    ensures real { let w = world J.judgement graph.now in
        OnOk result (FindsAll w e (AtOwn w i j) (AtOwn w i j) search.old search.new) }
    ensures spends { let w = world J.judgement graph.now in
        OnOk result (Spends w (weight w i * weight w j) search.old search.new) }
{
    if is_full(graph, search) {
        return Ok(());
    }
    let mut tasks = take_tasks(search);
    next_own(graph, i, j, e, 0, &mut tasks, search)?;
    finish(graph, tasks, search)?;
    Ok(())
}

/// Compares two fragments, both written out.
///
/// # Errors
///
/// Out of memory. Some of the work may have been done.
pub fn compare_fragments<J: Judge>(
    graph: &Graph<J>,
    f: usize,
    g: usize,
    e: bool,
    search: &mut Search,
) -> Result<(), AllocError>
    requires first { f < length graph.now.fragments.items }
    requires second { g < length graph.now.fragments.items }
    ensures done { OnOk result (Did (world J.judgement graph.now) (λ M. Pair M e f g) search.old search.new) }
    ensures real { let w = world J.judgement graph.now in
        OnOk result (Finds w e (AtFragments w f g) search.old search.new) }
    ensures spends { OnOk result (Spends (world J.judgement graph.now) 0 search.old search.new) }
{
    if is_full(graph, search) {
        return Ok(());
    }
    let mut tasks = take_tasks(search);
    begin_fragments(graph, f, g, e, &mut tasks, search)?;
    finish(graph, tasks, search)?;
    Ok(())
}

/// Does all tasks, the last one first, and keeps their room.
fn finish<J: Judge>(
    graph: &Graph<J>,
    mut tasks: Vec<Task>,
    search: &mut Search,
) -> Result<(), AllocError>
    ensures meets { let w = world J.judgement graph.now in
        OnOk result ((mid : Search) × MeetsAll w (reverse tasks.items) search.old mid × Keeps mid search.new) }
    ensures spends { let w = world J.judgement graph.now in
        OnOk result (Takes w (tasks_cost w tasks.items) search.old search.new) }
{
    do_all(graph, &mut tasks, search)?;
    put_tasks(search, tasks);
    Ok(())
}

/// Does all tasks, the last one first.
fn do_all<J: Judge>(
    graph: &Graph<J>,
    tasks: &mut Vec<Task>,
    search: &mut Search,
) -> Result<(), AllocError>
    ensures meets { let w = world J.judgement graph.now in
        OnOk result (MeetsAll w (reverse tasks.old.items) search.old search.new) }
    ensures spends { let w = world J.judgement graph.now in
        OnOk result (Takes w (tasks_cost w tasks.old.items) search.old search.new) }
{
    for _ in 0..u64::MAX {
        let Some(task) = tasks.pop() else {
            return Ok(());
        };
        step(graph, task, tasks, search)?;
    }
    Err(AllocError)
}

/// Whether a task is passed over, since enough was found. What was begun is ended all the same.
fn is_skipped<J: Judge>(graph: &Graph<J>, task: &Task, search: &Search) -> bool
    ensures { let w = world J.judgement graph.now in OnTrue result (Meets w task.now search.now search.now) }
{
    match task {
        Task::Close(_, _, _) | Task::Mark(_, _) => false,
        _ => is_full(graph, search),
    }
}

/// Does the beginning of a task; the rest waits before the others.
fn step<J: Judge>(
    graph: &Graph<J>,
    task: Task,
    tasks: &mut Vec<Task>,
    search: &mut Search,
) -> Result<(), AllocError>
    ensures turns { let w = world J.judgement graph.now in
        OnOk result (Turns w (Meets w task) tasks.old.items tasks.new.items search.old search.new) }
    ensures pays { let w = world J.judgement graph.now in
        OnOk result (Pays w (task_cost w task) tasks.old.items tasks.new.items search.old search.new) }
{
    if is_skipped(graph, &task, search) {
        return Ok(());
    }
    match task {
        Task::With(a, j, e, n) => next_with(graph, a, j, e, n, tasks, search),
        Task::Listed(a, list, e, n) => next_listed(graph, a, list, e, n, tasks, search),
        Task::Rows(rows, e, k) => next_row(graph, rows, e, k, tasks, search),
        Task::Own(i, j, e, k) => next_own(graph, i, j, e, k, tasks, search),
        Task::Close(a, b, start) => close(a, b, start, search),
        Task::Opened(i, g, e, opening, k) => {
            next_opened(graph, i, g, e, opening, k, tasks, search)
        }
        Task::Mark(i, start) => note_conflicts(search, i, start),
        Task::Spreads(s, partner, e, k) => next_spread(graph, s, partner, e, k, tasks, search),
    }
}
