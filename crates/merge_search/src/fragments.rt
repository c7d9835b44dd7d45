//! The steps of a search that compare fragments.
ghost use Rattle.std.specs.Prelude.{◌≡◌, ◌*◌, ◌<◌, OnOk, length};
ghost use Rattle.merge_sets.specs.World.{world};
ghost use Rattle.merge_search.specs.Tasks.{Meets, MeetsFragments, MeetsOne, MeetsPartner, MeetsSearch, Turns};
ghost use Rattle.merge_search.specs.Spending.{Pays, task_cost};
ghost use Rattle.merge_search.specs.Weight.{fragment_weight, weight};
ghost use Rattle.merge_search.specs.declared.task.Task.{Task};

use crate::fields::next_own;
use crate::opening::opened;
use crate::repeats::is_settled;
use crate::state::{Search, is_compared, note_pair, put_opening};
use crate::task::{Partner, Task, wait};
use merge_sets::graph::Graph;
use merge_sets::judge::Judge;
use merge_sets::opening::Opening;
use merge_sets::view::{own, set, spreads};
use std::alloc::AllocError;

/// Compares the own fields of `i` with those of one fragment that a search has opened.
fn begin_one<J: Judge>(
    graph: &Graph<J>,
    i: usize,
    g: usize,
    e: bool,
    tasks: &mut Vec<Task>,
    search: &mut Search,
) -> Result<(), AllocError>
    ensures turns { let w = world J.judgement graph.now in
        OnOk result (Turns w (MeetsOne w e i g) tasks.old.items tasks.new.items search.old search.new) }
    ensures pays { let w = world J.judgement graph.now in let cost = 8 * (weight w i * fragment_weight w g) in
        OnOk result (Pays w cost tasks.old.items tasks.new.items search.old search.new) }
{
    tasks.push(Task::Mark(i, search.found.len()))?;
    next_own(graph, i, set(graph, g), e, 0, tasks, search)?;
    Ok(())
}

/// Compares the own fields of `i` with those of the next fragment that a search from `g` opens.
///
/// # Errors
///
/// Out of memory.
pub(crate) fn next_opened<J: Judge>(
    graph: &Graph<J>,
    i: usize,
    g: usize,
    e: bool,
    opening: Opening,
    k: usize,
    tasks: &mut Vec<Task>,
    search: &mut Search,
) -> Result<(), AllocError>
    ensures turns { let w = world J.judgement graph.now in
        OnOk result
        (Turns w (Meets w (Task.Opened i g e opening k)) tasks.old.items tasks.new.items search.old search.new) }
    ensures pays { let w = world J.judgement graph.now in let cost = task_cost w (Task.Opened i g e opening k) in
        OnOk result (Pays w cost tasks.old.items tasks.new.items search.old search.new) }
{
    if k >= opening.order.len() {
        return put_opening(search, opening);
    }
    let h = opening.order[k];
    tasks.push(Task::Opened(i, g, e, opening, k + 1))?;
    begin_one(graph, i, h, e, tasks, search)?;
    Ok(())
}

/// Compares the own fields of `i` with the fragment `g` written out. A set without fields has nothing to compare.
fn begin_search<J: Judge>(
    graph: &Graph<J>,
    i: usize,
    g: usize,
    e: bool,
    tasks: &mut Vec<Task>,
    search: &mut Search,
) -> Result<(), AllocError>
    requires { g < length graph.now.fragments.items }
    ensures turns { let w = world J.judgement graph.now in
        OnOk result (Turns w (MeetsSearch w e i g) tasks.old.items tasks.new.items search.old search.new) }
    ensures pays { let w = world J.judgement graph.now in
        OnOk result (Pays w 0 tasks.old.items tasks.new.items search.old search.new) }
{
    if own(graph, i).is_empty() || is_settled(graph, search, i, g, e) {
        return Ok(());
    }
    let opening = opened(graph, i, g, e, search)?;
    next_opened(graph, i, g, e, opening, 0, tasks, search)?;
    Ok(())
}

/// Compares two fragments, both written out.
///
/// # Errors
///
/// Out of memory.
pub(crate) fn begin_fragments<J: Judge>(
    graph: &Graph<J>,
    f: usize,
    g: usize,
    e: bool,
    tasks: &mut Vec<Task>,
    search: &mut Search,
) -> Result<(), AllocError>
    ensures turns { let w = world J.judgement graph.now in
        OnOk result (Turns w (MeetsFragments w e f g) tasks.old.items tasks.new.items search.old search.new) }
    ensures pays { let w = world J.judgement graph.now in
        OnOk result (Pays w 0 tasks.old.items tasks.new.items search.old search.new) }
{
    if f == g {
        return Ok(());
    }
    let last = f.max(g);
    if last >= graph.fragments.len() {
        return Ok(());
    }
    if is_compared(search, f, g, e) {
        return Ok(());
    }
    note_pair(search, f, g, e)?;
    let left = set(graph, f);
    let right = set(graph, g);
    let on_left = spreads(graph, left).len();
    let on_right = spreads(graph, right).len();
    let seconds = Task::Spreads(left, Partner::Second(g), e, 0);
    wait(tasks, seconds, on_left)?;
    let firsts = Task::Spreads(right, Partner::First(f), e, 0);
    wait(tasks, firsts, on_right)?;
    next_own(graph, left, right, e, 0, tasks, search)?;
    Ok(())
}

/// Compares a fragment with its partner.
fn begin_spread<J: Judge>(
    graph: &Graph<J>,
    f: usize,
    partner: Partner,
    e: bool,
    tasks: &mut Vec<Task>,
    search: &mut Search,
) -> Result<(), AllocError>
    requires { f < length graph.now.fragments.items }
    ensures turns { let w = world J.judgement graph.now in
        OnOk result (Turns w (MeetsPartner w e f partner) tasks.old.items tasks.new.items search.old search.new) }
    ensures pays { let w = world J.judgement graph.now in
        OnOk result (Pays w 0 tasks.old.items tasks.new.items search.old search.new) }
{
    match partner {
        Partner::Own(i) => begin_search(graph, i, f, e, tasks, search),
        Partner::First(g) => begin_fragments(graph, g, f, e, tasks, search),
        Partner::Second(g) => begin_fragments(graph, f, g, e, tasks, search),
        Partner::Each(j) => {
            let rest = Task::Spreads(j, Partner::First(f), e, 0);
            wait(tasks, rest, spreads(graph, j).len())
        }
    }
}

/// Compares the next fragment that a set spreads with its partner.
///
/// # Errors
///
/// Out of memory.
pub(crate) fn next_spread<J: Judge>(
    graph: &Graph<J>,
    s: usize,
    partner: Partner,
    e: bool,
    k: usize,
    tasks: &mut Vec<Task>,
    search: &mut Search,
) -> Result<(), AllocError>
    ensures turns { let w = world J.judgement graph.now in
        OnOk result
        (Turns w (Meets w (Task.Spreads s partner e k)) tasks.old.items tasks.new.items search.old search.new) }
    ensures pays { let w = world J.judgement graph.now in
        OnOk result (Pays w 0 tasks.old.items tasks.new.items search.old search.new) }
{
    let list = spreads(graph, s);
    if k >= list.len() {
        return Ok(());
    }
    let rest = Task::Spreads(s, partner, e, k + 1);
    wait(tasks, rest, list.len() - (k + 1))?;
    begin_spread(graph, list[k], partner, e, tasks, search)?;
    Ok(())
}
