//! What a search still has to do.
ghost use Rattle.std.specs.Prelude.{◌≡◌, [], OnOk, reverse};
ghost use Rattle.merge_sets.specs.World.{World};
ghost use Rattle.merge_search.specs.Spending.{CostsMore, task_cost};
ghost use Rattle.merge_search.specs.State.{CountsStay, Keeps};
ghost use Rattle.merge_search.specs.Tasks.{Meets, Waits};
ghost use Rattle.merge_search.specs.declared.state.Search.{Search};

use crate::state::Search;
use merge_certificates::two_sets::Rows;
use merge_sets::node::Entry;
use merge_sets::opening::Opening;
use std::alloc::AllocError;
use std::mem;

/// What a fragment is compared with.
#[derive(Clone, Copy)]
pub enum Partner {
    /// The own fields of a set.
    Own(usize),
    /// A fragment, the first of the two.
    First(usize),
    /// A fragment, the second of the two.
    Second(usize),
    /// Each fragment that a set spreads.
    Each(usize),
}

/// A part of the work of a search. Two things are compared under a flag; the number at the end is a place in a list.
#[derive(Drop)]
pub enum Task {
    /// A field with the own fields of a set that have its response name, from that place on.
    With(Entry, usize, bool, usize),
    /// A field with those of a list, from that place on.
    Listed(Entry, Vec<Entry>, bool, usize),
    /// The rows of two sets, from that one on.
    Rows(Rows, bool, usize),
    /// The own fields of a set, from that response name on, with those of another set.
    Own(usize, usize, bool, usize),
    /// The end of two fields: what was found since then stands below them.
    Close(Entry, Entry, usize),
    /// The own fields of a set with the fragments that a search from a fragment opens, from that place on.
    Opened(usize, usize, bool, Opening, usize),
    /// The end of a fragment that a search opens: the set conflicts with it if something was found since then.
    Mark(usize, usize),
    /// Each fragment that a set spreads, from that place on, with a partner.
    Spreads(usize, Partner, bool, usize),
}

/// Puts a task before the others, unless nothing is left of it.
///
/// # Errors
///
/// Out of memory.
pub(crate) fn wait(tasks: &mut Vec<Task>, task: Task, left: usize) -> Result<(), AllocError>
    ensures waits { OnOk result
        ((w : World) → (left ≡ 0 → (s : Search) → Meets w task s s)
        → Waits w (reverse tasks.new.items) (Meets w task) (reverse tasks.old.items)) }
    ensures costs { OnOk result ((w : World) → CostsMore w (task_cost w task) tasks.old.items tasks.new.items) }
{
    if left == 0 {
        return Ok(());
    }
    tasks.push(task)?;
    Ok(())
}

/// An empty list of tasks, whose room was used before.
pub(crate) fn take_tasks(search: &mut Search) -> Vec<Task>
    ensures none { result.items ≡ [] }
    ensures keeps { Keeps search.old search.new }
    ensures counts { CountsStay search.old search.new }
{
    let mut tasks = mem::replace(&mut search.tasks, Vec::new(search.alloc));
    tasks.clear();
    tasks
}

/// Keeps the room of a list of tasks, for the next.
pub(crate) fn put_tasks(search: &mut Search, tasks: Vec<Task>)
    ensures keeps { Keeps search.old search.new }
    ensures counts { CountsStay search.old search.new }
{
    search.tasks = tasks;
}
