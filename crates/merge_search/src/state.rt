//! The state of a search: what it has found and noted.
ghost use Rattle.std.specs.Prelude.{◌≡◌, ◌≤◌, ◌++◌, ◌∷◌, [], OnOk, ℕ, Bool, false, max, min, length};
ghost use Rattle.std.specs.Bool.{OnTrue};
ghost use Rattle.bit_matrix.specs.Set.{has};
ghost use Rattle.merge_sets.specs.World.{HasRoom, world};
ghost use Rattle.merge_search.specs.Log.{covers_of};
ghost use Rattle.merge_search.specs.Work.{pair_in, search_in};
ghost use Rattle.merge_search.specs.State.{Begins, NotesBelow, NotesPair, NotesSearch, Reports, CountsList, Keeps};
ghost use Rattle.merge_search.specs.State.{CountsFields, CountsStay};

use crate::log::{Log, is_in, no_questions, note};
use crate::task::Task;
use bit_matrix::set::BitSet;
use merge_sets::finding::Finding;
use merge_sets::graph::Graph;
use merge_sets::judge::Judge;
use merge_sets::opening::{Opening, no_opening};
use std::alloc::{AllocError, Global};

/// The state of a search.
#[derive(Drop)]
pub struct Search {
    pub alloc: Global,
    /// The pairs of fragments that were compared, the greater number first.
    pub pairs: Log,
    /// The sets whose own fields were compared with a fragment's, below a field.
    pub searched: Log,
    /// The sets whose own fields conflict with a fragment's, below a field.
    pub conflicting: BitSet,
    /// How many searches below a field were made once more.
    pub repeated: usize,
    pub found: Vec<Finding>,
    /// How many pairs of fragments were compared.
    pub compared: u128,
    /// How many fragments the searches opened.
    pub opened: u128,
    /// How many spreads of opened fragments the searches looked at.
    pub looked: u128,
    /// How many searches there were.
    pub lists: u128,
    /// How many pairs of fields were compared, what was asked and looked at to pass many at once counted with them.
    pub judged: u128,
    /// Openings of searches that ended, whose room is used again.
    pub openings: Vec<Opening>,
    /// No task, but the room of those that were done, which is used again.
    pub tasks: Vec<Task>,
}

/// A search that has found nothing.
pub fn no_search(alloc: Global) -> Search
    ensures { Begins 0 result }
{
    Search {
        alloc,
        pairs: no_questions(alloc),
        searched: no_questions(alloc),
        conflicting: BitSet::new(alloc),
        repeated: 0,
        found: Vec::new(alloc),
        compared: 0,
        opened: 0,
        looked: 0,
        lists: 0,
        judged: 0,
        openings: Vec::new(alloc),
        tasks: Vec::new(alloc),
    }
}

/// An opening to write over: that of a search that ended, if there is one.
pub fn take_opening(search: &mut Search) -> Opening
    ensures keeps { Keeps search.old search.new }
    ensures counts { CountsStay search.old search.new }
{
    match search.openings.pop() {
        Some(opening) => opening,
        None => no_opening(search.alloc),
    }
}

/// Keeps the opening of a search that has ended, for the next.
///
/// # Errors
///
/// Out of memory.
pub fn put_opening(search: &mut Search, opening: Opening) -> Result<(), AllocError>
    ensures keeps { OnOk result (Keeps search.old search.new) }
    ensures counts { OnOk result (CountsStay search.old search.new) }
{
    search.openings.push(opening)?;
    Ok(())
}

/// Whether two fragments were compared under the flag, or without one.
pub fn is_compared(search: &Search, f: usize, g: usize, e: bool) -> bool
    ensures { result ≡ covers_of (pair_in search.now) e f g }
{
    let high = f.max(g);
    let low = f.min(g);
    is_in(&search.pairs, false, high, low) || (e && is_in(&search.pairs, true, high, low))
}

/// Whether the own fields of a set were compared with a fragment's under the flag, or without one.
pub fn is_searched(search: &Search, i: usize, g: usize, e: bool) -> bool
    ensures { result ≡ covers_of (search_in search.now) e i g }
{
    is_in(&search.searched, false, i, g) || (e && is_in(&search.searched, true, i, g))
}

/// Notes that two fragments are compared.
///
/// # Errors
///
/// Out of memory.
pub fn note_pair(search: &mut Search, f: usize, g: usize, e: bool) -> Result<(), AllocError>
    ensures { OnOk result (NotesPair f g e search.old search.new) }
{
    note(&mut search.pairs, e, f.max(g), f.min(g))?;
    search.compared = search.compared.saturating_add(1);
    Ok(())
}

/// Notes that a fragment is compared with each of `among` that has a smaller number, many at once.
///
/// # Errors
///
/// Out of memory.
pub fn note_below(search: &mut Search, f: usize, among: &BitSet) -> Result<(), AllocError>
    ensures { OnOk result (NotesBelow f (has among.now) search.old search.new) }
{
    let added = search.pairs.plain.insert_below(f, among)?;
    search.compared = search.compared.saturating_add(added as u128);
    Ok(())
}

/// Notes that the own fields of a set are compared with a fragment's. If they were before, it takes one repetition.
///
/// # Errors
///
/// Out of memory.
pub fn note_search(search: &mut Search, i: usize, g: usize, e: bool) -> Result<(), AllocError>
    ensures { OnOk result (NotesSearch i g e search.old search.new) }
{
    if is_searched(search, i, g, e) {
        search.repeated = search.repeated.saturating_add(1);
    }
    note(&mut search.searched, e, i, g)
}

/// Notes that the own fields of a set conflict with a fragment's, if something was found since `start`.
///
/// # Errors
///
/// Out of memory.
pub fn note_conflicts(search: &mut Search, i: usize, start: usize) -> Result<(), AllocError>
    ensures keeps { OnOk result (Keeps search.old search.new) }
    ensures counts { OnOk result (CountsStay search.old search.new) }
{
    if search.found.len() > start {
        search.conflicting.insert(i)?;
    }
    Ok(())
}

/// Adds a finding.
///
/// # Errors
///
/// Out of memory.
pub fn report(search: &mut Search, finding: Finding) -> Result<(), AllocError>
    ensures { OnOk result (Reports finding search.old search.new) }
{
    search.found.push(finding)?;
    Ok(())
}

/// Counts pairs of fields that are compared, or what is asked and looked at to pass many at once.
pub fn count_fields(search: &mut Search, pairs: usize)
    ensures { CountsFields pairs search.old search.new }
{
    search.judged = search.judged.saturating_add(pairs as u128);
}

/// Counts a search that opens some fragments, and looks at their spreads.
pub fn count_list(search: &mut Search, opened: usize, looked: u128)
    ensures { CountsList opened looked search.old search.new }
{
    search.lists = search.lists.saturating_add(1);
    search.opened = search.opened.saturating_add(opened as u128);
    search.looked = search.looked.saturating_add(looked);
}

/// Whether enough was found.
pub fn is_full<J: Judge>(graph: &Graph<J>, search: &Search) -> bool
    ensures { OnTrue result (HasRoom (world J.judgement graph.now) search.now.found.items → ⊥) }
{
    if graph.limit == 0 {
        return false;
    }
    search.found.len() >= graph.limit
}
