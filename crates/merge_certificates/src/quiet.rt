//! Sets whose fields merge, however the sets stand beside each other.
//!
//! The sets are written out as one, and under each response name the sets below its fields in turn. So each field is
//! looked at once where a search compares it with all others.
ghost use Rattle.std.specs.Prelude.{◌≡◌, ◌<◌, ◌≤◌, ◌⊎◌, ℕ, Bool, IfOk, IfSome, OnOk, false, length, true};
ghost use Rattle.std.specs.Bool.{OnTrue};
ghost use Rattle.std.specs.List.{All, Contains};
ghost use Rattle.merge_sets.specs.Judgement.{NoneConflict};
ghost use Rattle.bit_matrix.specs.Set.{has};
ghost use Rattle.merge_certificates.specs.Quiet.{AllMergeBut, AllQuiet, AllQuietBut, AreKept, AreWrittenOut, Covers};
ghost use Rattle.merge_certificates.specs.Quiet.{HoldAll, IsFrom};
ghost use Rattle.merge_sets.specs.World.{world, own_of, set_of, spreads_of};

use crate::unions::{Union, unions_below};
use bit_matrix::set::BitSet;
use merge_sets::graph::Graph;
use merge_sets::groups::{fields_named, first_fields, make_set, sorted_fields};
use merge_sets::judge::Judge;
use merge_sets::kinds::agree_together;
use merge_sets::node::{Entry, SetNode};
use merge_sets::opening::{no_opening, open_reached};
use merge_sets::view::{agree_plainly, own, set, spreads};
use std::alloc::{AllocError, Global};

// The fragments that some sets spread.
fn spreads_in<J: Judge>(
    alloc: Global,
    graph: &Graph<J>,
    sets: &[usize],
) -> Result<Vec<usize>, AllocError>
    ensures all { let w = world J.judgement graph.now in
        IfOk result (λ v. All (λ s. All (λ f. Contains v.items f) (spreads_of w s)) sets.now) }
    ensures there { IfOk result (λ v. All (λ f. f < length graph.now.fragments.items) v.items) }
{
    let mut fragments = Vec::new(alloc);
    for s in sets {
        fragments.extend_from_slice(spreads(graph, *s))?;
    }
    Ok(fragments)
}

/// Adds the sets of some fragments.
///
/// # Errors
///
/// Out of memory.
pub fn add_sets<J: Judge>(
    graph: &Graph<J>,
    fragments: &[usize],
    sets: &mut Vec<usize>,
) -> Result<(), AllocError>
    ensures kept { OnOk result ((s : ℕ) → Contains sets.old.items s → Contains sets.new.items s) }
    ensures added { let w = world J.judgement graph.now in
        OnOk result (All (λ f. Contains sets.new.items (set_of w f)) fragments.now) }
    ensures only { let w = world J.judgement graph.now in OnOk result ((s : ℕ) → Contains sets.new.items s
        → Contains sets.old.items s ⊎ ((f : ℕ) × Contains fragments.now f × (s ≡ set_of w f))) }
{
    for f in fragments {
        sets.push(set(graph, *f))?;
    }
    Ok(())
}

// Some sets, and those of all fragments that they reach. None where there are more fragments than `most`.
fn written_out<J: Judge>(
    alloc: Global,
    graph: &Graph<J>,
    sets: &[usize],
    most: usize,
) -> Result<Option<Vec<usize>>, AllocError>
    ensures { IfOk result (λ o. IfSome o (λ v. AreWrittenOut (world J.judgement graph.now) sets.now v.items)) }
{
    let starts = spreads_in(alloc, graph, sets)?;
    if !starts.is_empty() && graph.fragments.len() > most {
        return Ok(None);
    }
    let mut written = Vec::from_slice(alloc, sets)?;
    let mut opening = no_opening(alloc);
    open_reached(graph, starts.as_slice(), &mut opening)?;
    add_sets(graph, opening.order.as_slice(), &mut written)?;
    Ok(Some(written))
}

// How many own fields some sets have.
fn count_fields<J: Judge>(graph: &Graph<J>, sets: &[usize]) -> usize {
    let mut count: usize = 0;
    for s in sets {
        count = count.saturating_add(own(graph, *s).len());
    }
    count
}

// The own fields of some sets.
fn own_fields<J: Judge>(
    alloc: Global,
    graph: &Graph<J>,
    sets: &[usize],
) -> Result<Vec<Entry>, AllocError>
    ensures { let w = world J.judgement graph.now in
        IfOk result (λ v. All (λ s. (a : Entry) → Contains (own_of w s) a → Contains v.items a) sets.now) }
{
    let mut fields = Vec::new(alloc);
    for s in sets {
        fields.extend_from_slice(own(graph, *s))?;
    }
    Ok(fields)
}

// All that stands in some sets, what they spread written out, as one set, and how much was looked at. None where that
// is more than `most`.
fn united<J: Judge>(
    alloc: Global,
    graph: &Graph<J>,
    sets: &[usize],
    most: usize,
) -> Result<Option<(SetNode, usize)>, AllocError>
    ensures { IfOk result (λ o. IfSome o (λ p. HoldAll (world J.judgement graph.now) sets.now p.0.own.items)) }
{
    let Some(written) = written_out(alloc, graph, sets, most)? else {
        return Ok(None);
    };
    let size = written
        .len()
        .saturating_add(count_fields(graph, written.as_slice()));
    if size > most {
        return Ok(None);
    }
    let fields = own_fields(alloc, graph, written.as_slice())?;
    let set = make_set(alloc, fields, Vec::new(alloc))?;
    Ok(Some((set, size)))
}

// Whether no two of some fields fail with each other, under each flag from `x` on. `false` says nothing.
fn agree_from<J: Judge>(
    alloc: Global,
    graph: &Graph<J>,
    x: bool,
    fields: &[Entry],
    budget: &mut usize,
) -> Result<bool, AllocError>
    ensures agree { IfOk result (λ b. OnTrue b
        ((e : Bool) → IsFrom x e → NoneConflict (J.judgement graph.now.judge) e fields.now fields.now)) }
    ensures spent { budget.new ≤ budget.old }
{
    if agree_plainly(graph, fields, fields, budget) {
        return Ok(true);
    }
    let is_found = agree_together(alloc, graph, true, fields, budget)?;
    if x || !is_found {
        return Ok(is_found);
    }
    agree_together(alloc, graph, false, fields, budget)
}

/// Response names that are set apart, and how many more may be.
#[derive(Drop)]
pub struct Apart {
    pub names: BitSet,
    pub room: usize,
}

/// No names, where so many may be set apart.
pub fn none_apart(alloc: Global, room: usize) -> Apart
    ensures none { (n : ℕ) → has result.names n ≡ false }
    ensures room { result.room ≡ room }
{
    Apart {
        names: BitSet::new(alloc),
        room,
    }
}

// Sets a name apart, or says that there is no room.
fn set_apart(apart: &mut Apart, name: usize) -> Result<bool, AllocError>
    ensures kept { OnOk result (AreKept apart.old.names apart.new.names) }
    ensures added { IfOk result (λ b. OnTrue b (has apart.new.names name ≡ true)) }
    ensures full { OnOk result (apart.old.room ≡ 0 → apart.new ≡ apart.old) }
{
    if apart.room == 0 {
        return Ok(false);
    }
    apart.names.insert(name)?;
    apart.room -= 1;
    Ok(true)
}

// Whether no two fields of a response name fail, or else the name is set apart.
fn agree_or_apart<J: Judge>(
    alloc: Global,
    graph: &Graph<J>,
    x: bool,
    name: usize,
    group: &[Entry],
    apart: &mut Apart,
    budget: &mut usize,
) -> Result<bool, AllocError>
    ensures kept { OnOk result (AreKept apart.old.names apart.new.names) }
    ensures agree { IfOk result (λ b. OnTrue b (has apart.new.names name ≡ false → (e : Bool) → IsFrom x e
        → NoneConflict (J.judgement graph.now.judge) e group.now group.now)) }
    ensures full { OnOk result (apart.old.room ≡ 0 → apart.new ≡ apart.old) }
    ensures spent { budget.new ≤ budget.old }
{
    if agree_from(alloc, graph, x, group, budget)? {
        return Ok(true);
    }
    set_apart(apart, name)
}

// Whether some fields of one response name merge if the sets do that wait from now on, names that are set apart aside.
// `false` says nothing.
fn is_quiet_group<J: Judge>(
    alloc: Global,
    graph: &Graph<J>,
    x: bool,
    by_objects: bool,
    name: usize,
    group: &[Entry],
    apart: &mut Apart,
    waiting: &mut Vec<Union>,
    budget: &mut usize,
) -> Result<bool, AllocError>
    requires { All (λ a. a.response ≡ name) group.now }
    ensures kept { OnOk result (AreKept apart.old.names apart.new.names) }
    ensures quiet { let w = world J.judgement graph.now in
        IfOk result (λ b. OnTrue b ((l : ℕ → Bool) → Covers l apart.new.names
        → AllQuietBut w l waiting.new.items → AllQuietBut w l waiting.old.items × AllMergeBut w l x group.now)) }
    ensures full { OnOk result (apart.old.room ≡ 0 → apart.new ≡ apart.old) }
    ensures spent { budget.new ≤ budget.old }
{
    if !agree_or_apart(alloc, graph, x, name, group, apart, budget)? {
        return Ok(false);
    }
    unions_below(alloc, graph, x, by_objects, group, waiting)?;
    Ok(true)
}

// The same of the fields of a set.
fn is_quiet_set<J: Judge>(
    alloc: Global,
    graph: &Graph<J>,
    x: bool,
    by_objects: bool,
    set: &SetNode,
    apart: &mut Apart,
    waiting: &mut Vec<Union>,
    budget: &mut usize,
) -> Result<bool, AllocError>
    ensures kept { OnOk result (AreKept apart.old.names apart.new.names) }
    ensures quiet { let w = world J.judgement graph.now in
        IfOk result (λ b. OnTrue b ((l : ℕ → Bool) → Covers l apart.new.names
        → AllQuietBut w l waiting.new.items
        → AllQuietBut w l waiting.old.items × AllMergeBut w l x set.now.own.items)) }
    ensures full { OnOk result (apart.old.room ≡ 0 → apart.new ≡ apart.old) }
    ensures spent { budget.new ≤ budget.old }
{
    for first in first_fields(set) {
        let name = first.response;
        let group = fields_named(sorted_fields(set), name);
        if !is_quiet_group(
            alloc, graph, x, by_objects, name, group, apart, waiting, budget,
        )? {
            return Ok(false);
        }
    }
    Ok(true)
}

/// Whether all that stands in the sets of each union, what they spread written out, is known to merge, names aside that
/// are set apart. `false` says nothing. It takes the fields and sets that it looks at, and what it asks, off the
/// budget, and stops where nothing is left. Fields may be told apart by their object types: then more is known, and
/// some sets are looked at for each type.
///
/// # Errors
///
/// Out of memory.
pub fn are_quiet_but<J: Judge>(
    alloc: Global,
    graph: &Graph<J>,
    unions: Vec<Union>,
    by_objects: bool,
    apart: &mut Apart,
    budget: &mut usize,
) -> Result<bool, AllocError>
    ensures quiet { IfOk result (λ b. OnTrue b ((l : ℕ → Bool) → Covers l apart.new.names
        → AllQuietBut (world J.judgement graph.now) l unions.items)) }
    ensures full { OnOk result (apart.old.room ≡ 0 → apart.new ≡ apart.old) }
    ensures spent { budget.new ≤ budget.old }
    ensures ticks { IfOk result (λ b. OnTrue b (budget.new < budget.old)) }
{
    let mut waiting = unions;
    let mut rest = *budget;
    while rest > 0 {
        rest -= 1;
        let Some(next) = waiting.pop() else {
            *budget = rest;
            return Ok(true);
        };
        let Some((set, size)) = united(alloc, graph, next.sets.as_slice(), rest)? else {
            break;
        };
        rest = rest.saturating_sub(size);
        if !is_quiet_set(
            alloc,
            graph,
            next.flag,
            by_objects,
            &set,
            apart,
            &mut waiting,
            &mut rest,
        )? {
            *budget = rest;
            return Ok(false);
        }
    }
    *budget = rest;
    Ok(false)
}

/// Whether all that stands in the sets of each union, what they spread written out, is known to merge. `false` says
/// nothing. It takes the fields and sets that it looks at, and what it asks, off the budget.
///
/// # Errors
///
/// Out of memory.
pub fn are_quiet<J: Judge>(
    alloc: Global,
    graph: &Graph<J>,
    unions: Vec<Union>,
    by_objects: bool,
    budget: &mut usize,
) -> Result<bool, AllocError>
    ensures quiet { IfOk result (λ b. OnTrue b (AllQuiet (world J.judgement graph.now) unions.items)) }
    ensures spent { budget.new ≤ budget.old }
    ensures ticks { IfOk result (λ b. OnTrue b (budget.new < budget.old)) }
{
    let mut apart = none_apart(alloc, 0);
    let is_quiet = are_quiet_but(alloc, graph, unions, by_objects, &mut apart, budget)?;
    Ok(is_quiet)
}
