//! Response names under which all fields agree, wherever they stand.
ghost use Rattle.std.specs.Prelude.{◌≡◌, ◌∷◌, [], ◌<◌, ◌≤◌, ℕ, Bool, None, OnOk, IfOk, length, true};
ghost use Rattle.std.specs.Bool.{OnTrue};
ghost use Rattle.std.specs.List.{All, Contains};
ghost use Rattle.bit_matrix.specs.Set.{has};
ghost use Rattle.merge_sets.specs.World.{world, own_of};
ghost use Rattle.merge_sets.specs.Firsts.{IsFirst, Notes};
ghost use Rattle.merge_sets.specs.Judgement.{NoneConflict};
ghost use Rattle.merge_sets.specs.Kinds.{IsToldOf};
ghost use Rattle.merge_sets.specs.Plain.{ArePlainBut, HasAllMarked};

use crate::budget::take_questions;
use crate::graph::Graph;
use crate::groups::{fields_named, first_fields, make_set, sorted_fields};
use crate::judge::Judge;
use crate::kinds::agree_by_kinds;
use crate::node::{Entry, SetNode};
use crate::view::own;
use bit_matrix::set::BitSet;
use std::alloc::{AllocError, Global};

/// What the fields seen so far say of their response names.
#[derive(Drop)]
pub struct Seen {
    /// The first field of each response name.
    pub firsts: Vec<Option<usize>>,
    /// The names that have a field that isn't plainly like the first.
    pub mixed: BitSet,
}

// No field was looked through.
fn none_seen(alloc: Global) -> Seen {
    Seen {
        firsts: Vec::new(alloc),
        mixed: BitSet::new(alloc),
    }
}

// Makes a place for the first field of a name.
fn make_place(seen: &mut Seen, name: usize) -> Result<(), AllocError>
    ensures mixed { seen.new.mixed ≡ seen.old.mixed }
    ensures kept { (n one : ℕ) → IsFirst seen.old n one → IsFirst seen.new n one }
    ensures room { OnOk result (name < length seen.new.firsts.items) }
{
    while seen.firsts.len() <= name {
        seen.firsts.push(None)?;
    }
    Ok(())
}

// The first field of a field's response name: the field itself, if it is the first.
fn first_like(seen: &mut Seen, field: Entry) -> Result<usize, AllocError>
    ensures mixed { seen.new.mixed ≡ seen.old.mixed }
    ensures kept { (n one : ℕ) → IsFirst seen.old n one → IsFirst seen.new n one }
    ensures first { IfOk result (λ one. IsFirst seen.new field.response one) }
{
    make_place(seen, field.response)?;
    match seen.firsts[field.response] {
        Some(one) => Ok(one),
        None => {
            seen.firsts[field.response] = Some(field.field);
            Ok(field.field)
        }
    }
}

// Looks at a field, which is taken off the budget. Of a name that is marked no more need be known.
fn note_field<J: Judge>(
    graph: &Graph<J>,
    field: Entry,
    seen: &mut Seen,
    budget: &mut usize,
) -> Result<(), AllocError>
    ensures notes { OnOk result (Notes (J.are_alike graph.now.judge) (field ∷ []) seen.old seen.new) }
    ensures spent { budget.new ≤ budget.old }
    ensures ticks { OnOk result (0 < budget.old → budget.new < budget.old) }
{
    let may_ask = take_questions(budget, 1);
    if seen.mixed.contains(field.response) {
        return Ok(());
    }
    let one = first_like(seen, field)?;
    if !may_ask || !graph.judge.is_plainly_like(one, field.field) {
        seen.mixed.insert(field.response)?;
    }
    Ok(())
}

// Looks at the own fields of a set.
fn note_own<J: Judge>(
    graph: &Graph<J>,
    s: usize,
    seen: &mut Seen,
    budget: &mut usize,
) -> Result<(), AllocError>
    ensures notes { let w = world J.judgement graph.now in
        OnOk result (Notes (J.are_alike graph.now.judge) (own_of w s) seen.old seen.new) }
    ensures spent { budget.new ≤ budget.old }
    ensures ticks { let w = world J.judgement graph.now in
        OnOk result (0 < length (own_of w s) → 0 < budget.old → budget.new < budget.old) }
{
    for field in own(graph, s) {
        note_field(graph, *field, seen, budget)?;
    }
    Ok(())
}

// The response names that have a field which isn't plainly like the first. Each field is compared with that one alone.
fn unlike_names<J: Judge>(
    alloc: Global,
    graph: &Graph<J>,
    budget: &mut usize,
) -> Result<BitSet, AllocError>
    ensures names { IfOk result (ArePlainBut (world J.judgement graph.now)) }
    ensures spent { budget.new ≤ budget.old }
    ensures ticks { let w = world J.judgement graph.now in OnOk result ((s : ℕ) → 0 < length (own_of w s)
        → 0 < budget.old → budget.new < budget.old) }
{
    let mut seen = none_seen(alloc);
    for s in 0..graph.sets.len() {
        note_own(graph, s, &mut seen, budget)?;
    }
    Ok(seen.mixed)
}

// Adds a field whose name is marked.
fn add_marked(field: Entry, marked: &BitSet, fields: &mut Vec<Entry>) -> Result<(), AllocError>
    ensures there { OnOk result (has marked.now field.response ≡ true → Contains fields.new.items field) }
    ensures kept { OnOk result ((a : Entry) → Contains fields.old.items a → Contains fields.new.items a) }
{
    if !marked.contains(field.response) {
        return Ok(());
    }
    fields.push(field)?;
    Ok(())
}

// Adds the own fields of a set whose names are marked.
fn add_own<J: Judge>(
    graph: &Graph<J>,
    s: usize,
    marked: &BitSet,
    fields: &mut Vec<Entry>,
) -> Result<(), AllocError>
    ensures there { let w = world J.judgement graph.now in OnOk result ((a : Entry) → Contains (own_of w s) a
        → has marked.now a.response ≡ true → Contains fields.new.items a) }
    ensures kept { OnOk result ((a : Entry) → Contains fields.old.items a → Contains fields.new.items a) }
{
    for field in own(graph, s) {
        add_marked(*field, marked, fields)?;
    }
    Ok(())
}

// All fields whose names are marked.
fn marked_fields<J: Judge>(
    alloc: Global,
    graph: &Graph<J>,
    marked: &BitSet,
) -> Result<Vec<Entry>, AllocError>
    ensures { IfOk result (λ v. HasAllMarked (world J.judgement graph.now) marked.now v.items) }
{
    let mut fields = Vec::new(alloc);
    for s in 0..graph.sets.len() {
        add_own(graph, s, marked, &mut fields)?;
    }
    Ok(fields)
}

// Whether it is known by their kinds that no two fields fail with each other, whatever the flag.
fn agree_always<J: Judge>(
    alloc: Global,
    graph: &Graph<J>,
    fields: &[Entry],
    budget: &mut usize,
) -> Result<bool, AllocError>
    ensures agree { IfOk result (λ b. OnTrue b
        ((e : Bool) → NoneConflict (J.judgement graph.now.judge) e fields.now fields.now)) }
    ensures spent { budget.new ≤ budget.old }
{
    if !agree_by_kinds(alloc, graph, false, fields, fields, budget)? {
        return Ok(false);
    }
    agree_by_kinds(alloc, graph, true, fields, fields, budget)
}

// Marks a response name of a set, unless it is known by their kinds that no two of its fields fail with each other.
fn mark_name<J: Judge>(
    alloc: Global,
    graph: &Graph<J>,
    set: &SetNode,
    name: usize,
    mixed: &mut BitSet,
    budget: &mut usize,
) -> Result<(), AllocError>
    ensures told { OnOk result (IsToldOf (J.judgement graph.now.judge) set.now.own.items mixed.new name) }
    ensures kept { OnOk result ((n : ℕ) → has mixed.old n ≡ true → has mixed.new n ≡ true) }
    ensures spent { budget.new ≤ budget.old }
{
    let group = fields_named(sorted_fields(set), name);
    if agree_always(alloc, graph, group, budget)? {
        return Ok(());
    }
    mixed.insert(name)?;
    Ok(())
}

// The response names of a set of which two fields may fail with each other.
fn marked_names<J: Judge>(
    alloc: Global,
    graph: &Graph<J>,
    set: &SetNode,
    budget: &mut usize,
) -> Result<BitSet, AllocError>
    ensures told { IfOk result (λ mixed. All
        (λ a. IsToldOf (J.judgement graph.now.judge) set.now.own.items mixed a.response) set.now.own.items) }
    ensures spent { budget.new ≤ budget.old }
{
    let mut mixed = BitSet::new(alloc);
    for first in first_fields(set) {
        mark_name(alloc, graph, set, first.response, &mut mixed, budget)?;
    }
    Ok(mixed)
}

/// Lists the response names of which two fields may conflict. All others are plain.
///
/// Each field is compared with the first one of its name, and where they are not alike, with those of other kinds. What
/// is asked is taken off the budget, and where that hasn't enough, more names are listed.
///
/// # Errors
///
/// Out of memory.
pub fn mixed_names<J: Judge>(
    alloc: Global,
    graph: &Graph<J>,
    budget: &mut usize,
) -> Result<BitSet, AllocError>
    ensures names { IfOk result (ArePlainBut (world J.judgement graph.now)) }
    ensures spent { budget.new ≤ budget.old }
    ensures ticks { let w = world J.judgement graph.now in OnOk result ((s : ℕ) → 0 < length (own_of w s)
        → 0 < budget.old → budget.new < budget.old) }
{
    let unlike = unlike_names(alloc, graph, budget)?;
    let fields = marked_fields(alloc, graph, &unlike)?;
    let set = make_set(alloc, fields, Vec::new(alloc))?;
    let mixed = marked_names(alloc, graph, &set, budget)?;
    Ok(mixed)
}
