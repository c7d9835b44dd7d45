//! Which of some response names stand below fields, at any depth.
//!
//! Two fields below which no name stands in both of those that are set apart have nothing to find there.
ghost use Rattle.std.specs.Prelude.{◌≡◌, ◌<◌, ◌≤◌, [], ℕ, Vec, IfOk, IfSome, OnOk, Some, false, true};
ghost use Rattle.std.specs.declared.alloc.Global.{Global};
ghost use Rattle.std.specs.Bool.{OnTrue};
ghost use Rattle.std.specs.List.{All, Contains};
ghost use Rattle.bit_matrix.specs.Set.{has};
ghost use Rattle.merge_certificates.specs.Quiet.{AreKept};
ghost use Rattle.merge_certificates.specs.Touched.{AreApartAt, AreListedAt, AreTouched, IsFreeOf, KnowsTouched};
ghost use Rattle.merge_certificates.specs.Touched.{ListsAll, ListsBelow, TellsOfSome, told_at};
ghost use Rattle.merge_sets.specs.World.{world};

use crate::quiet::{add_sets, are_quiet_but, none_apart};
use crate::unions::{sets_below, unions_below};
use bit_matrix::set::BitSet;
use merge_sets::graph::Graph;
use merge_sets::judge::Judge;
use merge_sets::node::Entry;
use merge_sets::view::{own, spreads};
use std::alloc::{AllocError, Global};

// Where more of the names stand below a field, nothing is told of it.
const MOST: usize = 8;

/// Which names stand below each of some fields; None where there is more to look at than it is worth.
#[derive(Drop)]
pub struct Touched {
    pub lists: Vec<Option<Vec<usize>>>,
}

// Adds those response names of some fields that are among others.
fn add_names(fields: &[Entry], names: &BitSet, found: &mut Vec<usize>) -> Result<(), AllocError>
    ensures kept { OnOk result ((n : ℕ) → Contains found.old.items n → Contains found.new.items n) }
    ensures added { OnOk result
        (All (λ c. has names.now c.response ≡ true → Contains found.new.items c.response) fields.now) }
{
    for field in fields {
        add_name(names, field.response, found)?;
    }
    Ok(())
}

// Adds a name, if it is among others.
fn add_name(names: &BitSet, name: usize, found: &mut Vec<usize>) -> Result<(), AllocError>
    ensures kept { OnOk result ((n : ℕ) → Contains found.old.items n → Contains found.new.items n) }
    ensures added { OnOk result (has names.now name ≡ true → Contains found.new.items name) }
{
    if !names.contains(name) {
        return Ok(());
    }
    if is_listed(found.as_slice(), name) {
        return Ok(());
    }
    found.push(name)?;
    Ok(())
}

// Whether a number is in a list.
fn is_listed(list: &[usize], number: usize) -> bool
    ensures yes { result ≡ true → Contains list.now number }
    ensures no { result ≡ false → Contains list.now number → ⊥ }
{
    for other in list {
        if *other == number {
            return true;
        }
    }
    false
}

// The names, of some, that stand in some sets or below, if these are no more than `most`. It takes what it looks at off
// the budget; none where that isn't enough.
fn names_in<J: Judge>(
    alloc: Global,
    graph: &Graph<J>,
    sets: Vec<usize>,
    names: &BitSet,
    most: usize,
    budget: &mut usize,
) -> Result<Option<Vec<usize>>, AllocError>
    ensures names { let w = world J.judgement graph.now in IfOk result (λ o. IfSome o (λ v.
        All (λ s. ListsAll w names.now s v.items) sets.items)) }
    ensures spent { budget.new ≤ budget.old }
{
    let mut waiting = sets;
    let mut found = Vec::new(alloc);
    let mut rest = *budget;
    while rest > 0 && found.len() <= most {
        let Some(next) = waiting.pop() else {
            *budget = rest;
            return Ok(Some(found));
        };
        let fields = own(graph, next);
        rest = (rest - 1).saturating_sub(fields.len());
        add_names(fields, names, &mut found)?;
        let below = sets_below(alloc, fields)?;
        waiting.extend_from_slice(below.as_slice())?;
        add_sets(graph, spreads(graph, next), &mut waiting)?;
    }
    *budget = rest;
    Ok(None)
}

// The names, of some, that stand below a field.
fn names_below<J: Judge>(
    alloc: Global,
    graph: &Graph<J>,
    field: Entry,
    names: &BitSet,
    budget: &mut usize,
) -> Result<Option<Vec<usize>>, AllocError>
    ensures names { let w = world J.judgement graph.now in
        IfOk result (λ o. IfSome o (λ v. ListsBelow w names.now field v.items)) }
    ensures spent { budget.new ≤ budget.old }
{
    let mut sets = Vec::new(alloc);
    if let Some(s) = field.below {
        sets.push(s)?;
    }
    names_in(alloc, graph, sets, names, MOST, budget)
}

// Which of some names stand below each of some fields.
fn names_below_each<J: Judge>(
    alloc: Global,
    graph: &Graph<J>,
    fields: &[Entry],
    names: &BitSet,
    budget: &mut usize,
) -> Result<Touched, AllocError>
    ensures touched { IfOk result (AreTouched (world J.judgement graph.now) names.now fields.now) }
    ensures spent { budget.new ≤ budget.old }
{
    let mut lists = Vec::new(alloc);
    for k in 0..fields.len() {
        lists.push(names_below(alloc, graph, fields[k], names, budget)?)?;
    }
    Ok(Touched { lists })
}

/// Of no field is anything told.
pub fn none_touched(alloc: Global) -> Touched
    ensures { result.lists.items ≡ [] }
{
    Touched {
        lists: Vec::new(alloc),
    }
}

/// Which names stand below each of some fields, of those that have to be set apart so that all others merge there. What
/// it looks at and asks is taken off the budget.
///
/// # Errors
///
/// Out of memory.
pub fn touched_below<J: Judge>(
    alloc: Global,
    graph: &Graph<J>,
    e: bool,
    fields: &[Entry],
    budget: &mut usize,
) -> Result<Touched, AllocError>
    ensures knows { IfOk result (KnowsTouched (world J.judgement graph.now) e fields.now) }
    ensures spent { budget.new ≤ budget.old }
    ensures ticks { IfOk result (λ touched. TellsOfSome touched → budget.new < budget.old) }
{
    let mut apart = none_apart(alloc, fields.len());
    let mut unions = Vec::new(alloc);
    unions_below(alloc, graph, e, true, fields, &mut unions)?;
    let is_known = are_quiet_but(alloc, graph, unions, true, &mut apart, budget)?;
    if !is_known {
        return Ok(none_touched(alloc));
    }
    names_below_each(alloc, graph, fields, &apart.names, budget)
}

/// The names that are listed at a place, if it is told.
pub fn names_at(touched: &Touched, k: usize) -> Option<&[usize]>
    ensures { IfSome result (λ l. (v : Vec ℕ Global) × (told_at touched.now k ≡ Some v) × (l.now ≡ v.items)) }
{
    let Some(told) = touched.lists.get(k) else {
        return None;
    };
    match told {
        Some(names) => Some(names.as_slice()),
        None => None,
    }
}

// Adds numbers to a set.
fn add_all(list: &[usize], names: &mut BitSet) -> Result<(), AllocError>
    ensures kept { OnOk result (AreKept names.old names.new) }
    ensures added { OnOk result (All (λ n. has names.new n ≡ true) list.now) }
{
    for number in list {
        names.insert(*number)?;
    }
    Ok(())
}

// All names that are listed at places, or none where a place isn't told.
fn names_from(
    alloc: Global,
    touched: &Touched,
    from: usize,
    to: usize,
) -> Result<Option<BitSet>, AllocError>
    ensures { IfOk result (λ o. IfSome o (AreListedAt touched.now from to)) }
{
    let mut names = BitSet::new(alloc);
    for l in from..to {
        let Some(list) = names_at(touched, l) else {
            return Ok(None);
        };
        add_all(list, &mut names)?;
    }
    Ok(Some(names))
}

// Whether none of some numbers is in a set.
fn has_none(list: &[usize], names: &BitSet) -> bool
    ensures { OnTrue result (All (λ n. has names.now n ≡ false) list.now) }
{
    for number in list {
        if names.contains(*number) {
            return false;
        }
    }
    true
}

// Whether a place is told, and none of some names is listed there.
fn is_free_of(touched: &Touched, k: usize, names: &BitSet) -> bool
    ensures { OnTrue result (IsFreeOf touched.now k names.now) }
{
    match names_at(touched, k) {
        Some(list) => has_none(list, names),
        None => false,
    }
}

/// Those of the first so many places at which no name is listed that is listed at one of the places after them.
///
/// # Errors
///
/// Out of memory.
pub fn rows_apart(
    alloc: Global,
    touched: &Touched,
    count: usize,
    end: usize,
) -> Result<BitSet, AllocError>
    ensures { IfOk result (λ rows. (k l : ℕ) → has rows k ≡ true → count ≤ l → l < end → AreApartAt touched.now k l) }
{
    let mut rows = BitSet::new(alloc);
    let Some(names) = names_from(alloc, touched, count, end)? else {
        return Ok(rows);
    };
    for k in 0..count {
        if is_free_of(touched, k, &names) {
            rows.insert(k)?;
        }
    }
    Ok(rows)
}
