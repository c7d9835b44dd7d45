//! The unions of a decision.
ghost use Rattle.std.specs.Prelude.{◌≡◌, ◌⊎◌, ◌∷◌, [], ℕ, IfOk, OnOk, false, true};
ghost use Rattle.std.specs.Bool.{OnTrue};
ghost use Rattle.std.specs.List.{Contains};
ghost use Rattle.bit_matrix.specs.Set.{has};
ghost use Rattle.merge_decision.specs.Decided.{Adds, AddsAll, IsThere};
ghost use Rattle.merge_decision.specs.Held.{IsWithin};
ghost use Rattle.merge_sets.specs.World.{World, world};

use bit_matrix::set::BitSet;
use merge_certificates::unions::Union;
use merge_sets::graph::Graph;
use merge_sets::judge::Judge;
use merge_sets::view::{own, set, spreads};
use std::alloc::{AllocError, Global};

/// The unions that were found, each to be looked at once, and what is known of them.
#[derive(Drop)]
pub struct Work {
    /// Those that are done stand first.
    pub unions: Vec<Union>,
    /// How many are done.
    pub done: usize,
    /// The sets that a union without the flag holds.
    pub held: BitSet,
    /// The number of the latest union, for each place that unions share by their sets.
    pub places: Vec<usize>,
    /// How much may still be looked at and asked.
    pub budget: usize,
}

// Spreads the numbers of sets over the places.
const FACTOR: usize = 1_000_003;

/// No union, and so many places for some.
///
/// # Errors
///
/// Out of memory.
pub fn no_work(alloc: Global, places: usize, budget: usize) -> Result<Work, AllocError>
    ensures unions { IfOk result (λ work. work.unions.items ≡ []) }
    ensures done { IfOk result (λ work. work.done ≡ 0) }
    ensures held { IfOk result (λ work. (n : ℕ) → has work.held n ≡ false) }
    ensures budget { IfOk result (λ work. work.budget ≡ budget) }
{
    let mut list = Vec::new(alloc);
    list.resize(places, usize::MAX)?;
    Ok(Work {
        unions: Vec::new(alloc),
        done: 0,
        held: BitSet::new(alloc),
        places: list,
        budget,
    })
}

// The place of a union, of so many.
fn place_of(union: &Union, places: usize) -> usize {
    let mut sum: usize = if union.flag { 1 } else { 2 };
    for s in union.sets.as_slice() {
        sum = sum.wrapping_mul(FACTOR).wrapping_add(*s);
    }
    sum % places.max(1)
}

// Whether two lists have the same numbers.
fn are_same(left: &[usize], right: &[usize]) -> bool
    ensures { OnTrue result (left.now ≡ right.now) }
{
    left == right
}

// Whether the union that has the place is one of the same sets.
fn is_there(work: &Work, place: usize, union: &Union) -> bool
    ensures { OnTrue result (IsThere work.now.unions.items union.now.flag union.now.sets.items) }
{
    let Some(k) = work.places.get(place) else {
        return false;
    };
    let Some(other) = work.unions.get(*k) else {
        return false;
    };
    if other.flag != union.flag {
        return false;
    }
    are_same(other.sets.as_slice(), union.sets.as_slice())
}

// Gives a place to a number.
fn take_place(places: &mut [usize], place: usize, number: usize) {
    if let Some(k) = places.get_mut(place) {
        *k = number;
    }
}

// Adds some numbers to a set.
fn insert_all(held: &mut BitSet, sets: &[usize]) -> Result<(), AllocError>
    ensures { OnOk result ((t : ℕ) → has held.new t ≡ true → (has held.old t ≡ true) ⊎ Contains sets.now t) }
{
    for s in sets {
        held.insert(*s)?;
    }
    Ok(())
}

/// Notes the sets that a union holds, if it has no flag.
///
/// # Errors
///
/// Out of memory.
pub fn note_held(held: &mut BitSet, flag: bool, sets: &[usize]) -> Result<(), AllocError>
    ensures { OnOk result ((t : ℕ) → has held.new t ≡ true
        → (has held.old t ≡ true) ⊎ ((flag ≡ false) × Contains sets.now t)) }
{
    if flag {
        return Ok(());
    }
    insert_all(held, sets)
}

/// Adds a union, unless it is there.
///
/// # Errors
///
/// Out of memory.
pub fn add_union(union: Union, work: &mut Work) -> Result<(), AllocError>
    ensures { OnOk result ((w : World) → Adds w union.flag union.sets.items work.old work.new) }
{
    let place = place_of(&union, work.places.len());
    if is_there(work, place, &union) {
        return Ok(());
    }
    note_held(&mut work.held, union.flag, union.sets.as_slice())?;
    let number = work.unions.len();
    take_place(&mut work.places, place, number);
    work.unions.push(union)?;
    Ok(())
}

/// Adds some unions, unless they are there.
///
/// # Errors
///
/// Out of memory.
pub fn add_unions(unions: Vec<Union>, work: &mut Work) -> Result<(), AllocError>
    ensures { OnOk result ((w : World) → AddsAll w unions.items work.old work.new) }
{
    let mut rest = unions;
    while let Some(union) = rest.pop() {
        add_union(union, work)?;
    }
    Ok(())
}

// The set of a fragment, in place of one that only spreads it.
fn inmost<J: Judge>(graph: &Graph<J>, s: usize) -> usize
    ensures { IsWithin (world J.judgement graph.now) s result }
{
    if !own(graph, s).is_empty() {
        return s;
    }
    match spreads(graph, s) {
        [f] => set(graph, *f),
        _ => s,
    }
}

/// Adds a union of one set, unless some union holds the set.
///
/// # Errors
///
/// Out of memory.
pub fn add_set<J: Judge>(
    alloc: Global,
    graph: &Graph<J>,
    s: usize,
    flag: bool,
    work: &mut Work,
) -> Result<(), AllocError>
    ensures { OnOk result (Adds (world J.judgement graph.now) flag (s ∷ []) work.old work.new) }
{
    let inner = inmost(graph, s);
    if work.held.contains(inner) {
        return Ok(());
    }
    let mut sets = Vec::new(alloc);
    sets.push(inner)?;
    add_union(Union { sets, flag }, work)?;
    Ok(())
}
