//! Fields of one response name of which it is known, of many at once, that what stands below them merges.
ghost use Rattle.std.specs.Prelude.{◌≡◌, ◌⊎◌, ◌<◌, ◌≤◌, ℕ, IfOk, IfSome, None, OnOk, Some};
ghost use Rattle.std.specs.Prelude.{drop, false, length, slice_get, true};
ghost use Rattle.std.specs.Bool.{OnTrue};
ghost use Rattle.std.specs.List.{All, Contains};
ghost use Rattle.merge_certificates.specs.Below.{IsIndexed, IsKnownBelow, IsPassedAt, KnowsBelow, KnowsPairs, KnowsSome};
ghost use Rattle.merge_certificates.specs.Near.{IsApartRow};
ghost use Rattle.merge_certificates.specs.Touched.{KnowsTouched, TellsOfSome};
ghost use Rattle.merge_sets.specs.Clear.{AreLeaves, IsSumWithin, MergeBelow};
ghost use Rattle.merge_certificates.specs.Failing.{AgreeAt, AgreesBy, NoneAgrees};
ghost use Rattle.merge_sets.specs.Merging.{Merges};
ghost use Rattle.merge_sets.specs.World.{world};

use crate::clear::{WIDE, are_clear_below};
use crate::failing::{Numbered, agreeing_at, agrees_by};
use crate::near::{Near, near_of, places_near};
use crate::touched::{Touched, none_touched, touched_below};
use bit_matrix::set::BitSet;
use merge_sets::graph::Graph;
use merge_sets::judge::Judge;
use merge_sets::node::Entry;
use merge_sets::numbers::set_of_numbers;
use std::alloc::{AllocError, Global};

/// What is known of what stands below some fields: that each two of them merge there, or each two at these places, or
/// each two below which no name stands in both that is set apart.
#[derive(Drop)]
pub struct Below {
    pub of_all: bool,
    pub places: BitSet,
    pub touched: Touched,
    pub near: Option<Near>,
}

// How many fields are looked at to see whether much is left to compare.
const SAMPLE: usize = 16;

// The fields at some places.
fn entries_at(alloc: Global, fields: &[Entry], places: &[usize]) -> Result<Vec<Entry>, AllocError>
    ensures { IfOk result (λ v.
        All (λ k. (a : Entry) → slice_get fields.now k ≡ Some a → Contains v.items a) places.now) }
{
    let mut entries = Vec::new(alloc);
    for place in places {
        if *place < fields.len() {
            entries.push(fields[*place])?;
        }
    }
    Ok(entries)
}

// Adds the places from one on, as long as what stands below the fields there is known to merge.
fn add_places<J: Judge>(
    alloc: Global,
    graph: &Graph<J>,
    e: bool,
    fields: &[Entry],
    from: usize,
    to: usize,
    good: &mut Vec<usize>,
    budget: &mut usize,
) -> Result<bool, AllocError>
    ensures merge { let w = world J.judgement graph.now in
        OnOk result (MergeBelow w e fields.now good.old.items → MergeBelow w e fields.now good.new.items) }
    ensures spent { budget.new ≤ budget.old }
{
    let mut more = Vec::from_slice(alloc, good.as_slice())?;
    for k in from..to {
        more.push(k)?;
    }
    let entries = entries_at(alloc, fields, more.as_slice())?;
    let is_clear = are_clear_below(alloc, graph, e, entries.as_slice(), budget)?;
    if !is_clear {
        return Ok(false);
    }
    *good = more;
    Ok(true)
}

// The places of fields below which all merges. Where it doesn't below one more, that one is left out, which takes as
// many looks as the number of fields has digits.
fn good_places<J: Judge>(
    alloc: Global,
    graph: &Graph<J>,
    e: bool,
    fields: &[Entry],
    budget: &mut usize,
) -> Result<Vec<usize>, AllocError>
    ensures merge { IfOk result (λ v. MergeBelow (world J.judgement graph.now) e fields.now v.items) }
    ensures spent { budget.new ≤ budget.old }
    ensures ticks { IfOk result (λ v. 0 < length v.items → budget.new < budget.old) }
{
    let mut good = Vec::new(alloc);
    let mut left = *budget;
    let mut next: usize = 0;
    let mut size = fields.len();
    while left > 0 && next < fields.len() {
        let end = fields.len().min(next.saturating_add(size));
        let mut rest = left.saturating_sub(good.len()).saturating_sub(size);
        let is_good = add_places(alloc, graph, e, fields, next, end, &mut good, &mut rest)?;
        left = rest.min(left - 1);
        if is_good {
            next = end;
            size = size.saturating_mul(2);
        } else if size > 1 {
            size /= 2;
        } else {
            next = next.saturating_add(1);
        }
    }
    *budget = left;
    Ok(good)
}

// All is known, or nothing.
fn all_or_nothing(alloc: Global, of_all: bool) -> Below
    ensures all { (k l : ℕ) → IsKnownBelow result k l → of_all ≡ true }
    ensures indexed { (count : ℕ) → IsIndexed result count }
{
    Below {
        of_all,
        places: BitSet::new(alloc),
        touched: none_touched(alloc),
        near: None,
    }
}

// Whether few fields are left to compare, by some of those that are spread evenly.
fn leaves_few(alloc: Global, fields: &[Entry], below: &Below) -> Result<bool, AllocError> {
    let step = fields.len() / SAMPLE + 1;
    let mut others: usize = 0;
    let mut k = 0;
    while k < fields.len() {
        others = others.saturating_add(others_near(
            alloc,
            fields,
            k,
            k + 1,
            below,
            &[],
            &None,
        )?.len());
        k = k.saturating_add(step);
    }
    Ok(others < fields.len())
}

// Which names stand below each of some fields, for half of the budget at most.
fn touched_by_half<J: Judge>(
    alloc: Global,
    graph: &Graph<J>,
    e: bool,
    fields: &[Entry],
    budget: &mut usize,
) -> Result<Touched, AllocError>
    ensures knows { IfOk result (KnowsTouched (world J.judgement graph.now) e fields.now) }
    ensures spent { budget.new ≤ budget.old }
    ensures ticks { IfOk result (λ touched. TellsOfSome touched → budget.new < budget.old) }
{
    let mut half = *budget / 2;
    let kept = *budget - half;
    let touched = touched_below(alloc, graph, e, fields, &mut half)?;
    *budget = kept + half;
    Ok(touched)
}

// What is known where not all merges.
fn some_known<J: Judge>(
    alloc: Global,
    graph: &Graph<J>,
    e: bool,
    fields: &[Entry],
    budget: &mut usize,
) -> Result<Below, AllocError>
    ensures knows { IfOk result (KnowsBelow (world J.judgement graph.now) e fields.now) }
    ensures indexed { IfOk result (λ below. IsIndexed below (length fields.now)) }
    ensures spent { budget.new ≤ budget.old }
    ensures ticks { IfOk result (λ below. KnowsSome below → budget.new < budget.old) }
{
    let touched = touched_by_half(alloc, graph, e, fields, budget)?;
    let near = near_of(alloc, &touched, fields.len())?;
    let below = Below {
        of_all: false,
        places: BitSet::new(alloc),
        touched,
        near: Some(near),
    };
    if leaves_few(alloc, fields, &below)? {
        return Ok(below);
    }
    let good = good_places(alloc, graph, e, fields, budget)?;
    let places = set_of_numbers(alloc, good.as_slice())?;
    Ok(Below {
        of_all: false,
        places,
        touched: below.touched,
        near: below.near,
    })
}

/// What is known of what stands below some fields, nothing where they are few. What it looks at and asks is taken off
/// the budget.
///
/// # Errors
///
/// Out of memory.
pub fn known_below<J: Judge>(
    alloc: Global,
    graph: &Graph<J>,
    e: bool,
    fields: &[Entry],
    budget: &mut usize,
) -> Result<Below, AllocError>
    ensures knows { IfOk result (KnowsBelow (world J.judgement graph.now) e fields.now) }
    ensures indexed { IfOk result (λ below. IsIndexed below (length fields.now)) }
    ensures spent { budget.new ≤ budget.old }
    ensures ticks { IfOk result (λ below. KnowsSome below → AreLeaves fields.now ⊎ (budget.new < budget.old)) }
{
    if fields.len() < WIDE {
        return Ok(all_or_nothing(alloc, false));
    }
    let of_all = are_clear_below(alloc, graph, e, fields, budget)?;
    if of_all {
        return Ok(all_or_nothing(alloc, true));
    }
    some_known(alloc, graph, e, fields, budget)
}

// Whether it is known that what stands below the fields at two places merges.
fn is_known(below: &Below, near: &Option<BitSet>, k: usize, l: usize, end: usize) -> bool
    requires { l < end }
    ensures { OnTrue result (IfSome near.now (IsApartRow below.now.touched k end) → IsKnownBelow below.now k l) }
{
    if below.of_all {
        return true;
    }
    if below.places.contains(k) && below.places.contains(l) {
        return true;
    }
    let Some(row) = near else {
        return false;
    };
    if row.contains(l) {
        return false;
    }
    true
}

// The places that aren't known to be apart from one, if anything is told of it.
fn row_near(
    alloc: Global,
    below: &Below,
    k: usize,
    end: usize,
) -> Result<Option<BitSet>, AllocError>
    ensures { IfOk result (λ o. IsIndexed below.now end → IfSome o (IsApartRow below.now.touched k end)) }
{
    match &below.near {
        Some(near) => places_near(alloc, &below.touched, near, k, end),
        None => Ok(None),
    }
}

// Whether the fields at two places are known to merge, as what stands below them and their kinds tell.
fn is_passed(
    below: &Below,
    near: &Option<BitSet>,
    numbers: &[Option<usize>],
    agreeing: &Option<BitSet>,
    k: usize,
    l: usize,
    end: usize,
) -> bool
    requires { l < end }
    ensures passed { OnTrue result (IfSome near.now (IsApartRow below.now.touched k end)
        → IsPassedAt below.now numbers.now agreeing.now k l) }
    ensures agrees { OnTrue result (AgreesBy numbers.now agreeing.now l) }
{
    if !agrees_by(numbers, agreeing, l) {
        return false;
    }
    is_known(below, near, k, l, end)
}

// The fields from a place on that aren't known to merge with one. Given are the places that aren't known to be apart
// from it, and the kinds with which it doesn't fail.
fn others_by(
    alloc: Global,
    fields: &[Entry],
    k: usize,
    from: usize,
    below: &Below,
    near: &Option<BitSet>,
    numbers: &[Option<usize>],
    agreeing: &Option<BitSet>,
) -> Result<Vec<Entry>, AllocError>
    ensures rest { IfOk result (λ v. IfSome near.now (IsApartRow below.now.touched k (length fields.now))
        → (l : ℕ) (b : Entry) → from ≤ l → slice_get fields.now l ≡ Some b
        → Contains v.items b ⊎ IsPassedAt below.now numbers.now agreeing.now k l) }
    ensures only { IfOk result (λ v. All (λ b. (l : ℕ) × (from ≤ l) × (slice_get fields.now l ≡ Some b)) v.items) }
    ensures once { IfOk result (λ v. IsSumWithin v.items (drop from fields.now)) }
    ensures every { IfOk result (λ v. NoneAgrees numbers.now agreeing.now
        → length (drop from fields.now) ≤ length v.items) }
{
    let mut others = Vec::new(alloc);
    if below.of_all && agreeing.is_none() {
        return Ok(others);
    }
    for l in from..fields.len() {
        if !is_passed(below, near, numbers, agreeing, k, l, fields.len()) {
            others.push(fields[l])?;
        }
    }
    Ok(others)
}

// The fields from a place on that aren't known to merge with one. Given are the kinds with which it doesn't fail.
fn others_near(
    alloc: Global,
    fields: &[Entry],
    k: usize,
    from: usize,
    below: &Below,
    numbers: &[Option<usize>],
    agreeing: &Option<BitSet>,
) -> Result<Vec<Entry>, AllocError>
    ensures rest { IfOk result (λ v. IsIndexed below.now (length fields.now)
        → (l : ℕ) (b : Entry) → from ≤ l → slice_get fields.now l ≡ Some b
        → Contains v.items b ⊎ IsPassedAt below.now numbers.now agreeing.now k l) }
    ensures only { IfOk result (λ v. All (λ b. (l : ℕ) × (from ≤ l) × (slice_get fields.now l ≡ Some b)) v.items) }
    ensures once { IfOk result (λ v. IsSumWithin v.items (drop from fields.now)) }
    ensures every { IfOk result (λ v. NoneAgrees numbers.now agreeing.now
        → length (drop from fields.now) ≤ length v.items) }
{
    let near = row_near(alloc, below, k, fields.len())?;
    let others = others_by(alloc, fields, k, from, below, &near, numbers, agreeing)?;
    Ok(others)
}

/// The fields from a place on that aren't known to merge with the one at another place. What is asked of their kinds is
/// taken off the budget.
///
/// # Errors
///
/// Out of memory.
pub fn others_from<J: Judge>(
    alloc: Global,
    graph: &Graph<J>,
    e: bool,
    fields: &[Entry],
    k: usize,
    from: usize,
    is_clear: bool,
    below: &Below,
    numbered: &Numbered,
    budget: &mut usize,
) -> Result<Vec<Entry>, AllocError>
    requires { OnTrue is_clear
        (AgreeAt (J.judgement graph.now.judge) e fields.now numbered.now.numbers.items k None) }
    ensures rest { let w = world J.judgement graph.now in IfOk result (λ v.
        KnowsPairs w e fields.now below.now numbered.now → (l : ℕ) (a b : Entry) → from ≤ l
        → slice_get fields.now k ≡ Some a → slice_get fields.now l ≡ Some b → Contains v.items b ⊎ Merges w e a b) }
    ensures only { IfOk result (λ v. All (λ b. (l : ℕ) × (from ≤ l) × (slice_get fields.now l ≡ Some b)) v.items) }
    ensures once { IfOk result (λ v. IsSumWithin v.items (drop from fields.now)) }
    ensures spent { budget.new ≤ budget.old }
    ensures ticks { IfOk result (λ v. is_clear ≡ false → length v.items < length (drop from fields.now)
        → budget.new < budget.old) }
{
    let agreeing = agreeing_at(alloc, graph, e, fields, numbered, k, is_clear, budget)?;
    let numbers = numbered.numbers.as_slice();
    let others = others_near(alloc, fields, k, from, below, numbers, &agreeing)?;
    Ok(others)
}
