//! Fields that fail with one of some, told by their kinds.
ghost use Rattle.std.specs.Prelude.{◌≡◌, ◌⊎◌, ◌<◌, ◌≤◌, IfOk, IfSome, None, Some, false, get_or, length};
ghost use Rattle.std.specs.Bool.{OnTrue};
ghost use Rattle.merge_certificates.specs.Failing.{AgreeAt, AgreeKinds, AgreesBy, AreNumbered, IsKindAt, IsNumberIn};
ghost use Rattle.merge_certificates.specs.Failing.{IsEmpty, NoneAgrees, StandFor, TellsSome};
ghost use Rattle.merge_sets.specs.Budget.{Asks};

use bit_matrix::set::BitSet;
use merge_sets::budget::take_questions;
use merge_sets::graph::Graph;
use merge_sets::judge::Judge;
use merge_sets::kinds::{FEW, MOST, are_all_in, kinds_of};
use merge_sets::node::Entry;
use std::alloc::{AllocError, Global};

/// A field of each kind among some, and the number of its kind for each field, where it is known.
#[derive(Drop)]
pub struct Numbered {
    pub kinds: Vec<usize>,
    pub numbers: Vec<Option<usize>>,
}

// The number of the kind of a field, if it is among these.
fn number_of<J: Judge>(
    graph: &Graph<J>,
    kinds: &[usize],
    field: usize,
    budget: &mut usize,
) -> Option<usize>
    ensures kind { IfSome result (λ i. IsKindAt (J.are_kin graph.now.judge) kinds.now field i) }
    ensures asks { Asks (length kinds.now) (result ≡ None) budget.old budget.new }
    ensures spent { budget.new ≤ budget.old }
{
    if !take_questions(budget, kinds.len()) {
        return None;
    }
    for i in 0..kinds.len() {
        if graph.judge.is_kin(kinds[i], field) {
            return Some(i);
        }
    }
    None
}

// The number of the kind of each field.
fn numbers_of<J: Judge>(
    alloc: Global,
    graph: &Graph<J>,
    kinds: &[usize],
    fields: &[Entry],
    budget: &mut usize,
) -> Result<Vec<Option<usize>>, AllocError>
    ensures numbers { IfOk result (λ v. AreNumbered (J.are_kin graph.now.judge) kinds.now fields.now v.items) }
    ensures spent { budget.new ≤ budget.old }
    ensures ticks { IfOk result (λ v. TellsSome v.items → budget.new < budget.old) }
{
    let mut numbers = Vec::new(alloc);
    for k in 0..fields.len() {
        numbers.push(number_of(graph, kinds, fields[k].field, budget))?;
    }
    Ok(numbers)
}

/// The kinds of some fields by number. Nothing is told where there are few fields, or too many kinds, or where all
/// places are listed. What is asked is taken off the budget, and where that hasn't enough, less is told.
///
/// # Errors
///
/// Out of memory.
pub fn numbered_kinds<J: Judge>(
    alloc: Global,
    graph: &Graph<J>,
    fields: &[Entry],
    listed: &BitSet,
    budget: &mut usize,
) -> Result<Numbered, AllocError>
    ensures stand { IfOk result (λ n.
        StandFor (J.judgement graph.now.judge) n.kinds.items fields.now n.numbers.items) }
    ensures spent { budget.new ≤ budget.old }
    ensures ticks { IfOk result (λ n. TellsSome n.numbers.items → budget.new < budget.old) }
{
    let none = Numbered {
        kinds: Vec::new(alloc),
        numbers: Vec::new(alloc),
    };
    if fields.len() < FEW || are_all_in(listed, fields.len()) {
        return Ok(none);
    }
    let most = MOST.min(fields.len() / 4);
    let Some(kinds) = kinds_of(alloc, graph, fields, most, budget)? else {
        return Ok(none);
    };
    let numbers = numbers_of(alloc, graph, kinds.as_slice(), fields, budget)?;
    Ok(Numbered { kinds, numbers })
}

// The numbers of the kinds with which a field doesn't fail.
fn agreeing_kinds<J: Judge>(
    alloc: Global,
    graph: &Graph<J>,
    e: bool,
    one: usize,
    kinds: &[usize],
    budget: &mut usize,
) -> Result<BitSet, AllocError>
    ensures agree { IfOk result (λ set. AgreeKinds (J.judgement graph.now.judge) e one kinds.now set) }
    ensures asks { IfOk result (λ set. Asks (length kinds.now) (IsEmpty set) budget.old budget.new) }
    ensures spent { budget.new ≤ budget.old }
{
    let mut set = BitSet::new(alloc);
    if !take_questions(budget, kinds.len()) {
        return Ok(set);
    }
    for i in 0..kinds.len() {
        if !graph.judge.are_in_conflict(e, one, kinds[i])? {
            set.insert(i)?;
        }
    }
    Ok(set)
}

// The number at a place, if it is known.
fn number_at(numbers: &[Option<usize>], k: usize) -> Option<usize>
    ensures { IfSome result (λ i. get_or numbers.now k None ≡ Some i) }
{
    let Some(told) = numbers.get(k) else {
        return None;
    };
    *told
}

// Whether the number at a place is known, and in a set.
fn is_number_in(numbers: &[Option<usize>], set: &BitSet, l: usize) -> bool
    ensures { OnTrue result (IsNumberIn numbers.now set.now l) }
{
    match number_at(numbers, l) {
        Some(i) => set.contains(i),
        None => false,
    }
}

// The numbers of the kinds with which the field at a place doesn't fail; none where its own isn't known.
fn agreeing_with<J: Judge>(
    alloc: Global,
    graph: &Graph<J>,
    e: bool,
    fields: &[Entry],
    numbered: &Numbered,
    k: usize,
    budget: &mut usize,
) -> Result<BitSet, AllocError>
    ensures agree { let j = J.judgement graph.now.judge in let n = numbered.now in
        IfOk result (λ set. StandFor j n.kinds.items fields.now n.numbers.items
        → AgreeAt j e fields.now n.numbers.items k (Some set)) }
    ensures spent { budget.new ≤ budget.old }
    ensures ticks { IfOk result (λ set. IsEmpty set ⊎ (budget.new < budget.old)) }
{
    let Some(i) = number_at(numbered.numbers.as_slice(), k) else {
        return Ok(BitSet::new(alloc));
    };
    let Some(one) = numbered.kinds.get(i) else {
        return Ok(BitSet::new(alloc));
    };
    let set = agreeing_kinds(alloc, graph, e, *one, numbered.kinds.as_slice(), budget)?;
    Ok(set)
}

/// The numbers of the kinds with which the field at a place doesn't fail. None where it is known to fail with no field.
/// What is asked is taken off the budget, and where that hasn't enough, no number is told.
///
/// # Errors
///
/// Out of memory.
pub fn agreeing_at<J: Judge>(
    alloc: Global,
    graph: &Graph<J>,
    e: bool,
    fields: &[Entry],
    numbered: &Numbered,
    k: usize,
    is_clear: bool,
    budget: &mut usize,
) -> Result<Option<BitSet>, AllocError>
    requires { OnTrue is_clear
        (AgreeAt (J.judgement graph.now.judge) e fields.now numbered.now.numbers.items k None) }
    ensures agree { let j = J.judgement graph.now.judge in let n = numbered.now in
        IfOk result (λ agreeing. StandFor j n.kinds.items fields.now n.numbers.items
        → AgreeAt j e fields.now n.numbers.items k agreeing) }
    ensures spent { budget.new ≤ budget.old }
    ensures ticks { IfOk result (λ agreeing. is_clear ≡ false
        → NoneAgrees numbered.now.numbers.items agreeing ⊎ (budget.new < budget.old)) }
{
    if is_clear {
        return Ok(None);
    }
    let set = agreeing_with(alloc, graph, e, fields, numbered, k, budget)?;
    Ok(Some(set))
}

/// Whether the number at a place is known, and in a set, if there is one.
pub fn agrees_by(numbers: &[Option<usize>], agreeing: &Option<BitSet>, l: usize) -> bool
    ensures { OnTrue result (AgreesBy numbers.now agreeing.now l) }
{
    match agreeing {
        Some(set) => is_number_in(numbers, set, l),
        None => true,
    }
}
