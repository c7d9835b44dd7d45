//! The fields of one response name of two sets: each of the one is compared with those of the other that it isn't known
//! to merge with.
ghost use Rattle.std.specs.Prelude.{◌≡◌, ◌⊎◌, ◌<◌, ◌≤◌, IfOk, Some, false, length, slice_get};
ghost use Rattle.bit_matrix.specs.Set.{has};
ghost use Rattle.merge_certificates.specs.Below.{KnowsSome};
ghost use Rattle.merge_certificates.specs.Failing.{TellsSome};
ghost use Rattle.merge_sets.specs.Clear.{AreClearRows, AreLeaves, AreOthers, IsSumWithin};
ghost use Rattle.merge_certificates.specs.TwoSets.{KnowsRows, rights_of};
ghost use Rattle.merge_sets.specs.World.{world};
ghost use Rattle.merge_sets.specs.declared.node.Entry.{Entry};

use crate::below::{Below, known_below, others_from};
use crate::failing::{Numbered, numbered_kinds};
use bit_matrix::set::BitSet;
use merge_sets::graph::Graph;
use merge_sets::judge::Judge;
use merge_sets::node::Entry;
use std::alloc::{AllocError, Global};

/// The fields of the one set, and what is known of them: which merge with all of the other set, and of each two what
/// stands below them and the numbers of their kinds.
#[derive(Drop)]
pub struct Rows {
    pub left: Vec<Entry>,
    /// The rows, and after them the fields of the other set.
    pub fields: Vec<Entry>,
    pub clear: BitSet,
    pub below: Below,
    pub numbered: Numbered,
}

/// The fields of one response name of two sets. Listed are rows that are known to merge with all others. What it looks
/// at and asks is taken off the budget.
///
/// # Errors
///
/// Out of memory.
pub fn rows_of<J: Judge>(
    alloc: Global,
    graph: &Graph<J>,
    e: bool,
    left: &[Entry],
    right: &[Entry],
    clear: BitSet,
    budget: &mut usize,
) -> Result<Rows, AllocError>
    requires { AreClearRows (world J.judgement graph.now) e left.now right.now clear }
    ensures left { IfOk result (λ rows. rows.left.items ≡ left.now) }
    ensures right { IfOk result (λ rows. rights_of rows ≡ right.now) }
    ensures knows { IfOk result (KnowsRows (world J.judgement graph.now) e) }
    ensures spent { budget.new ≤ budget.old }
    ensures below { IfOk result (λ rows. KnowsSome rows.below
        → AreLeaves rows.fields.items ⊎ (budget.new < budget.old)) }
    ensures kinds { IfOk result (λ rows. TellsSome rows.numbered.numbers.items → budget.new < budget.old) }
{
    let rows = Vec::from_slice(alloc, left)?;
    let mut fields = Vec::from_slice(alloc, left)?;
    fields.extend_from_slice(right)?;
    let below = known_below(alloc, graph, e, fields.as_slice(), budget)?;
    let numbered = numbered_kinds(alloc, graph, fields.as_slice(), &clear, budget)?;
    Ok(Rows {
        left: rows,
        fields,
        clear,
        below,
        numbered,
    })
}

/// The fields of the other set that the row at a place isn't known to merge with. What is asked of their kinds is taken
/// off the budget.
///
/// # Errors
///
/// Out of memory.
pub fn others_of<J: Judge>(
    alloc: Global,
    graph: &Graph<J>,
    rows: &Rows,
    e: bool,
    k: usize,
    budget: &mut usize,
) -> Result<Vec<Entry>, AllocError>
    ensures others { let w = world J.judgement graph.now in IfOk result (λ v. (a : Entry) → KnowsRows w e rows.now
        → slice_get rows.now.left.items k ≡ Some a → AreOthers w e a (rights_of rows.now) v.items) }
    ensures once { IfOk result (λ v. IsSumWithin v.items (rights_of rows.now)) }
    ensures spent { budget.new ≤ budget.old }
    ensures ticks { IfOk result (λ v. has rows.now.clear k ≡ false
        → length v.items < length (rights_of rows.now) → budget.new < budget.old) }
{
    if rows.clear.contains(k) {
        return Ok(Vec::new(alloc));
    }
    let others = others_from(
        alloc,
        graph,
        e,
        rows.fields.as_slice(),
        k,
        rows.left.len(),
        false,
        &rows.below,
        &rows.numbered,
        budget,
    )?;
    Ok(others)
}
