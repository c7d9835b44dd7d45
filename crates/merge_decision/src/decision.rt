//! The decision whether all sets of a graph merge.
//!
//! A union of sets is written out, and its fields are grouped by response name. Where the fields of each name agree, the
//! sets below them make unions in turn. Each union is looked at once, and so is each set that stands in one.
ghost use Rattle.std.specs.Prelude.{◌<◌, ◌≤◌, ◌*◌, ◌∷◌, [], ℕ, IfOk, OnOk, false, length};
ghost use Rattle.std.specs.Bool.{OnTrue};
ghost use Rattle.merge_certificates.specs.Quiet.{AreQuiet};
ghost use Rattle.merge_decision.specs.Decided.{HeldFrom, Holds, IsWhole, Keeps};
ghost use Rattle.merge_decision.specs.Size.{graph_size};
ghost use Rattle.merge_sets.specs.World.{world};

use crate::settling::settle_set;
use crate::work::{Work, add_set, no_work, note_held};
use crate::written::{size_of_sets, united, written_out};
use merge_sets::budget::take_questions;
use merge_sets::graph::Graph;
use merge_sets::judge::Judge;
use merge_sets::view::{own, spreads};
use std::alloc::{AllocError, Global};

/// What was decided of a graph.
#[derive(Clone, Copy, Debug)]
pub struct Decision {
    /// Whether all sets are known to merge. `false` says nothing.
    pub merges: bool,
    /// How much was looked at and asked.
    pub looked: usize,
}

// How often each set, field and spread may be looked at.
const EACH: usize = 16;

// Looks at the next union: its fields are settled, and then it is done.
fn settle_next<J: Judge>(
    alloc: Global,
    graph: &Graph<J>,
    work: &mut Work,
) -> Result<bool, AllocError>
    ensures keeps { IfOk result (λ b. OnTrue b (Keeps (world J.judgement graph.now) work.old work.new)) }
    ensures spent { OnOk result (work.new.budget ≤ work.old.budget) }
    ensures less { IfOk result (λ b. OnTrue b (work.new.budget < work.old.budget)) }
{
    let Some(union) = work.unions.get(work.done) else {
        return Ok(false);
    };
    let flag = union.flag;
    let written = written_out(alloc, graph, union.sets.as_slice())?;
    let size = size_of_sets(graph, written.as_slice());
    let set = united(alloc, graph, union.sets.as_slice(), written.as_slice())?;
    if !take_questions(&mut work.budget, size.saturating_add(1)) {
        return Ok(false);
    }
    note_held(&mut work.held, flag, written.as_slice())?;
    if !settle_set(alloc, graph, flag, &set, work)? {
        return Ok(false);
    }
    work.done += 1;
    Ok(true)
}

// Looks at all unions that wait.
fn settle_all<J: Judge>(
    alloc: Global,
    graph: &Graph<J>,
    work: &mut Work,
) -> Result<bool, AllocError>
    ensures keeps { IfOk result (λ b. OnTrue b (Keeps (world J.judgement graph.now) work.old work.new)) }
    ensures done { IfOk result (λ b. OnTrue b (length work.new.unions.items ≤ work.new.done)) }
    ensures spent { OnOk result (work.new.budget ≤ work.old.budget) }
{
    while work.done < work.unions.len() {
        if !settle_next(alloc, graph, work)? {
            return Ok(false);
        }
    }
    Ok(true)
}

// Looks at a set, and at all unions that this leads to.
fn settle_with<J: Judge>(
    alloc: Global,
    graph: &Graph<J>,
    s: usize,
    work: &mut Work,
) -> Result<bool, AllocError>
    requires { IsWhole (world J.judgement graph.now) work.old }
    ensures keeps { IfOk result (λ b. OnTrue b (Keeps (world J.judgement graph.now) work.old work.new)) }
    ensures whole { IfOk result (λ b. OnTrue b (IsWhole (world J.judgement graph.now) work.new)) }
    ensures held { let w = world J.judgement graph.now in
        IfOk result (λ b. OnTrue b (Holds w work.new.unions.items false (s ∷ []))) }
    ensures spent { OnOk result (work.new.budget ≤ work.old.budget) }
{
    add_set(alloc, graph, s, false, work)?;
    let is_done = settle_all(alloc, graph, work)?;
    Ok(is_done)
}

// Looks at all sets, from the last one on: it stands before those that it refers to.
fn settle_sets<J: Judge>(
    alloc: Global,
    graph: &Graph<J>,
    work: &mut Work,
) -> Result<bool, AllocError>
    requires { IsWhole (world J.judgement graph.now) work.old }
    ensures whole { IfOk result (λ b. OnTrue b (IsWhole (world J.judgement graph.now) work.new)) }
    ensures held { let w = world J.judgement graph.now in
        IfOk result (λ b. OnTrue b (HeldFrom w work.new.unions.items 0)) }
    ensures spent { OnOk result (work.new.budget ≤ work.old.budget) }
{
    let mut s = graph.sets.len();
    while s > 0 {
        s -= 1;
        if !settle_with(alloc, graph, s, work)? {
            return Ok(false);
        }
    }
    Ok(true)
}

// How much there is to look at in a graph: its sets, their own fields and their spreads.
fn size_of<J: Judge>(graph: &Graph<J>) -> usize
    ensures { result ≤ graph_size (world J.judgement graph.now) }
{
    let mut size: usize = 0;
    for s in 0..graph.sets.len() {
        let fields = own(graph, s).len();
        let rest = spreads(graph, s).len().saturating_add(1);
        size = size.saturating_add(fields.saturating_add(rest));
    }
    size
}

/// Whether each two fields of one response name merge that stand in a set of the graph, decided by unions of sets.
/// `false` says nothing. It compares no pair, and takes what it looks at and asks off the budget.
///
/// # Errors
///
/// Out of memory.
pub fn decide_within<J: Judge>(
    alloc: Global,
    graph: &Graph<J>,
    budget: &mut usize,
) -> Result<bool, AllocError>
    ensures merges { IfOk result (λ b. OnTrue b ((s : ℕ)
        → AreQuiet (world J.judgement graph.now) false (s ∷ []))) }
    ensures spent { budget.new ≤ budget.old }
    ensures ticks { IfOk result (λ b. OnTrue b (budget.new < budget.old)) }
{
    if !take_questions(budget, 1) {
        return Ok(false);
    }
    let mut work = no_work(alloc, graph.sets.len(), *budget)?;
    *budget = 0;
    let merges = settle_sets(alloc, graph, &mut work)?;
    *budget = work.budget;
    Ok(merges)
}

/// Decides whether all sets of a graph merge. What it looks at and asks is linear in the graph: where that is not
/// enough, nothing is known.
///
/// # Errors
///
/// Out of memory.
pub fn decide<J: Judge>(alloc: Global, graph: &Graph<J>) -> Result<Decision, AllocError>
    ensures merges { IfOk result (λ d. OnTrue d.merges ((s : ℕ)
        → AreQuiet (world J.judgement graph.now) false (s ∷ []))) }
    ensures linear { IfOk result (λ d. d.looked ≤ 16 * graph_size (world J.judgement graph.now)) }
{
    let most = size_of(graph).saturating_mul(EACH);
    let mut budget = most;
    let merges = decide_within(alloc, graph, &mut budget)?;
    Ok(Decision {
        merges,
        looked: most - budget,
    })
}
