//! Sets written out: with those of all fragments that they reach.
ghost use Rattle.std.specs.Prelude.{◌≡◌, ◌<◌, ◌⊎◌, ℕ, IfOk, length};
ghost use Rattle.std.specs.List.{All, Contains};
ghost use Rattle.merge_certificates.specs.Quiet.{AreWrittenOut, HoldAll};
ghost use Rattle.merge_decision.specs.Held.{IsHeld, AreSpread};
ghost use Rattle.merge_sets.specs.World.{world, own_of, set_of, spreads_of};

use merge_certificates::quiet::add_sets;
use merge_sets::graph::Graph;
use merge_sets::groups::make_set;
use merge_sets::judge::Judge;
use merge_sets::node::{Entry, SetNode};
use merge_sets::opening::{no_opening, open_reached};
use merge_sets::view::{own, set, spreads};
use std::alloc::{AllocError, Global};

// The fragments that some sets spread.
fn spreads_in<J: Judge>(
    alloc: Global,
    graph: &Graph<J>,
    sets: &[usize],
) -> Result<Vec<usize>, AllocError>
    ensures all { let w = world J.judgement graph.now in
        IfOk result (λ v. All (λ s. All (λ f. Contains v.items f) (spreads_of w s)) sets.now) }
    ensures spread { IfOk result (λ v. AreSpread (world J.judgement graph.now) sets.now v.items) }
    ensures there { IfOk result (λ v. All (λ f. f < length graph.now.fragments.items) v.items) }
{
    let mut fragments = Vec::new(alloc);
    for s in sets {
        fragments.extend_from_slice(spreads(graph, *s))?;
    }
    Ok(fragments)
}

/// Some sets, and those of all fragments that they reach.
///
/// # Errors
///
/// Out of memory.
pub fn written_out<J: Judge>(
    alloc: Global,
    graph: &Graph<J>,
    sets: &[usize],
) -> Result<Vec<usize>, AllocError>
    ensures out { IfOk result (λ v. AreWrittenOut (world J.judgement graph.now) sets.now v.items) }
    ensures held { let w = world J.judgement graph.now in IfOk result (λ v. All (IsHeld w sets.now) v.items) }
{
    let starts = spreads_in(alloc, graph, sets)?;
    let mut written = Vec::from_slice(alloc, sets)?;
    if starts.is_empty() {
        return Ok(written);
    }
    let mut opening = no_opening(alloc);
    open_reached(graph, starts.as_slice(), &mut opening)?;
    add_sets(graph, opening.order.as_slice(), &mut written)?;
    Ok(written)
}

/// How much there is to look at in some sets: each of them, its own fields and its spreads.
pub fn size_of_sets<J: Judge>(graph: &Graph<J>, sets: &[usize]) -> usize {
    let mut size: usize = 0;
    for s in sets {
        size = size
            .saturating_add(own(graph, *s).len())
            .saturating_add(spreads(graph, *s).len())
            .saturating_add(1);
    }
    size
}

// The own fields of some sets.
fn own_fields<J: Judge>(
    alloc: Global,
    graph: &Graph<J>,
    sets: &[usize],
) -> Result<Vec<Entry>, AllocError>
    ensures { let w = world J.judgement graph.now in
        IfOk result (λ v. All (λ s. (a : Entry) → Contains (own_of w s) a → Contains v.items a) sets.now) }
{
    let mut fields = Vec::new(alloc);
    for s in sets {
        fields.extend_from_slice(own(graph, *s))?;
    }
    Ok(fields)
}

/// The own fields of sets that are written out, as those of one set.
///
/// # Errors
///
/// Out of memory.
pub fn united<J: Judge>(
    alloc: Global,
    graph: &Graph<J>,
    sets: &[usize],
    written: &[usize],
) -> Result<SetNode, AllocError>
    requires { AreWrittenOut (world J.judgement graph.now) sets.now written.now }
    ensures { IfOk result (λ set. HoldAll (world J.judgement graph.now) sets.now set.own.items) }
{
    let fields = own_fields(alloc, graph, written)?;
    make_set(alloc, fields, Vec::new(alloc))
}
