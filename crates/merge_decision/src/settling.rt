//! Fields of one response name: whether they agree, and what unions of the sets below them are to be looked at.
ghost use Rattle.std.specs.Prelude.{◌≡◌, ◌≤◌, ◌∷◌, [], ℕ, Bool, IfOk, OnOk, Some};
ghost use Rattle.std.specs.List.{All};
ghost use Rattle.std.specs.Bool.{OnTrue};
ghost use Rattle.merge_certificates.specs.Quiet.{IsFrom};
ghost use Rattle.merge_decision.specs.Decided.{Grows, Holds, IsSound, Settles};
ghost use Rattle.merge_sets.specs.Judgement.{NoneConflict};
ghost use Rattle.merge_sets.specs.World.{world};

use crate::work::{Work, add_set, add_unions};
use merge_certificates::unions::{Union, unions_below};
use merge_sets::budget::take_questions;
use merge_sets::graph::Graph;
use merge_sets::groups::{fields_named, first_fields, sorted_fields};
use merge_sets::judge::Judge;
use merge_sets::kinds::agree_together;
use merge_sets::node::{Entry, SetNode};
use merge_sets::view::are_leaves;
use std::alloc::{AllocError, Global};

// Whether some fields are plainly like one.
fn are_like<J: Judge>(graph: &Graph<J>, one: usize, fields: &[Entry], budget: &mut usize) -> bool
    ensures like { OnTrue result (All (λ a. J.are_alike graph.now.judge one a.field) fields.now) }
    ensures spent { budget.new ≤ budget.old }
{
    if !take_questions(budget, fields.len()) {
        return false;
    }
    for field in fields {
        if !graph.judge.is_plainly_like(one, field.field) {
            return false;
        }
    }
    true
}

// Whether it is plain that no two of some fields fail with each other, whatever the flag. `false` says nothing.
fn agree_plainly<J: Judge>(graph: &Graph<J>, fields: &[Entry], budget: &mut usize) -> bool
    ensures agree { OnTrue result
        ((e : Bool) → NoneConflict (J.judgement graph.now.judge) e fields.now fields.now) }
    ensures spent { budget.new ≤ budget.old }
{
    match fields.first() {
        Some(first) => are_like(graph, first.field, fields, budget),
        None => true,
    }
}

// Whether no two of some fields fail with each other, under each flag from `x` on. `false` says nothing.
fn agree<J: Judge>(
    alloc: Global,
    graph: &Graph<J>,
    x: bool,
    fields: &[Entry],
    budget: &mut usize,
) -> Result<bool, AllocError>
    ensures agree { IfOk result (λ b. OnTrue b
        ((e : Bool) → IsFrom x e → NoneConflict (J.judgement graph.now.judge) e fields.now fields.now)) }
    ensures spent { budget.new ≤ budget.old }
{
    if agree_plainly(graph, fields, budget) {
        return Ok(true);
    }
    let is_found = agree_together(alloc, graph, true, fields, budget)?;
    if x || !is_found {
        return Ok(is_found);
    }
    agree_together(alloc, graph, false, fields, budget)
}

// Adds a union of the set below a field, if there is one.
fn add_below<J: Judge>(
    alloc: Global,
    graph: &Graph<J>,
    x: bool,
    field: Entry,
    work: &mut Work,
) -> Result<(), AllocError>
    ensures grows { OnOk result (Grows (world J.judgement graph.now) work.old work.new) }
    ensures holds { let w = world J.judgement graph.now in OnOk result (IsSound w work.old
        → (s : ℕ) → field.below ≡ Some s → Holds w work.new.unions.items x (s ∷ [])) }
{
    match field.below {
        Some(s) => {
            add_set(alloc, graph, s, x, work)?;
            Ok(())
        }
        None => Ok(()),
    }
}

// Takes off a budget what some unions hold, so that no more of them wait than it has.
fn take_held(budget: &mut usize, unions: &[Union])
    ensures { budget.new ≤ budget.old }
{
    let mut rest = *budget;
    for union in unions {
        rest = rest.saturating_sub(union.sets.len());
    }
    *budget = rest;
}

// Adds unions of the sets below fields that agree, where there are two and more.
fn add_joined<J: Judge>(
    alloc: Global,
    graph: &Graph<J>,
    x: bool,
    fields: &[Entry],
    work: &mut Work,
) -> Result<(), AllocError>
    requires { (e : Bool) → IsFrom x e → NoneConflict (J.judgement graph.now.judge) e fields.now fields.now }
    ensures { OnOk result (Settles (world J.judgement graph.now) x fields.now work.old work.new) }
{
    let mut unions = Vec::new(alloc);
    unions_below(alloc, graph, x, true, fields, &mut unions)?;
    take_held(&mut work.budget, unions.as_slice());
    add_unions(unions, work)?;
    Ok(())
}

// Adds unions of the sets below fields that agree, whatever their number.
fn settle_agreeing<J: Judge>(
    alloc: Global,
    graph: &Graph<J>,
    x: bool,
    fields: &[Entry],
    work: &mut Work,
) -> Result<(), AllocError>
    requires { (e : Bool) → IsFrom x e → NoneConflict (J.judgement graph.now.judge) e fields.now fields.now }
    ensures { OnOk result (Settles (world J.judgement graph.now) x fields.now work.old work.new) }
{
    if are_leaves(fields) {
        return Ok(());
    }
    let Some(field) = fields.first() else {
        return Ok(());
    };
    if fields.len() > 1 {
        return add_joined(alloc, graph, x, fields, work);
    }
    add_below(alloc, graph, x, *field, work)?;
    Ok(())
}

// Settles the fields of a response name, if they are known to agree.
fn settle_group<J: Judge>(
    alloc: Global,
    graph: &Graph<J>,
    x: bool,
    group: &[Entry],
    work: &mut Work,
) -> Result<bool, AllocError>
    ensures grows { OnOk result (Grows (world J.judgement graph.now) work.old work.new) }
    ensures settles { IfOk result (λ b. OnTrue b (Settles (world J.judgement graph.now) x group.now work.old work.new)) }
{
    if !agree(alloc, graph, x, group, &mut work.budget)? {
        return Ok(false);
    }
    settle_agreeing(alloc, graph, x, group, work)?;
    Ok(true)
}

/// Settles the fields of a set. `false` says that some may fail with each other.
///
/// # Errors
///
/// Out of memory.
pub fn settle_set<J: Judge>(
    alloc: Global,
    graph: &Graph<J>,
    x: bool,
    set: &SetNode,
    work: &mut Work,
) -> Result<bool, AllocError>
    ensures grows { OnOk result (Grows (world J.judgement graph.now) work.old work.new) }
    ensures settles { IfOk result (λ b. OnTrue b (Settles (world J.judgement graph.now) x set.now.own.items work.old work.new)) }
{
    for first in first_fields(set) {
        let group = fields_named(sorted_fields(set), first.response);
        if !settle_group(alloc, graph, x, group, work)? {
            return Ok(false);
        }
    }
    Ok(true)
}
