//! The sets of inline fragments, compared once more where the set round them has a conflict.
//!
//! All that stands in them stands in the set round them, so nothing is missed without this. It reports a conflict for
//! each set that it stands in.
ghost use Rattle.std.specs.Prelude.{◌≡◌, ◌*◌, ◌<◌, ℕ, OnOk, IfOk, length, sum_by, true, false};
ghost use Rattle.std.specs.Bool.{OnTrue};
ghost use Rattle.std.specs.List.{All, Contains};
ghost use Rattle.bit_matrix.specs.Set.{has};
ghost use Rattle.bit_matrix.specs.declared.set.BitSet.{BitSet};
ghost use Rattle.merge_sets.specs.World.{world, own_of, spreads_of};
ghost use Rattle.merge_sets.specs.Opening.{ReachedFrom};
ghost use Rattle.merge_search.specs.Work.{Did};
ghost use Rattle.merge_search.specs.Reports.{Finds, AtPlaces, AtLists};
ghost use Rattle.merge_tops.specs.Inner.{IsPart, IsStart, AtPart, AtParts};
ghost use Rattle.merge_sets.specs.Plain.{ArePlain};
ghost use Rattle.merge_sets.specs.Clear.{IsSumWithin};
ghost use Rattle.merge_search.specs.Spending.{Spends, fragments_weight};
ghost use Rattle.merge_tops.specs.TopCosts.{inner_cost, inner_set_cost, part_in, top_cost};
ghost use Rattle.merge_tops.specs.TopCounts.{OpensAtTop, inner_list};
ghost use Rattle.merge_search.specs.Weight.{fields_weight, fragment_weight, weight};

use crate::asking::ask_groups;
use crate::counts::{TopCounts, open_counted};
use crate::pairs::{compare_each, compare_rest};
use bit_matrix::set::BitSet;
use merge_search::state::{Search, put_opening};
use merge_sets::graph::Graph;
use merge_sets::groups::{fields_named, first_fields, make_set, sorted_fields};
use merge_sets::judge::Judge;
use merge_sets::node::{Entry, InnerSet, SetNode};
use merge_sets::numbers::set_of_numbers;
use merge_sets::view::{group, own, set, spreads};
use std::alloc::{AllocError, Global};

// The sets of the inline fragments in a set, in the order of a walk.
fn inner_sets<J>(graph: &Graph<J>, s: usize) -> &[InnerSet]
    ensures { IsSumWithin result.now graph.now.inner.items }
{
    let inner = graph.inner.as_slice();
    let start = inner.partition_point(|i| i.outer < s);
    let rest = &inner[start..];
    let end = rest.partition_point(|i| i.outer <= s);
    &rest[..end]
}

// The fields of an inner set, among those of the set round it.
fn part_of(fields: &[Entry], inner: InnerSet) -> &[Entry]
    ensures part { IsPart result.now fields.now }
    ensures within { IsSumWithin result.now (part_in fields.now inner) }
{
    if inner.first_field <= inner.fields_end && inner.fields_end <= fields.len() {
        &fields[inner.first_field..inner.fields_end]
    } else {
        &[]
    }
}

// The spreads of an inner set as they are written.
fn written(spreads: &[usize], inner: InnerSet) -> &[usize] {
    if inner.first_spread <= inner.spreads_end && inner.spreads_end <= spreads.len() {
        &spreads[inner.first_spread..inner.spreads_end]
    } else {
        &[]
    }
}

// Compares the own fields of an inner set with each other.
fn compare_own_part<J: Judge>(
    graph: &Graph<J>,
    s: usize,
    part: &SetNode,
    plain: &BitSet,
    search: &mut Search,
) -> Result<(), AllocError>
    requires part { IsPart part.now.own.items (own_of (world J.judgement graph.now) s) }
    requires plain { ArePlain (world J.judgement graph.now) plain.now }
    ensures done { OnOk result (Did (world J.judgement graph.now) (λ M. Unit {0}) search.old search.new) }
    ensures real { let w = world J.judgement graph.now in
        OnOk result (Finds w false (AtPlaces w s) search.old search.new) }
    ensures spends { let w = world J.judgement graph.now in let f = fields_weight w part.now.own.items in
        OnOk result (Spends w (f * f) search.old search.new) }
{
    for first in first_fields(part) {
        compare_each(
            graph,
            fields_named(sorted_fields(part), first.response),
            plain,
            search,
        )?;
    }
    Ok(())
}

// Compares some fields of a response name with some others. Where none of them fails with one of those, all are passed
// at once.
fn compare_groups<J: Judge>(
    graph: &Graph<J>,
    left: &[Entry],
    right: &[Entry],
    search: &mut Search,
) -> Result<(), AllocError>
    ensures done { OnOk result (Did (world J.judgement graph.now) (λ M. Unit {0}) search.old search.new) }
    ensures real { let w = world J.judgement graph.now in
        OnOk result (Finds w false (AtLists left.now right.now) search.old search.new) }
    ensures spends { let w = world J.judgement graph.now in
        OnOk result (Spends w (fields_weight w left.now * fields_weight w right.now) search.old search.new) }
{
    if ask_groups(graph, left, right, search)? {
        return Ok(());
    }
    for a in left {
        compare_rest(graph, *a, right, search)?;
    }
    Ok(())
}

// Compares the own fields of an inner set with those of another set.
fn compare_part<J: Judge>(
    graph: &Graph<J>,
    part: &SetNode,
    j: usize,
    search: &mut Search,
) -> Result<(), AllocError>
    ensures done { OnOk result (Did (world J.judgement graph.now) (λ M. Unit {0}) search.old search.new) }
    ensures real { let w = world J.judgement graph.now in
        OnOk result (Finds w false (AtPart part.now.own.items (own_of w j)) search.old search.new) }
    ensures spends { let w = world J.judgement graph.now in
        OnOk result (Spends w (fields_weight w part.now.own.items * weight w j) search.old search.new) }
{
    for first in first_fields(part) {
        compare_groups(
            graph,
            fields_named(sorted_fields(part), first.response),
            group(graph, j, first.response),
            search,
        )?;
    }
    Ok(())
}

// Compares the own fields of an inner set with those of fragments that are opened.
fn compare_opened<J: Judge>(
    graph: &Graph<J>,
    part: &SetNode,
    starts: &[usize],
    opening: &[usize],
    search: &mut Search,
) -> Result<(), AllocError>
    requires { All (ReachedFrom (world J.judgement graph.now) starts.now) opening.now }
    ensures done { OnOk result (Did (world J.judgement graph.now) (λ M. Unit {0}) search.old search.new) }
    ensures real { let w = world J.judgement graph.now in
        OnOk result (Finds w false (AtParts w part.now.own.items starts.now) search.old search.new) }
    ensures spends { let w = world J.judgement graph.now in let f = fields_weight w part.now.own.items in
        OnOk result (Spends w (f * sum_by (fragment_weight w) opening.now) search.old search.new) }
{
    for h in opening {
        compare_part(graph, part, set(graph, *h), search)?;
    }
    Ok(())
}

// Compares the own fields of an inner set with some fragments written out.
fn write_part<J: Judge>(
    graph: &Graph<J>,
    part: &SetNode,
    starts: &[usize],
    search: &mut Search,
    counts: &mut TopCounts,
) -> Result<(), AllocError>
    requires { All (λ g. g < length graph.now.fragments.items) starts.now }
    ensures done { OnOk result (Did (world J.judgement graph.now) (λ M. Unit {0}) search.old search.new) }
    ensures real { let w = world J.judgement graph.now in
        OnOk result (Finds w false (AtParts w part.now.own.items starts.now) search.old search.new) }
    ensures spends { let w = world J.judgement graph.now in
        OnOk result (Spends w (fields_weight w part.now.own.items * fragments_weight w) search.old search.new) }
    ensures counts { OnOk result (OpensAtTop (world J.judgement graph.now) 1 counts.old counts.new) }
{
    if starts.is_empty() {
        return Ok(());
    }
    let opening = open_counted(graph, starts, search, counts)?;
    compare_opened(graph, part, starts, opening.order.as_slice(), search)?;
    put_opening(search, opening)
}

// Whether the set spreads a fragment that is not plain.
fn is_start<J: Judge>(graph: &Graph<J>, g: usize, listed: &BitSet, plain: &BitSet) -> bool
    ensures { OnTrue result (IsStart (length graph.now.fragments.items) listed.now g) }
{
    g < graph.fragments.len() && listed.contains(g) && !plain.contains(set(graph, g))
}

// Adds a number, unless it is there.
fn add_new(g: usize, seen: &mut BitSet, numbers: &mut Vec<usize>) -> Result<(), AllocError>
    ensures { OnOk result ((count : ℕ) (listed : BitSet) → IsStart count listed g
        → All (IsStart count listed) numbers.old.items → All (IsStart count listed) numbers.new.items) }
{
    if !seen.insert(g)? {
        return Ok(());
    }
    numbers.push(g)?;
    Ok(())
}

// Adds a fragment that the set spreads, unless it is there, or plain.
fn add_start<J: Judge>(
    graph: &Graph<J>,
    g: usize,
    listed: &BitSet,
    plain: &BitSet,
    seen: &mut BitSet,
    starts: &mut Vec<usize>,
) -> Result<(), AllocError>
    ensures { OnOk result (All (IsStart (length graph.now.fragments.items) listed.now) starts.old.items
        → All (IsStart (length graph.now.fragments.items) listed.now) starts.new.items) }
{
    if is_start(graph, g, listed, plain) {
        add_new(g, seen, starts)
    } else {
        Ok(())
    }
}

// The fragments of which something may be found, among the spreads of an inner set, each once.
fn starts_of<J: Judge>(
    alloc: Global,
    graph: &Graph<J>,
    spreads: &[usize],
    listed: &BitSet,
    plain: &BitSet,
) -> Result<Vec<usize>, AllocError>
    ensures { IfOk result (λ starts. All (IsStart (length graph.now.fragments.items) listed.now) starts.items) }
{
    let mut seen = BitSet::new(alloc);
    let mut starts = Vec::new(alloc);
    for g in spreads {
        add_start(graph, *g, listed, plain, &mut seen, &mut starts)?;
    }
    Ok(starts)
}

// Compares all that stands in an inner set.
fn compare_inner<J: Judge>(
    graph: &Graph<J>,
    s: usize,
    inner: InnerSet,
    listed: &BitSet,
    plain: &BitSet,
    search: &mut Search,
    counts: &mut TopCounts,
) -> Result<(), AllocError>
    requires listed { (g : ℕ) → has listed.now g ≡ true → Contains (spreads_of (world J.judgement graph.now) s) g }
    requires plain { ArePlain (world J.judgement graph.now) plain.now }
    ensures done { OnOk result (Did (world J.judgement graph.now) (λ M. Unit {0}) search.old search.new) }
    ensures real { let w = world J.judgement graph.now in
        OnOk result (Finds w false (AtPlaces w s) search.old search.new) }
    ensures spends { let w = world J.judgement graph.now in
        let cost = top_cost w (fields_weight w (part_in (own_of w s) inner)) in
        OnOk result (Spends w cost search.old search.new) }
    ensures counts { OnOk result (OpensAtTop (world J.judgement graph.now) 1 counts.old counts.new) }
{
    let fields = part_of(own(graph, s), inner);
    if fields.is_empty() {
        return Ok(());
    }
    let alloc = search.alloc;
    let part = make_set(alloc, Vec::from_slice(alloc, fields)?, Vec::new(alloc))?;
    let starts = starts_of(
        alloc,
        graph,
        written(graph.written.as_slice(), inner),
        listed,
        plain,
    )?;
    compare_own_part(graph, s, &part, plain, search)?;
    write_part(graph, &part, starts.as_slice(), search, counts)
}

// Compares the inner set at a place, unless the next to be compared stands behind it; returns the next. Where nothing
// was found the sets in it are passed over. One that stands in another set has nothing to say here.
fn compare_next<J: Judge>(
    graph: &Graph<J>,
    s: usize,
    inner: InnerSet,
    place: usize,
    next: usize,
    listed: &BitSet,
    plain: &BitSet,
    search: &mut Search,
    counts: &mut TopCounts,
) -> Result<usize, AllocError>
    requires listed { (g : ℕ) → has listed.now g ≡ true → Contains (spreads_of (world J.judgement graph.now) s) g }
    requires plain { ArePlain (world J.judgement graph.now) plain.now }
    ensures done { OnOk result (Did (world J.judgement graph.now) (λ M. Unit {0}) search.old search.new) }
    ensures real { let w = world J.judgement graph.now in
        OnOk result (Finds w false (AtPlaces w s) search.old search.new) }
    ensures spends { let w = world J.judgement graph.now in
        OnOk result (Spends w (inner_set_cost w s inner) search.old search.new) }
    ensures counts { OnOk result (OpensAtTop (world J.judgement graph.now) (inner_list s inner) counts.old counts.new) }
{
    if place < next || inner.outer != s {
        return Ok(next);
    }
    let start = search.found.len();
    compare_inner(graph, s, inner, listed, plain, search, counts)?;
    if search.found.len() == start {
        Ok(inner.next)
    } else {
        Ok(place)
    }
}

// Compares these inner sets of a set, in the order of a walk.
fn compare_each_inner<J: Judge>(
    graph: &Graph<J>,
    s: usize,
    inner: &[InnerSet],
    plain: &BitSet,
    search: &mut Search,
    counts: &mut TopCounts,
) -> Result<(), AllocError>
    requires { ArePlain (world J.judgement graph.now) plain.now }
    ensures done { OnOk result (Did (world J.judgement graph.now) (λ M. Unit {0}) search.old search.new) }
    ensures real { let w = world J.judgement graph.now in
        OnOk result (Finds w false (AtPlaces w s) search.old search.new) }
    ensures spends { let w = world J.judgement graph.now in
        OnOk result (Spends w (inner_cost w inner.now s) search.old search.new) }
    ensures counts { let w = world J.judgement graph.now in
        OnOk result (OpensAtTop w (sum_by (inner_list s) inner.now) counts.old counts.new) }
{
    let listed = set_of_numbers(search.alloc, spreads(graph, s))?;
    let mut next = 0;
    for place in 0..inner.len() {
        next = compare_next(
            graph,
            s,
            inner[place],
            place,
            next,
            &listed,
            plain,
            search,
            counts,
        )?;
    }
    Ok(())
}

/// Compares once more what stands in the inline fragments of a set. One that stands in another where nothing is found
/// is passed over.
///
/// # Errors
///
/// Out of memory.
pub(crate) fn search_inner<J: Judge>(
    graph: &Graph<J>,
    s: usize,
    plain: &BitSet,
    search: &mut Search,
    counts: &mut TopCounts,
) -> Result<(), AllocError>
    requires { ArePlain (world J.judgement graph.now) plain.now }
    ensures done { OnOk result (Did (world J.judgement graph.now) (λ M. Unit {0}) search.old search.new) }
    ensures real { let w = world J.judgement graph.now in
        OnOk result (Finds w false (AtPlaces w s) search.old search.new) }
    ensures spends { let w = world J.judgement graph.now in
        OnOk result (Spends w (inner_cost w graph.now.inner.items s) search.old search.new) }
    ensures counts { let w = world J.judgement graph.now in
        OnOk result (OpensAtTop w (sum_by (inner_list s) graph.now.inner.items) counts.old counts.new) }
{
    let inner = inner_sets(graph, s);
    if inner.is_empty() {
        return Ok(());
    }
    compare_each_inner(graph, s, inner, plain, search, counts)
}
