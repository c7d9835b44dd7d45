//! Comparing the fields of one response name with each other.
ghost use Rattle.std.specs.Prelude.{◌+◌, ◌*◌, OnOk, false, length};
ghost use Rattle.std.specs.Bool.{OnTrue};
ghost use Rattle.std.specs.List.{All};
ghost use Rattle.merge_sets.specs.World.{world};
ghost use Rattle.merge_sets.specs.Clear.{AreOthers, IsSumWithin};
ghost use Rattle.merge_sets.specs.Kinds.{AreAgreeingRows, NeverFailsWith};
ghost use Rattle.merge_certificates.specs.Below.{KnowsPairs};
ghost use Rattle.merge_sets.specs.Plain.{ArePlain};
ghost use Rattle.merge_search.specs.Work.{Did, Done};
ghost use Rattle.merge_search.specs.Reports.{FindsAll, AtRest};
ghost use Rattle.merge_search.specs.Spending.{Spends, Takes, list_cost};
ghost use Rattle.merge_search.specs.Weight.{field_weight, fields_weight};
ghost use Rattle.merge_tops.specs.TopCosts.{later_cost};
ghost use Rattle.merge_tops.specs.Tops.{AllBefore, AtBefore};

use crate::asking::{ask_agreeing, ask_below, ask_kinds, ask_later, ask_passed};
use bit_matrix::set::BitSet;
use merge_certificates::below::Below;
use merge_certificates::failing::Numbered;
use merge_search::search::compare_fields;
use merge_search::state::{Search, is_full};
use merge_sets::graph::Graph;
use merge_sets::judge::Judge;
use merge_sets::node::Entry;
use merge_sets::plain::is_plain_below;
use std::alloc::AllocError;

/// Compares a field with some others.
///
/// # Errors
///
/// Out of memory.
pub(crate) fn compare_rest<J: Judge>(
    graph: &Graph<J>,
    a: Entry,
    rest: &[Entry],
    search: &mut Search,
) -> Result<(), AllocError>
    ensures done { let w = world J.judgement graph.now in
        OnOk result (Did w (λ M. All (λ b. Done w M false a b) rest.now) search.old search.new) }
    ensures real { let w = world J.judgement graph.now in
        OnOk result (FindsAll w false (AtRest a rest.now) (AtRest a rest.now) search.old search.new) }
    ensures takes { let w = world J.judgement graph.now in
        OnOk result (Takes w (list_cost w a rest.now) search.old search.new) }
{
    if is_full(graph, search) {
        return Ok(());
    }
    for b in rest {
        compare_fields(graph, a, *b, false, search)?;
    }
    Ok(())
}

// Compares a field with some others, unless it is known to fail with none of them, and what stands below it is plain.
fn compare_unless<J: Judge>(
    graph: &Graph<J>,
    a: Entry,
    rest: &[Entry],
    is_clear: bool,
    plain: &BitSet,
    search: &mut Search,
) -> Result<(), AllocError>
    requires clear { OnTrue is_clear (NeverFailsWith (J.judgement graph.now.judge) false a rest.now) }
    requires plain { ArePlain (world J.judgement graph.now) plain.now }
    ensures done { let w = world J.judgement graph.now in
        OnOk result (Did w (λ M. All (λ b. Done w M false a b) rest.now) search.old search.new) }
    ensures real { let w = world J.judgement graph.now in
        OnOk result (FindsAll w false (AtRest a rest.now) (AtRest a rest.now) search.old search.new) }
    ensures spends { let w = world J.judgement graph.now in
        OnOk result (Spends w (field_weight w a * fields_weight w rest.now) search.old search.new) }
{
    if is_clear && is_plain_below(graph, a, plain) {
        return Ok(());
    }
    compare_rest(graph, a, rest, search)
}

// Compares a field with some others: with those alone of which it isn't known that they merge with it.
fn compare_others<J: Judge>(
    graph: &Graph<J>,
    a: Entry,
    rest: &[Entry],
    others: &[Entry],
    is_clear: bool,
    plain: &BitSet,
    search: &mut Search,
) -> Result<(), AllocError>
    requires clear { OnTrue is_clear (NeverFailsWith (J.judgement graph.now.judge) false a rest.now) }
    requires others { AreOthers (world J.judgement graph.now) false a rest.now others.now }
    requires once { IsSumWithin others.now rest.now }
    requires plain { ArePlain (world J.judgement graph.now) plain.now }
    ensures done { let w = world J.judgement graph.now in
        OnOk result (Did w (λ M. All (λ b. Done w M false a b) rest.now) search.old search.new) }
    ensures real { let w = world J.judgement graph.now in
        OnOk result (FindsAll w false (AtRest a rest.now) (AtRest a rest.now) search.old search.new) }
    ensures spends { let w = world J.judgement graph.now in
        OnOk result (Spends w (field_weight w a * fields_weight w rest.now) search.old search.new) }
{
    if is_plain_below(graph, a, plain) && is_clear {
        return compare_unless(graph, a, rest, is_clear, plain, search);
    }
    compare_rest(graph, a, others, search)
}

// Compares each field with those after it, but for those of which it is known that they merge.
fn compare_known<J: Judge>(
    graph: &Graph<J>,
    fields: &[Entry],
    clear: &BitSet,
    below: &Below,
    kinds: &Numbered,
    plain: &BitSet,
    search: &mut Search,
) -> Result<(), AllocError>
    requires clear { AreAgreeingRows (J.judgement graph.now.judge) false fields.now fields.now clear.now }
    requires pairs { KnowsPairs (world J.judgement graph.now) false fields.now below.now kinds.now }
    requires plain { ArePlain (world J.judgement graph.now) plain.now }
    ensures done { let w = world J.judgement graph.now in
        OnOk result (Did w (λ M. AllBefore (Done w M false) fields.now) search.old search.new) }
    ensures real { let w = world J.judgement graph.now in
        OnOk result (FindsAll w false (AtBefore fields.now) (AtBefore fields.now) search.old search.new) }
    ensures takes { let w = world J.judgement graph.now in let n = length fields.now in
        OnOk result (Takes w (8 * later_cost w fields.now + n * n) search.old search.new) }
{
    for k in 0..fields.len() {
        let is_clear = clear.contains(k);
        let others = ask_later(graph, fields, k, is_clear, below, kinds, search)?;
        compare_others(
            graph,
            fields[k],
            &fields[k + 1..],
            others.as_slice(),
            is_clear,
            plain,
            search,
        )?;
    }
    Ok(())
}

// Compares each field with those after it, but for those of which it is known, of many at once, that they merge.
fn compare_all<J: Judge>(
    graph: &Graph<J>,
    fields: &[Entry],
    plain: &BitSet,
    search: &mut Search,
) -> Result<(), AllocError>
    requires { ArePlain (world J.judgement graph.now) plain.now }
    ensures done { let w = world J.judgement graph.now in
        OnOk result (Did w (λ M. AllBefore (Done w M false) fields.now) search.old search.new) }
    ensures real { let w = world J.judgement graph.now in
        OnOk result (FindsAll w false (AtBefore fields.now) (AtBefore fields.now) search.old search.new) }
    ensures takes { let w = world J.judgement graph.now in let n = length fields.now in
        OnOk result (Takes w (8 * later_cost w fields.now + 4 * (n * n)) search.old search.new) }
{
    let clear = ask_agreeing(graph, fields, search)?;
    let below = ask_below(graph, fields, search)?;
    let kinds = ask_kinds(graph, fields, &clear, search)?;
    compare_known(graph, fields, &clear, &below, &kinds, plain, search)
}

/// Compares each field with those after it. Where what stands below is plain, or merges, many that are alike are passed
/// at once, and so is each that fails with none of the others, by their kinds: there is nothing to find.
///
/// # Errors
///
/// Out of memory.
pub(crate) fn compare_each<J: Judge>(
    graph: &Graph<J>,
    fields: &[Entry],
    plain: &BitSet,
    search: &mut Search,
) -> Result<(), AllocError>
    requires { ArePlain (world J.judgement graph.now) plain.now }
    ensures done { let w = world J.judgement graph.now in
        OnOk result (Did w (λ M. AllBefore (Done w M false) fields.now) search.old search.new) }
    ensures real { let w = world J.judgement graph.now in
        OnOk result (FindsAll w false (AtBefore fields.now) (AtBefore fields.now) search.old search.new) }
    ensures spends { let w = world J.judgement graph.now in let f = fields_weight w fields.now in
        OnOk result (Spends w (f * f) search.old search.new) }
{
    if fields.len() < 2 {
        return Ok(());
    }
    if ask_passed(graph, fields, plain, search) {
        return Ok(());
    }
    compare_all(graph, fields, plain, search)
}
