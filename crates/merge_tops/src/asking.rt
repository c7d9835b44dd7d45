//! What is known of the fields of a set without comparing each two, and what it takes to know it: that is counted as
//! comparing fields is.
ghost use Rattle.std.specs.Prelude.{◌≡◌, ◌⊎◌, ◌<◌, ◌≤◌, ◌+◌, ◌*◌, ◌∷◌, [], ℕ, IfOk, OnOk, None, Some};
ghost use Rattle.std.specs.Prelude.{drop, false, length, slice_get, true};
ghost use Rattle.std.specs.Bool.{OnTrue};
ghost use Rattle.bit_matrix.specs.Set.{has};
ghost use Rattle.merge_certificates.specs.Below.{IsIndexed, KnowsBelow, KnowsPairs, KnowsSome};
ghost use Rattle.merge_certificates.specs.Failing.{AgreeAt, StandFor, TellsSome};
ghost use Rattle.merge_certificates.specs.Quiet.{AreQuiet};
ghost use Rattle.merge_search.specs.Spending.{AsksUpto, CountsAtLeast};
ghost use Rattle.merge_sets.specs.Clear.{AreClear, AreLeaves, AreOthers, IsSumWithin};
ghost use Rattle.merge_sets.specs.Kinds.{AreAgreeingRows};
ghost use Rattle.merge_sets.specs.Plain.{ArePlain};
ghost use Rattle.merge_sets.specs.declared.node.Entry.{Entry};
ghost use Rattle.merge_sets.specs.World.{own_of, world};
ghost use Rattle.merge_tops.specs.TopCosts.{own_count, set_questions};

use bit_matrix::set::BitSet;
use merge_certificates::below::{Below, known_below, others_from};
use merge_certificates::clear::MANY;
use merge_certificates::failing::{Numbered, numbered_kinds};
use merge_certificates::quiet::are_quiet;
use merge_certificates::unions::Union;
use merge_search::passing::ask_clear;
use merge_search::state::{Search, count_fields};
use merge_sets::graph::Graph;
use merge_sets::judge::Judge;
use merge_sets::kinds::agreeing_rows;
use merge_sets::node::Entry;
use merge_sets::plain::{are_plain_below, passed_over};
use merge_sets::view::{agree_plainly, own, spreads};
use std::alloc::{AllocError, Global};

// How much may be asked for each own field, to know which sets are plain.
const EACH: usize = 64;

// The square of the number of some fields.
fn square(fields: &[Entry]) -> usize
    ensures { result ≤ length fields.now * length fields.now }
{
    fields.len().saturating_mul(fields.len())
}

// Whether it is plain that there is nothing to find between some fields. Two that have nothing below are compared at
// once.
fn are_passed<J: Judge>(
    graph: &Graph<J>,
    fields: &[Entry],
    plain: &BitSet,
    budget: &mut usize,
) -> bool
    requires { ArePlain (world J.judgement graph.now) plain.now }
    ensures clear { OnTrue result (AreClear (world J.judgement graph.now) false fields.now fields.now) }
    ensures spent { budget.new ≤ budget.old }
    ensures ticks { OnTrue result (0 < length fields.now → budget.new < budget.old) }
{
    let is_wide = fields.len() > 2 || fields.iter().any(|a| a.below.is_some());
    if !is_wide || !are_plain_below(graph, fields, plain) {
        return false;
    }
    agree_plainly(graph, fields, fields, budget)
}

/// Asks whether it is plain that there is nothing to find between some fields, and counts that.
pub(crate) fn ask_passed<J: Judge>(
    graph: &Graph<J>,
    fields: &[Entry],
    plain: &BitSet,
    search: &mut Search,
) -> bool
    requires { ArePlain (world J.judgement graph.now) plain.now }
    ensures clear { OnTrue result (AreClear (world J.judgement graph.now) false fields.now fields.now) }
    ensures counts { AsksUpto (2 * length fields.now) search.old search.new }
    ensures ticks { OnTrue result (0 < length fields.now → CountsAtLeast 1 search.old search.new) }
{
    let most = fields.len().saturating_mul(2);
    let mut budget = most;
    let is_passed = are_passed(graph, fields, plain, &mut budget);
    count_fields(search, most - budget);
    is_passed
}

/// The places of fields that are known to fail with none of these, by their kinds.
///
/// # Errors
///
/// Out of memory.
pub(crate) fn ask_agreeing<J: Judge>(
    graph: &Graph<J>,
    fields: &[Entry],
    search: &mut Search,
) -> Result<BitSet, AllocError>
    ensures rows { IfOk result (AreAgreeingRows (J.judgement graph.now.judge) false fields.now fields.now) }
    ensures counts { OnOk result (AsksUpto (length fields.now * length fields.now) search.old search.new) }
    ensures ticks { IfOk result (λ rows. (k : ℕ) → has rows k ≡ true → CountsAtLeast 1 search.old search.new) }
{
    let most = square(fields);
    let mut budget = most;
    let rows = agreeing_rows(search.alloc, graph, false, fields, fields, &mut budget)?;
    count_fields(search, most - budget);
    Ok(rows)
}

/// What is known of what stands below some fields. To know it may take half as much as the square of their number.
///
/// # Errors
///
/// Out of memory.
pub(crate) fn ask_below<J: Judge>(
    graph: &Graph<J>,
    fields: &[Entry],
    search: &mut Search,
) -> Result<Below, AllocError>
    ensures knows { IfOk result (KnowsBelow (world J.judgement graph.now) false fields.now) }
    ensures indexed { IfOk result (λ below. IsIndexed below (length fields.now)) }
    ensures counts { OnOk result (AsksUpto (length fields.now * length fields.now) search.old search.new) }
    ensures ticks { IfOk result (λ below. KnowsSome below
        → AreLeaves fields.now ⊎ CountsAtLeast 1 search.old search.new) }
{
    let most = square(fields) / 2;
    let mut budget = most;
    let below = known_below(search.alloc, graph, false, fields, &mut budget)?;
    count_fields(search, most - budget);
    Ok(below)
}

/// The kinds of some fields by number.
///
/// # Errors
///
/// Out of memory.
pub(crate) fn ask_kinds<J: Judge>(
    graph: &Graph<J>,
    fields: &[Entry],
    listed: &BitSet,
    search: &mut Search,
) -> Result<Numbered, AllocError>
    ensures stand { IfOk result (λ n.
        StandFor (J.judgement graph.now.judge) n.kinds.items fields.now n.numbers.items) }
    ensures counts { OnOk result (AsksUpto (length fields.now * length fields.now) search.old search.new) }
    ensures ticks { IfOk result (λ n. TellsSome n.numbers.items → CountsAtLeast 1 search.old search.new) }
{
    let most = square(fields);
    let mut budget = most;
    let kinds = numbered_kinds(search.alloc, graph, fields, listed, &mut budget)?;
    count_fields(search, most - budget);
    Ok(kinds)
}

/// The fields after one that it isn't known to merge with, by what stands below each two and by their kinds.
///
/// # Errors
///
/// Out of memory.
pub(crate) fn ask_later<J: Judge>(
    graph: &Graph<J>,
    fields: &[Entry],
    k: usize,
    is_clear: bool,
    below: &Below,
    kinds: &Numbered,
    search: &mut Search,
) -> Result<Vec<Entry>, AllocError>
    requires place { k < length fields.now }
    requires agree { OnTrue is_clear
        (AgreeAt (J.judgement graph.now.judge) false fields.now kinds.now.numbers.items k None) }
    requires pairs { KnowsPairs (world J.judgement graph.now) false fields.now below.now kinds.now }
    ensures others { let w = world J.judgement graph.now in IfOk result (λ v. (a : Entry)
        → slice_get fields.now k ≡ Some a → AreOthers w false a (drop (k + 1) fields.now) v.items) }
    ensures once { IfOk result (λ v. IsSumWithin v.items (drop (k + 1) fields.now)) }
    ensures counts { OnOk result (AsksUpto (length fields.now) search.old search.new) }
    ensures ticks { IfOk result (λ v. is_clear ≡ false → length v.items < length (drop (k + 1) fields.now)
        → CountsAtLeast 1 search.old search.new) }
{
    let most = fields.len();
    let mut budget = most;
    let others = others_from(
        search.alloc,
        graph,
        false,
        fields,
        k,
        k + 1,
        is_clear,
        below,
        kinds,
        &mut budget,
    )?;
    count_fields(search, most - budget);
    Ok(others)
}

/// Whether it is known of two fields and more that each merges with each of some others. `false` says nothing.
///
/// # Errors
///
/// Out of memory.
pub(crate) fn ask_groups<J: Judge>(
    graph: &Graph<J>,
    left: &[Entry],
    right: &[Entry],
    search: &mut Search,
) -> Result<bool, AllocError>
    ensures clear { IfOk result (λ b. OnTrue b (AreClear (world J.judgement graph.now) false left.now right.now)) }
    ensures counts { OnOk result (AsksUpto (2 * (length left.now * length right.now)) search.old search.new) }
    ensures ticks { IfOk result (λ b. OnTrue b (CountsAtLeast 1 search.old search.new)) }
{
    if left.len() < 2 {
        return Ok(false);
    }
    let is_clear = ask_clear(graph, left, right, false, search)?;
    Ok(is_clear)
}

// Whether all that stands in a set is known to merge. `false` says nothing, and where the budget is small nothing is
// asked.
fn is_merged<J: Judge>(
    alloc: Global,
    graph: &Graph<J>,
    s: usize,
    budget: &mut usize,
) -> Result<bool, AllocError>
    ensures merged { IfOk result (λ b. OnTrue b (AreQuiet (world J.judgement graph.now) false (s ∷ []))) }
    ensures spent { budget.new ≤ budget.old }
    ensures ticks { IfOk result (λ b. OnTrue b (budget.new < budget.old)) }
{
    if *budget < MANY {
        return Ok(false);
    }
    let mut sets = Vec::new(alloc);
    sets.push(s)?;
    let mut unions = Vec::new(alloc);
    unions.push(Union { sets, flag: false })?;
    let is_quiet = are_quiet(alloc, graph, unions, false, budget)?;
    Ok(is_quiet)
}

/// Asks whether all that stands in a set is known to merge, and counts what that takes: at most twice as much as there
/// are pairs of its spreads, and of a spread and an own field.
///
/// # Errors
///
/// Out of memory.
pub(crate) fn ask_merged<J: Judge>(
    graph: &Graph<J>,
    s: usize,
    search: &mut Search,
) -> Result<bool, AllocError>
    ensures merged { IfOk result (λ b. OnTrue b (AreQuiet (world J.judgement graph.now) false (s ∷ []))) }
    ensures counts { OnOk result
        (AsksUpto (2 * set_questions (world J.judgement graph.now) s) search.old search.new) }
    ensures ticks { IfOk result (λ b. OnTrue b (CountsAtLeast 1 search.old search.new)) }
{
    let list = spreads(graph, s).len();
    let fields = own(graph, s).len();
    let most = list
        .saturating_mul(list.saturating_add(fields))
        .saturating_mul(2);
    let mut budget = most;
    let is_merged = is_merged(search.alloc, graph, s, &mut budget)?;
    count_fields(search, most - budget);
    Ok(is_merged)
}

// How many own fields all sets have.
fn count_own<J: Judge>(graph: &Graph<J>) -> usize
    ensures most { result ≤ own_count (world J.judgement graph.now) }
    ensures some { let w = world J.judgement graph.now in (s : ℕ) → 0 < length (own_of w s) → 0 < result }
{
    let mut count: usize = 0;
    for s in 0..graph.sets.len() {
        count = count.saturating_add(own(graph, s).len());
    }
    count
}

/// The sets that are plain.
///
/// # Errors
///
/// Out of memory.
pub(crate) fn ask_plain<J: Judge>(
    graph: &Graph<J>,
    search: &mut Search,
) -> Result<BitSet, AllocError>
    ensures plain { IfOk result (λ plain. ArePlain (world J.judgement graph.now) plain) }
    ensures counts { OnOk result (AsksUpto (64 * own_count (world J.judgement graph.now)) search.old search.new) }
    ensures ticks { let w = world J.judgement graph.now in IfOk result (λ plain. (s : ℕ) → has plain s ≡ true
        → 0 < length (own_of w s) → CountsAtLeast 1 search.old search.new) }
{
    let most = count_own(graph).saturating_mul(EACH);
    let mut budget = most;
    let plain = passed_over(search.alloc, graph, &mut budget)?;
    count_fields(search, most - budget);
    Ok(plain)
}
