//! What is known to merge without a search, and what it takes to know it: that is counted as comparing fields is.
ghost use Rattle.std.specs.Prelude.{◌≡◌, ◌⊎◌, ◌*◌, ◌<◌, ◌≤◌, ℕ, IfOk, OnOk, Some, false, length, slice_get, true};
ghost use Rattle.std.specs.Bool.{OnTrue};
ghost use Rattle.bit_matrix.specs.Set.{has};
ghost use Rattle.merge_certificates.specs.Below.{KnowsSome};
ghost use Rattle.merge_certificates.specs.Failing.{TellsSome};
ghost use Rattle.merge_certificates.specs.TwoSets.{KnowsRows, rights_of};
ghost use Rattle.merge_search.specs.Spending.{AsksUpto, CountsAtLeast};
ghost use Rattle.merge_sets.specs.Clear.{AreClear, AreClearRows, AreLeaves, AreOthers, IsSumWithin};
ghost use Rattle.merge_sets.specs.World.{world};
ghost use Rattle.merge_sets.specs.declared.node.Entry.{Entry};

use crate::state::{Search, count_fields};
use bit_matrix::set::BitSet;
use merge_certificates::clear::{are_clear, clear_rows};
use merge_certificates::two_sets::{Rows, others_of, rows_of};
use merge_sets::graph::Graph;
use merge_sets::judge::Judge;
use merge_sets::node::Entry;
use std::alloc::AllocError;

// Twice as many as there are pairs.
fn twice_pairs(left: &[Entry], right: &[Entry]) -> usize
    ensures { result ≤ 2 * (length left.now * length right.now) }
{
    left.len().saturating_mul(right.len()).saturating_mul(2)
}

/// Whether each field of the one list is known to merge with each of the other. `false` says nothing.
///
/// # Errors
///
/// Out of memory.
pub fn ask_clear<J: Judge>(
    graph: &Graph<J>,
    left: &[Entry],
    right: &[Entry],
    e: bool,
    search: &mut Search,
) -> Result<bool, AllocError>
    ensures clear { IfOk result (λ b. OnTrue b (AreClear (world J.judgement graph.now) e left.now right.now)) }
    ensures counts { OnOk result (AsksUpto (2 * (length left.now * length right.now)) search.old search.new) }
    ensures ticks { IfOk result (λ b. OnTrue b (0 < length left.now → CountsAtLeast 1 search.old search.new)) }
{
    let most = twice_pairs(left, right);
    let mut budget = most;
    let is_clear = are_clear(search.alloc, graph, e, left, right, &mut budget)?;
    count_fields(search, most - budget);
    Ok(is_clear)
}

/// The places of fields that are known to merge with each of some others.
///
/// # Errors
///
/// Out of memory.
pub(crate) fn ask_rows<J: Judge>(
    graph: &Graph<J>,
    left: &[Entry],
    right: &[Entry],
    e: bool,
    search: &mut Search,
) -> Result<BitSet, AllocError>
    ensures rows { IfOk result (AreClearRows (world J.judgement graph.now) e left.now right.now) }
    ensures counts { OnOk result (AsksUpto (2 * (length left.now * length right.now)) search.old search.new) }
    ensures ticks { IfOk result (λ rows. (k : ℕ) → has rows k ≡ true → CountsAtLeast 1 search.old search.new) }
{
    let most = twice_pairs(left, right);
    let mut budget = most;
    let rows = clear_rows(search.alloc, graph, e, left, right, &mut budget)?;
    count_fields(search, most - budget);
    Ok(rows)
}

/// The fields of one response name of two sets, with what is known of each two. Listed are rows that are known to merge
/// with all others.
///
/// # Errors
///
/// Out of memory.
pub(crate) fn ask_pairs<J: Judge>(
    graph: &Graph<J>,
    left: &[Entry],
    right: &[Entry],
    clear: BitSet,
    e: bool,
    search: &mut Search,
) -> Result<Rows, AllocError>
    requires { AreClearRows (world J.judgement graph.now) e left.now right.now clear }
    ensures left { IfOk result (λ rows. rows.left.items ≡ left.now) }
    ensures right { IfOk result (λ rows. rights_of rows ≡ right.now) }
    ensures knows { IfOk result (KnowsRows (world J.judgement graph.now) e) }
    ensures counts { OnOk result (AsksUpto (2 * (length left.now * length right.now)) search.old search.new) }
    ensures below { IfOk result (λ rows. KnowsSome rows.below
        → AreLeaves rows.fields.items ⊎ CountsAtLeast 1 search.old search.new) }
    ensures kinds { IfOk result (λ rows. TellsSome rows.numbered.numbers.items
        → CountsAtLeast 1 search.old search.new) }
{
    let most = twice_pairs(left, right);
    let mut budget = most;
    let rows = rows_of(search.alloc, graph, e, left, right, clear, &mut budget)?;
    count_fields(search, most - budget);
    Ok(rows)
}

/// The fields of the other set that the row at a place isn't known to merge with.
///
/// # Errors
///
/// Out of memory.
pub(crate) fn ask_others<J: Judge>(
    graph: &Graph<J>,
    rows: &Rows,
    e: bool,
    k: usize,
    search: &mut Search,
) -> Result<Vec<Entry>, AllocError>
    ensures others { let w = world J.judgement graph.now in IfOk result (λ v. (a : Entry) → KnowsRows w e rows.now
        → slice_get rows.now.left.items k ≡ Some a → AreOthers w e a (rights_of rows.now) v.items) }
    ensures once { IfOk result (λ v. IsSumWithin v.items (rights_of rows.now)) }
    ensures counts { OnOk result (AsksUpto (length (rights_of rows.now)) search.old search.new) }
    ensures ticks { IfOk result (λ v. has rows.now.clear k ≡ false
        → length v.items < length (rights_of rows.now) → CountsAtLeast 1 search.old search.new) }
{
    let most = rows.fields.len().saturating_sub(rows.left.len());
    let mut budget = most;
    let others = others_of(search.alloc, graph, rows, e, k, &mut budget)?;
    count_fields(search, most - budget);
    Ok(others)
}
