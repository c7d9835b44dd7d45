//! Which searches below fields are repeated.
//!
//! A search that found nothing finds nothing again. One that found a conflict is repeated for the next pair of fields
//! above it, so that the conflict is reported for each pair. Two bounds keep documents with many conflicts from
//! taking long.
ghost use Rattle.std.specs.Prelude.{◌≡◌, ◌+◌, ◌<◌, ◌≤◌, false, true};
ghost use Rattle.merge_search.specs.Log.{covers_of};
ghost use Rattle.merge_search.specs.Counts.{most_repeats};
ghost use Rattle.merge_search.specs.Spending.{MayAsk};
ghost use Rattle.merge_search.specs.Weight.{field_weight, weight};
ghost use Rattle.merge_search.specs.Work.{search_in};
ghost use Rattle.merge_sets.specs.World.{world};

use crate::state::{Search, is_searched};
use merge_sets::graph::Graph;
use merge_sets::judge::Judge;
use merge_sets::node::Entry;
use merge_sets::view::{own, set};

/// The most searches below fields that are repeated in one document.
pub const REPEATS: usize = 100;

/// A search is repeated only if fewer fields stand in its two sets and below them, without what they spread.
pub const FEW: usize = 50;

/// Whether a search below a field can be left out: it was made, under the flag or without one, and is not repeated.
pub fn is_settled<J: Judge>(graph: &Graph<J>, search: &Search, i: usize, g: usize, e: bool) -> bool
    ensures yes { result ≡ true → covers_of (search_in search.now) e i g ≡ true }
    ensures no { result ≡ false → MayAsk (world J.judgement graph.now) search.now e i g }
{
    is_searched(search, i, g, e) && !may_repeat(graph, search, i, set(graph, g))
}

// Whether searches of a set are repeated, where the fields are few.
fn are_repeated(search: &Search, i: usize) -> bool
    ensures { result ≡ true → search.now.repeated < most_repeats }
{
    search.repeated < REPEATS && search.conflicting.contains(i)
}

fn may_repeat<J: Judge>(graph: &Graph<J>, search: &Search, i: usize, j: usize) -> bool
    ensures { let w = world J.judgement graph.now in
        result ≡ true → (search.now.repeated < most_repeats) × (weight w i + weight w j < 50) }
{
    are_repeated(search, i) && are_few(graph, i, j)
}

fn are_few<J: Judge>(graph: &Graph<J>, i: usize, j: usize) -> bool
    ensures { let w = world J.judgement graph.now in result ≡ true → weight w i + weight w j < 50 }
{
    less_fields(graph, j, less_fields(graph, i, FEW)) > 0
}

// The number, less one for each field of a set and of the sets below them, down to 0.
#[cycle(fields)]
fn less_fields<J: Judge>(graph: &Graph<J>, s: usize, number: usize) -> usize
    ensures few { result ≤ number }
    ensures less { 0 < result → result + weight (world J.judgement graph.now) s ≡ number }
{
    let mut left = number;
    for field in own(graph, s) {
        if left == 0 {
            return 0;
        }
        left = less_field(graph, *field, left);
    }
    left
}

#[cycle(fields)]
fn less_field<J: Judge>(graph: &Graph<J>, field: Entry, number: usize) -> usize
    ensures few { result ≤ number }
    ensures less { 0 < result → result + field_weight (world J.judgement graph.now) field ≡ number }
{
    if number == 0 {
        return 0;
    }
    match field.below {
        Some(s) => less_fields(graph, s, number - 1),
        None => number - 1,
    }
}
