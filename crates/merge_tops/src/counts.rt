//! What the searches of sets open, as they are counted.
ghost use Rattle.std.specs.Prelude.{◌≡◌, ◌+◌, ◌<◌, IfOk, length, min};
ghost use Rattle.std.specs.List.{All};
ghost use Rattle.merge_search.specs.Counts.{greatest};
ghost use Rattle.merge_search.specs.State.{CountsStay, Keeps};
ghost use Rattle.merge_sets.specs.Opening.{Opens};
ghost use Rattle.merge_sets.specs.World.{world};
ghost use Rattle.merge_tops.specs.TopCounts.{CountsOpening, OpensCounted};

use merge_search::opening::spreads_of_all;
use merge_search::state::{Search, take_opening};
use merge_sets::graph::Graph;
use merge_sets::judge::Judge;
use merge_sets::opening::{Opening, open_reached};
use std::alloc::AllocError;

/// How many searches of sets there were, how many fragments they opened, and at how many spreads of these they looked.
#[derive(Drop)]
pub struct TopCounts {
    pub lists: u128,
    pub opened: u128,
    pub looked: u128,
}

/// No search was counted.
pub(crate) fn no_counts() -> TopCounts
    ensures lists { result.lists ≡ 0 }
    ensures opened { result.opened ≡ 0 }
    ensures looked { result.looked ≡ 0 }
{
    TopCounts {
        lists: 0,
        opened: 0,
        looked: 0,
    }
}

// Counts a search that opens some fragments, and looks at their spreads.
fn count_opening(counts: &mut TopCounts, opened: usize, looked: u128)
    ensures { CountsOpening opened looked counts.old counts.new }
{
    counts.lists = counts.lists.saturating_add(1);
    counts.opened = counts.opened.saturating_add(opened as u128);
    counts.looked = counts.looked.saturating_add(looked);
}

/// Opens what some fragments reach, and counts that.
///
/// # Errors
///
/// Out of memory.
pub(crate) fn open_counted<J: Judge>(
    graph: &Graph<J>,
    starts: &[usize],
    search: &mut Search,
    counts: &mut TopCounts,
) -> Result<Opening, AllocError>
    requires { All (λ g. g < length graph.now.fragments.items) starts.now }
    ensures opens { let w = world J.judgement graph.now in IfOk result (λ o. Opens w starts.now o.order.items) }
    ensures keeps { IfOk result (λ o. Keeps search.old search.new) }
    ensures stay { IfOk result (λ o. CountsStay search.old search.new) }
    ensures counts { let w = world J.judgement graph.now in
        IfOk result (λ o. OpensCounted w o.order.items counts.old counts.new) }
{
    let mut opening = take_opening(search);
    open_reached(graph, starts, &mut opening)?;
    let looked = spreads_of_all(graph, opening.order.as_slice());
    count_opening(counts, opening.order.len(), looked);
    Ok(opening)
}

/// Adds what the searches of sets opened to what those below fields did.
pub(crate) fn add_counts(search: &mut Search, counts: &TopCounts)
    ensures lists { search.new.lists ≡ min (search.old.lists + counts.now.lists) greatest }
    ensures opened { search.new.opened ≡ min (search.old.opened + counts.now.opened) greatest }
    ensures looked { search.new.looked ≡ min (search.old.looked + counts.now.looked) greatest }
    ensures pairs { search.new.pairs ≡ search.old.pairs }
    ensures searched { search.new.searched ≡ search.old.searched }
    ensures found { search.new.found ≡ search.old.found }
    ensures compared { search.new.compared ≡ search.old.compared }
    ensures judged { search.new.judged ≡ search.old.judged }
{
    search.lists = search.lists.saturating_add(counts.lists);
    search.opened = search.opened.saturating_add(counts.opened);
    search.looked = search.looked.saturating_add(counts.looked);
}
