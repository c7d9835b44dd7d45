//! The fragments that some reach, each opened once.
ghost use Rattle.std.specs.Prelude.{◌≡◌, ◌<◌, ◌∷◌, [], ℕ, false, OnOk, length};
ghost use Rattle.std.specs.List.{All};
ghost use Rattle.bit_matrix.specs.Set.{has};
ghost use Rattle.merge_sets.specs.World.{world, set_of, spreads_of};
ghost use Rattle.merge_sets.specs.Opening.{Opens};
ghost use Rattle.merge_sets.specs.Sound.{Gains};

use crate::graph::Graph;
use crate::judge::Judge;
use crate::view::{set, spreads};
use bit_matrix::set::BitSet;
use std::alloc::{AllocError, Global};

/// The fragments that are open, in order, and those whose spreads wait.
#[derive(Drop)]
pub struct Opening {
    pub seen: BitSet,
    pub order: Vec<usize>,
    pub waiting: Vec<usize>,
}

/// No fragment is open.
pub fn no_opening(alloc: Global) -> Opening
    ensures seen { (h : ℕ) → has result.seen h ≡ false }
    ensures order { result.order.items ≡ [] }
    ensures waiting { result.waiting.items ≡ [] }
{
    Opening {
        seen: BitSet::new(alloc),
        order: Vec::new(alloc),
        waiting: Vec::new(alloc),
    }
}

// Opens a fragment, unless it is open.
fn open(opening: &mut Opening, f: usize) -> Result<(), AllocError>
    ensures { OnOk result (Gains (f ∷ []) (f ∷ []) opening.old opening.new) }
{
    if opening.seen.insert(f)? {
        opening.order.push(f)?;
        opening.waiting.push(f)?;
    }
    Ok(())
}

/// Opens some fragments.
///
/// # Errors
///
/// Out of memory.
pub fn open_all(fragments: &[usize], opening: &mut Opening) -> Result<(), AllocError>
    ensures { OnOk result (Gains fragments.now fragments.now opening.old opening.new) }
{
    for f in fragments {
        open(opening, *f)?;
    }
    Ok(())
}

/// Opens the fragments that one spreads.
///
/// # Errors
///
/// Out of memory.
pub fn follow<J: Judge>(graph: &Graph<J>, f: usize, opening: &mut Opening) -> Result<(), AllocError>
    ensures { let w = world J.judgement graph.now in let list = spreads_of w (set_of w f) in
        OnOk result (Gains list list opening.old opening.new) }
{
    open_all(spreads(graph, set(graph, f)), opening)
}

/// Closes all that is open. The room stays, for the next search.
pub fn close_all(opening: &mut Opening)
    ensures seen { (h : ℕ) → has opening.new.seen h ≡ false }
    ensures order { opening.new.order.items ≡ [] }
    ensures waiting { opening.new.waiting.items ≡ [] }
{
    opening.seen.clear();
    opening.order.clear();
    opening.waiting.clear();
}

/// Opens what some fragments reach, and nothing else.
///
/// # Errors
///
/// Out of memory.
pub fn open_reached<J: Judge>(
    graph: &Graph<J>,
    starts: &[usize],
    opening: &mut Opening,
) -> Result<(), AllocError>
    requires { All (λ g. g < length graph.now.fragments.items) starts.now }
    ensures { OnOk result (Opens (world J.judgement graph.now) starts.now opening.new.order.items) }
{
    close_all(opening);
    open_all(starts, opening)?;
    while let Some(f) = opening.waiting.pop() {
        follow(graph, f, opening)?;
    }
    Ok(())
}
