//! The sets of a document by number.
ghost use Rattle.merge_sets.specs.Graph.{Falling, AreListed};

use crate::node::{InnerSet, SetNode};

/// The sets of a document by number, the set of each fragment, and an order of the sets that are searched.
///
/// A set refers to smaller sets alone. The sets of the fragments are searched; another may only stand below a field.
#[derive(Drop)]
pub struct Graph<J> {
    pub judge: J,
    pub sets: Vec<SetNode>,
    pub fragments: Vec<usize>,
    pub order: Vec<usize>,
    /// The sets of inline fragments, by the sets that they stand in, and in the order of a walk.
    pub inner: Vec<InnerSet>,
    /// The spreads of sets with inner ones, as they are written.
    pub written: Vec<usize>,
    /// How many findings are enough; 0 asks for all.
    pub limit: usize,
    ghost falling: { Falling sets.items fragments.items },
    ghost listed: { AreListed fragments.items order.items },
}
