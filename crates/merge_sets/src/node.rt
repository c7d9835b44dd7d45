//! Sets of fields.
ghost use Rattle.merge_sets.specs.Names.{AreListed, AreSorted, HaveOwnNames, HaveSameGroups};
ghost use Rattle.merge_sets.specs.Indexed.{firsts_of, sorted_of};

/// A field of a set: the numbers of its response name, of itself, and of the set below it.
#[derive(Clone, Copy, Debug)]
pub struct Entry {
    pub response: usize,
    pub field: usize,
    pub below: Option<usize>,
}

/// Where the set of an inline fragment stands in the set round it: which of the own fields there are its own, and which
/// spreads, of those as they are written. An end is the place after the last.
///
/// It only says what is compared once more where the set round it has a conflict.
#[derive(Clone, Copy, Debug)]
pub struct InnerSet {
    /// The number of the set round it.
    pub outer: usize,
    pub first_field: usize,
    pub fields_end: usize,
    pub first_spread: usize,
    pub spreads_end: usize,
    /// The next set that doesn't stand in this one, by its place among the inner sets of the one round it.
    pub next: usize,
}

/// The own fields of a set by their response names.
#[derive(Drop)]
pub struct NameIndex {
    /// The first field of each response name, in the order in which they stand; None where each has one field.
    pub firsts: Option<Vec<Entry>>,
    /// The own fields by the numbers of their response names; those of one name in their order.
    pub by_name: Vec<Entry>,
}

/// A set: its own fields, and the numbers of the fragments that it spreads.
#[derive(Drop)]
pub struct SetNode {
    pub own: Vec<Entry>,
    pub spreads: Vec<usize>,
    /// None where the numbers of the response names rise from each own field to the next: then the own fields serve.
    pub index: Option<NameIndex>,
    ghost listed: { AreListed (firsts_of own.items index) own.items },
    ghost once: { HaveOwnNames (firsts_of own.items index) },
    ghost sorted: { AreSorted (sorted_of own.items index) },
    ghost grouped: { HaveSameGroups (sorted_of own.items index) own.items },
}
