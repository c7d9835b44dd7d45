//! The fragments that a set may spread.
ghost use Rattle.std.specs.Prelude.{◌≡◌};
ghost use Rattle.merge_set_table.specs.Known.{known_rank};

use fragment_graph::numbers::{Numbers, number};

/// The fragments of the first ranks, among those whose names have numbers.
#[derive(Clone, Copy)]
pub struct KnownFragments<'n, 'a> {
    pub numbers: &'n Numbers<'a>,
    /// The rank of each number.
    pub ranks: &'n [usize],
    /// How many of the ranks count as known.
    pub count: usize,
}

/// The rank of the fragment of a name, if it is known.
pub fn rank_of_name(known: &KnownFragments<'_, '_>, name: &str) -> Option<usize>
    ensures { result ≡ known_rank known.now name.now }
{
    let number = number(known.numbers, name)?;
    let rank = *known.ranks.get(number)?;
    if rank < known.count { Some(rank) } else { None }
}
