//! Sets of numbers.
ghost use Rattle.std.specs.Prelude.{◌≡◌, ℕ, IfOk, true};
ghost use Rattle.std.specs.List.{All, Contains};
ghost use Rattle.bit_matrix.specs.Set.{has};

use bit_matrix::set::BitSet;
use std::alloc::{AllocError, Global};

/// Some numbers as a set.
///
/// # Errors
///
/// Out of memory.
pub fn set_of_numbers(alloc: Global, list: &[usize]) -> Result<BitSet, AllocError>
    ensures all { IfOk result (λ set. All (λ g. has set g ≡ true) list.now) }
    ensures only { IfOk result (λ set. (g : ℕ) → has set g ≡ true → Contains list.now g) }
{
    let mut set = BitSet::new(alloc);
    for number in list {
        set.insert(*number)?;
    }
    Ok(set)
}
