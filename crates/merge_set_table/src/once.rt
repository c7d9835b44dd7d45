//! Numbers without repeats.
ghost use Rattle.std.specs.Prelude.{◌≡◌, true, IfOk};
ghost use Rattle.merge_set_table.specs.Once.{IsEachOnce};

use bit_matrix::set::BitSet;
use language::error::OutOfMemory;
use std::alloc::Global;

/// Up to so many numbers, each is compared with those before it.
const FEW: usize = 16;

// Whether each stands there once.
fn are_each_once(numbers: &[usize]) -> bool
    ensures { result ≡ true → IsEachOnce numbers.now numbers.now }
{
    for place in 0..numbers.len() {
        if numbers[..place].contains(&numbers[place]) {
            return false;
        }
    }
    true
}

// Each of the numbers once, in a list of its own. Which stand there is kept in bits, so that many take no longer each
// than few.
fn copied_once(alloc: Global, numbers: &[usize]) -> Result<Vec<usize>, OutOfMemory>
    ensures { IfOk result (λ v. IsEachOnce numbers.now v.items) }
{
    let mut seen = BitSet::new(alloc);
    let mut once = Vec::new(alloc);
    for number in numbers {
        if seen.insert(*number)? {
            once.push(*number)?;
        }
    }
    Ok(once)
}

/// Lists each of the numbers once, in the order in which they stand first.
///
/// Mostly there are few numbers without a repeat, and then the list itself is returned.
///
/// # Errors
///
/// Out of memory.
pub fn each_once(alloc: Global, numbers: Vec<usize>) -> Result<Vec<usize>, OutOfMemory>
    ensures { IfOk result (λ v. IsEachOnce numbers.items v.items) }
{
    if numbers.len() <= FEW && are_each_once(numbers.as_slice()) {
        return Ok(numbers);
    }
    copied_once(alloc, numbers.as_slice())
}
