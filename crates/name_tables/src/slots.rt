//! The slot of a name: a small hash of its bytes.
//!
//! A table looks at the slot of a name before it looks into a map. Names may share a slot, so the table
//! compares the name that it finds there, and asks the map if it is another. Any hash is correct.
ghost use Rattle.std.specs.Prelude.{◌≡◌, ◌<◌, ◌≤◌, ◌+◌, ◌*◌, min};
ghost use Rattle.name_tables.specs.Slots.{slot_number, weight};

/// The greatest number of slots.
const MOST: usize = 1 << 20;

/// The base of the hash. A little above ten, it separates names that differ in a decimal number; it
/// spreads other names about as well as the best of the 150 odd bases that were tried.
const BASE: u32 = 11;

/// The number of slots for this many names: two to four for each, up to a million; a power of two.
pub fn slot_count(names: usize) -> usize
    ensures some { 0 < result }
    ensures enough { 2 * min names 524288 ≤ result }
    ensures few { result ≤ 4 * names + 1 }
{
    (names.min(MOST / 2) * 2).next_power_of_two()
}

// The hash of a name. All bytes count: many names differ in few bytes, at their start or at their end.
fn weight(bytes: &[u8]) -> u32
    ensures { result ≡ weight bytes.now }
{
    let mut sum = 0u32;
    for byte in bytes {
        sum = sum.wrapping_mul(BASE).wrapping_add(*byte as u32);
    }
    sum
}

/// The slot of a name, counted from 0, among this many, which are a power of two.
pub fn slot_of(name: &str, slots: usize) -> usize
    requires { 0 < slots }
    ensures inside { result < slots }
    ensures exact { result ≡ slot_number name.now slots }
{
    weight(name.as_bytes()) as usize & (slots - 1)
}
