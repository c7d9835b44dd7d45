//! Places at which a name is listed that is listed at another one, too: found by the name, and not place by place.
ghost use Rattle.std.specs.Prelude.{◌≡◌, ◌<◌, ◌++◌, ◌∷◌, [], ℕ, IfOk, IfSome, OnOk, true};
ghost use Rattle.std.specs.List.{All, Contains};
ghost use Rattle.bit_matrix.specs.Set.{has};
ghost use Rattle.merge_certificates.specs.Near.{IsApartRow, IsNear, listed_at};
ghost use Rattle.merge_certificates.specs.Quiet.{AreKept};

use crate::touched::{Touched, names_at};
use bit_matrix::set::BitSet;
use merge_sets::groups::{fields_named, make_set, sorted_fields};
use merge_sets::node::{Entry, SetNode};
use std::alloc::{AllocError, Global};

/// The places by the names that are listed there, and those of which nothing is told.
#[derive(Drop)]
pub struct Near {
    pub untold: BitSet,
    /// A field stands for a name and a place at which it is listed.
    pub index: SetNode,
}

// Adds a place for each of the names that are listed there.
fn add_places(k: usize, list: &[usize], entries: &mut Vec<Entry>) -> Result<(), AllocError>
    ensures kept { OnOk result ((a : Entry) → Contains entries.old.items a → Contains entries.new.items a) }
    ensures added { OnOk result (All (λ n. Contains entries.new.items (listed_at n k)) list.now) }
{
    for name in list {
        entries.push(Entry {
            response: *name,
            field: k,
            below: None,
        })?;
    }
    Ok(())
}

/// The first so many places by the names that are listed there.
///
/// # Errors
///
/// Out of memory.
pub fn near_of(alloc: Global, touched: &Touched, count: usize) -> Result<Near, AllocError>
    ensures { IfOk result (λ near. IsNear touched.now count near.untold near.index.own.items) }
{
    let mut untold = BitSet::new(alloc);
    let mut entries = Vec::new(alloc);
    for l in 0..count {
        match names_at(touched, l) {
            Some(list) => add_places(l, list, &mut entries)?,
            None => {
                untold.insert(l)?;
            }
        }
    }
    let index = make_set(alloc, entries, Vec::new(alloc))?;
    Ok(Near { untold, index })
}

// Adds the places that some fields stand for.
fn add_group(group: &[Entry], rows: &mut BitSet) -> Result<(), AllocError>
    ensures kept { OnOk result (AreKept rows.old rows.new) }
    ensures added { OnOk result (All (λ a. has rows.new a.field ≡ true) group.now) }
{
    for field in group {
        rows.insert(field.field)?;
    }
    Ok(())
}

/// A set of places: at all others of the first so many no name is listed that is listed at this one. None where nothing
/// is told of it.
///
/// # Errors
///
/// Out of memory.
pub fn places_near(
    alloc: Global,
    touched: &Touched,
    near: &Near,
    k: usize,
    count: usize,
) -> Result<Option<BitSet>, AllocError>
    ensures { let n = near.now in IfOk result (λ o. IsNear touched.now count n.untold n.index.own.items
        → IfSome o (IsApartRow touched.now k count)) }
{
    let Some(list) = names_at(touched, k) else {
        return Ok(None);
    };
    let mut rows = BitSet::new(alloc);
    rows.insert_below(&near.untold, count)?;
    for name in list {
        let group = fields_named(sorted_fields(&near.index), *name);
        add_group(group, &mut rows)?;
    }
    Ok(Some(rows))
}
