//! A list of lists, stored in one vector.
ghost use Rattle.std.specs.Prelude.{◌≡◌, ◌+◌, ◌++◌, ◌∷◌, [], List, OnErr, OnOk, length};
ghost use Rattle.jagged_lists.specs.Lists.{Holds, list_at};

use std::alloc::{AllocError, Global};

/// Lists of items, stored one after the other in one vector, so that many lists cost few allocations.
#[derive(Drop)]
pub struct FlatLists<T> {
    /// The items of all lists, then those of the next list, which has not ended yet.
    pub items: Vec<T>,
    /// The index in `items` at which each list starts, and the one after its end.
    pub ranges: Vec<(usize, usize)>,
    /// The index in `items` at which the next list starts.
    pub start: usize,
}

// The items from `start` up to `end`, or none if that range is not within them.
fn stretch<T>(items: &[T], start: usize, end: usize) -> &[T]
    ensures { (before there after : List T) → items.now ≡ before ++ (there ++ after) → start ≡ length before
        → end ≡ length before + length there → result.now ≡ there }
{
    match items.get(start..end) {
        Some(found) => found,
        None => &[],
    }
}

impl<T> FlatLists<T> {
    /// No lists.
    pub fn new(alloc: Global) -> FlatLists<T>
        ensures { Holds [] [] result }
    {
        FlatLists {
            items: Vec::new(alloc),
            ranges: Vec::new(alloc),
            start: 0,
        }
    }

    /// Ends the next list: the items that were added since the last one ended become a list.
    ///
    /// # Errors
    ///
    /// Out of memory; the lists, and the items of the next one, are the same then.
    pub fn end_list(&mut self) -> Result<(), AllocError>
        ensures ok { OnOk result ((ls : List (List T)) (next : List T) → Holds ls next self.old
            → Holds (ls ++ next ∷ []) [] self.new) }
        ensures err { OnErr result ((ls : List (List T)) (next : List T) → Holds ls next self.old
            → Holds ls next self.new) }
    {
        let end = self.items.len();
        self.ranges.push((self.start, end))?;
        self.start = end;
        Ok(())
    }

    /// The list of an index, counted from 0; the empty list for an index past the last.
    pub fn list(&self, number: usize) -> &[T]
        ensures { (ls : List (List T)) (next : List T) → Holds ls next self.now → result.now ≡ list_at ls number }
    {
        match self.ranges.get(number) {
            Some((start, end)) => stretch(self.items.as_slice(), *start, *end),
            None => &[],
        }
    }
}
