//! A map from names to values, in insertion order.
//!
//! The first name of a slot takes it, so most look-ups compare one name. A name whose slot is taken goes
//! into an ordered map. Hostile names can at worst send every look-up to that map, which takes
//! logarithmic time.
ghost use Rattle.std.specs.Prelude.{◌≡◌, ℕ, List, IfOk};
ghost use Rattle.name_tables.specs.Looking.{other_index, AreHeld, AreTaken, AreWithin};

use crate::slots::{slot_count, slot_of};
use std::alloc::{AllocError, Global};
use std::collections::BTreeMap;

/// Distinct names, each with a value, in insertion order.
#[derive(Drop)]
pub struct NameMap<'a, T> {
    entries: Vec<(&'a str, T)>,
    /// For each slot, 1 plus the index of the name that took it, or 0 if it is free.
    slots: Vec<usize>,
    /// The indices of the names whose slots other names took.
    others: BTreeMap<&'a str, usize>,
    ghost held: { AreHeld entries.items slots.items },
    ghost within: { AreWithin entries.items others },
    ghost taken: { AreTaken slots.items others },
}

impl<'a, T: Copy> NameMap<'a, T> {
    ghost use Rattle.std.specs.Prelude.{◌≡◌, ◌↔◌, ◌≤◌, ◌*◌, [], ℕ, min, List, None, Some, IsOk, IsTrue, OnErr, OnOk};
    ghost use Rattle.std.specs.Prelude.{IfOk, length, slice_get, if◌then◌else◌};
    ghost use Rattle.std.specs.Str.{bytes_eq};
    ghost use Rattle.name_tables.specs.Adding.{or_else, Adds, IsUnchanged};
    ghost use Rattle.name_tables.specs.Looking.{held_by, index_held, is_named, other_index};
    ghost use Rattle.name_tables.specs.Maps.{entries_of, index_of, slots_in, value_at, value_of};

    /// An empty map without slots: each name will go into the ordered map. Allocates nothing.
    pub fn new(alloc: Global) -> NameMap<'a, T>
        ensures entries { entries_of result ≡ [] }
        ensures none { (name : List ℕ) → index_of result name ≡ None }
    {
        NameMap {
            entries: Vec::new(alloc),
            slots: Vec::new(alloc),
            others: BTreeMap::new(alloc),
        }
    }

    /// An empty map with at least two slots for each of this many names, up to a million slots.
    ///
    /// # Errors
    ///
    /// Out of memory.
    pub fn with_slots(alloc: Global, names: usize) -> Result<NameMap<'a, T>, AllocError>
        ensures slots { IfOk result (λ m. 2 * min names 524288 ≤ slots_in m) }
        ensures entries { IfOk result (λ m. entries_of m ≡ []) }
        ensures none { IfOk result (λ m. (name : List ℕ) → index_of m name ≡ None) }
    {
        let slots = vec![in alloc; 0; slot_count(names)]?;
        Ok(NameMap {
            entries: Vec::new(alloc),
            slots,
            others: BTreeMap::new(alloc),
        })
    }

    /// The number of names.
    pub fn len(&self) -> usize
        ensures { result ≡ length (entries_of self.now) }
    {
        self.entries.len()
    }

    /// The name at an index, counted from 0 in insertion order, and its value.
    pub fn entry(&self, index: usize) -> Option<(&'a str, T)>
        ensures { result ≡ slice_get (entries_of self.now) index }
    {
        self.entries.get(index).copied()
    }

    // The value of the name at an index.
    fn value(&self, index: usize) -> Option<T>
        ensures { result ≡ value_at (entries_of self.now) (Some index) }
    {
        match self.entries.get(index) {
            Some((_, value)) => Some(*value),
            None => None,
        }
    }

    // The content of the slot of a name, if there are slots.
    fn held(&self, name: &str) -> Option<usize>
        ensures { result ≡ held_by self.now.slots.items name.now }
    {
        if self.slots.is_empty() {
            return None;
        }
        let slot = slot_of(name, self.slots.len());
        self.slots.get(slot).copied()
    }

    // Whether there are slots and that of the name is free.
    fn is_free(&self, name: &str) -> bool
        ensures { IsTrue result ↔ (held_by self.now.slots.items name.now ≡ Some 0) }
    {
        match self.held(name) {
            Some(held) => held == 0,
            None => false,
        }
    }

    // Whether the name is at this index.
    fn is_at(&self, index: usize, name: &str) -> bool
        ensures { result ≡ is_named (slice_get self.now.entries.items index) name.now }
    {
        match self.entry(index) {
            Some((found, _)) => found == name,
            None => false,
        }
    }

    // The index of a name in the ordered map.
    fn other(&self, name: &str) -> Option<usize>
        ensures { result ≡ other_index self.now.others name.now }
    {
        self.others.get(name).copied()
    }

    // The index of a name, by the content of its slot.
    fn index_held(&self, held: usize, name: &str) -> Option<usize>
        ensures { result ≡ index_held self.now.entries.items self.now.others name.now held }
    {
        if held == 0 {
            return None;
        }
        if self.is_at(held - 1, name) {
            return Some(held - 1);
        }
        self.other(name)
    }

    /// The index of a name, counted from 0 in insertion order, if the map has it.
    pub fn index(&self, name: &str) -> Option<usize>
        ensures { result ≡ index_of self.now name.now }
    {
        match self.held(name) {
            Some(held) => self.index_held(held, name),
            None => self.other(name),
        }
    }

    /// Adds a name with a value, unless the map has it. Returns the index of a name that the map had, and
    /// `None` for a new one, which gets the next index.
    ///
    /// # Errors
    ///
    /// Out of memory, for a new name alone; the map is unchanged then.
    pub fn insert(&mut self, name: &'a str, value: T) -> Result<Option<usize>, AllocError>
        ensures earlier { IfOk result (λ index. index ≡ index_of self.old name.now) }
        ensures adds { OnOk result (Adds name.entry value self.old self.new) }
        ensures err { OnErr result (IsUnchanged self.old self.new) }
        ensures succeeds { (index : ℕ) → index_of self.old name.now ≡ Some index → IsOk result }
    {
        if self.is_free(name) {
            self.take_slot(name, value)?;
            return Ok(None);
        }
        match self.index(name) {
            Some(index) => Ok(Some(index)),
            None => {
                self.add_other(name, value)?;
                Ok(None)
            }
        }
    }

    /// Adds a name with a value, unless the map has it. Returns the value that the name had, and keeps
    /// it; `None` for a new name.
    ///
    /// # Errors
    ///
    /// Out of memory, for a new name alone; the map is unchanged then.
    pub fn note(&mut self, name: &'a str, value: T) -> Result<Option<T>, AllocError>
        ensures earlier { IfOk result (λ earlier. earlier ≡ value_of self.old name.now) }
        ensures noted { OnOk result ((other : List ℕ) → value_of self.new other
            ≡ or_else (value_of self.old other) (if bytes_eq name.now other then Some value else None)) }
        ensures err { OnErr result (IsUnchanged self.old self.new) }
        ensures succeeds { (index : ℕ) → index_of self.old name.now ≡ Some index → IsOk result }
    {
        match self.insert(name, value)? {
            Some(index) => Ok(self.value(index)),
            None => Ok(None),
        }
    }

    // Adds a name whose slot is free.
    fn take_slot(&mut self, name: &'a str, value: T) -> Result<(), AllocError>
        requires { held_by self.old.slots.items name.now ≡ Some 0 }
        ensures adds { OnOk result (Adds name.entry value self.old self.new) }
        ensures err { OnErr result (IsUnchanged self.old self.new) }
    {
        self.entries.push((name, value))?;
        let slot = slot_of(name, self.slots.len());
        self.slots[slot] = self.entries.len();
        Ok(())
    }

    // Adds a name whose slot is not free.
    fn add_other(&mut self, name: &'a str, value: T) -> Result<(), AllocError>
        requires taken { held_by self.old.slots.items name.now ≡ Some 0 → ⊥ }
        requires new { index_of self.old name.now ≡ None }
        ensures adds { OnOk result (Adds name.entry value self.old self.new) }
        ensures err { OnErr result (IsUnchanged self.old self.new) }
    {
        let next = self.entries.len();
        self.entries.push((name, value))?;
        match self.others.insert(name, next) {
            Ok(_) => Ok(()),
            Err(_) => {
                self.entries.pop();
                Err(AllocError)
            }
        }
    }
}
