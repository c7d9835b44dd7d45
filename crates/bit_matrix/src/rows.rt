//! A matrix of bits: a set of columns for each row.
ghost use Rattle.std.specs.Prelude.{◌≡◌, ◌<◌, ◌&&◌, ◌||◌, ℕ, false, not, nat_lt, length, IsOk, IsTrue, OnOk, OnErr};
ghost use Rattle.std.specs.Prelude.{IfOk};
ghost use Rattle.bit_matrix.specs.Count.{count_below};
ghost use Rattle.bit_matrix.specs.Rows.{marked};
ghost use Rattle.bit_matrix.specs.Set.{has};

use crate::set::BitSet;
use std::alloc::{AllocError, Global};

/// A set of columns for each row, both counted from 0. Empty rows own no words.
#[derive(Drop)]
pub struct BitRows {
    alloc: Global,
    rows: Vec<BitSet>,
}

impl BitRows {
    /// A matrix whose rows are all empty.
    pub fn new(alloc: Global) -> BitRows
        ensures { (i j : ℕ) → marked result i j ≡ false }
    {
        BitRows {
            alloc,
            rows: Vec::new(alloc),
        }
    }

    /// Whether a column is in the set of a row.
    pub fn contains(&self, row: usize, column: usize) -> bool
        ensures { result ≡ marked self.now row column }
    {
        match self.rows.get(row) {
            Some(set) => set.contains(column),
            None => false,
        }
    }

    /// Adds a column to the set of a row.
    ///
    /// # Errors
    ///
    /// Out of memory, for a new member alone; no set has changed then.
    pub fn insert(&mut self, row: usize, column: usize) -> Result<(), AllocError>
        ensures there { OnOk result (IsTrue (marked self.new row column)) }
        ensures others { (i j : ℕ) → ((i ≡ row) × (j ≡ column) → ⊥) → marked self.new i j ≡ marked self.old i j }
        ensures err { OnErr result (marked self.new row column ≡ marked self.old row column) }
        ensures succeeds { IsTrue (marked self.old row column) → IsOk result }
    {
        self.grow(row)?;
        self.rows[row].insert(column)?;
        Ok(())
    }

    /// Adds to the set of a row the members of `columns` that are less than the number of the row.
    /// Returns how many of them are new.
    ///
    /// # Errors
    ///
    /// Out of memory; no set has changed then.
    pub fn insert_below(&mut self, row: usize, columns: &BitSet) -> Result<usize, AllocError>
        ensures row { OnOk result ((j : ℕ) → marked self.new row j
            ≡ (marked self.old row j || (has columns.now j && nat_lt j row))) }
        ensures others { (i j : ℕ) → (i ≡ row → ⊥) → marked self.new i j ≡ marked self.old i j }
        ensures added { IfOk result (λ added. added
            ≡ count_below (λ j. marked self.new row j && not (marked self.old row j)) row) }
        ensures err { OnErr result ((i j : ℕ) → marked self.new i j ≡ marked self.old i j) }
    {
        self.grow(row)?;
        self.rows[row].insert_below(columns, row)
    }

    // Adds empty rows up to this one.
    fn grow(&mut self, row: usize) -> Result<(), AllocError>
        ensures same { (i j : ℕ) → marked self.new i j ≡ marked self.old i j }
        ensures room { OnOk result (row < length self.new.rows.items) }
        ensures succeeds { row < length self.old.rows.items → IsOk result }
    {
        while self.rows.len() <= row {
            self.rows.push(BitSet::new(self.alloc))?;
        }
        Ok(())
    }
}
