//! The report on a file of rows.
ghost use Rattle.std.specs.Prelude.{◌≡◌, ◌+◌, [], ◌∷◌, ◌++◌, ◌==◌, List, OnOk, count_by, string_bytes};
ghost use Rattle.row_files.specs.Counts.{HasCounted, Judged, counted, counts_text, differs};

use std::alloc::{AllocError, Global};

/// The report on a file of rows.
#[derive(Drop)]
pub struct Report {
    /// Each row that differs: what is expected and what came.
    pub text: String,
    // How many rows agree, and how many differ.
    agree: usize,
    differ: usize,
}

impl Report {
    /// The report on no row.
    pub fn new(alloc: Global) -> Report
        ensures { HasCounted [] result }
    {
        Report {
            text: String::new(alloc),
            agree: 0,
            differ: 0,
        }
    }

    /// Whether all rows agree.
    pub fn is_clean(&self) -> bool
        ensures { (all : List Judged) → HasCounted all self.now → result ≡ (count_by differs all == 0) }
    {
        self.differ == 0
    }

    /// Counts a row, given what is expected and what came.
    ///
    /// # Errors
    ///
    /// Out of memory.
    pub fn count(&mut self, wanted: &str, came: &str) -> Result<(), AllocError>
        ensures { OnOk result ((all : List Judged) → HasCounted all self.old
            → HasCounted (record { wanted = wanted.now; came = came.now } ∷ all) self.new) }
    {
        if came == wanted {
            self.agree = self.agree.saturating_add(1);
            return Ok(());
        }
        self.differ = self.differ.saturating_add(1);
        self.show(wanted, came)
    }

    // Appends what is expected of the last row and what came.
    fn show(&mut self, wanted: &str, came: &str) -> Result<(), AllocError>
        ensures agree { self.new.agree ≡ self.old.agree }
        ensures differ { self.new.differ ≡ self.old.differ }
    {
        let number = self.agree.saturating_add(self.differ);
        writeln!(self.text, "row {number}, expected:")?;
        self.text.push_str(wanted)?;
        self.text.push_str("came:\n")?;
        self.text.push_str(came)
    }

    /// Appends the counts.
    ///
    /// # Errors
    ///
    /// Out of memory; the counts are unchanged.
    pub fn end(&mut self, file: &str) -> Result<(), AllocError>
        ensures text { OnOk result
            (string_bytes self.new.text ≡ string_bytes self.old.text ++ counts_text file.now self.old) }
        ensures same { (all : List Judged) → HasCounted all self.old → HasCounted all self.new }
    {
        let all = self.agree.saturating_add(self.differ);
        writeln!(self.text, "{file}: {} of {all} agree", self.agree)
    }
}
