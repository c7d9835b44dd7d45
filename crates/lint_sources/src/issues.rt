//! Errors of documents, with their positions in files.
ghost use Rattle.std.specs.Prelude.{◌≡◌, IfOk, map};
ghost use Rattle.std.specs.BTreeSet.{IsFromIterResult};
ghost use Rattle.std.specs.Ordering.{nat_cmp};
ghost use Rattle.lint_sources.specs.Issues.{IsIssueIn, file_count, file_of};

use crate::sources::{Joined, Place};
use language_types::error::OutOfMemory;
use language_types::position::SourcePosition;
use std::alloc::{AllocError, Global};
use std::collections::BTreeSet;

/// An error of a document, or of a file that could not be judged.
#[derive(Debug, Drop)]
pub struct Issue {
    /// The 0-based number of its file. Of an error of a document it is that of its first place.
    pub file: usize,
    pub message: String,
    /// Its places, in order.
    pub places: Vec<Place>,
}

impl Issue {
    /// An error at these positions of a joined text. One without a position belongs to `file`.
    ///
    /// # Errors
    ///
    /// Out of memory.
    pub fn of_joined(
        alloc: Global,
        joined: &Joined,
        file: usize,
        message: &str,
        locations: &[SourcePosition],
    ) -> Result<Issue, OutOfMemory>
        ensures { IfOk result (IsIssueIn joined.now file message.now locations.now) }
    {
        let mut places = Vec::new(alloc);
        for location in locations {
            places.push(joined.place_of(*location))?;
        }
        let file = file_of_first(places.as_slice(), file);
        let message = String::from_str(alloc, message)?;
        Ok(Issue {
            file,
            message,
            places,
        })
    }
}

// The file of the first place, or `file` without any place.
fn file_of_first(places: &[Place], file: usize) -> usize
    ensures { result ≡ file_of file places.now }
{
    match places.first() {
        Some(place) => place.file,
        None => file,
    }
}

/// The number of files that have errors.
///
/// # Errors
///
/// Out of memory.
pub fn files_of(alloc: Global, issues: &[Issue]) -> Result<usize, OutOfMemory>
    ensures { IfOk result (λ n. n ≡ file_count issues.now) }
{
    let files = file_set(alloc, issues)?;
    Ok(files.len())
}

// The files that have errors.
fn file_set(alloc: Global, issues: &[Issue]) -> Result<BTreeSet<usize>, AllocError>
    ensures { IfOk result (IsFromIterResult nat_cmp (map (λ i. i.file) issues.now)) }
{
    issues.iter().map(|issue| issue.file).collect(alloc)
}
