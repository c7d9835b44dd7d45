//! Questions that were asked: of two numbers, under a flag.
ghost use Rattle.std.specs.Prelude.{◌≡◌, OnOk, Bool, ℕ, false};
ghost use Rattle.merge_search.specs.Log.{in_log, Notes};

use bit_matrix::rows::BitRows;
use std::alloc::{AllocError, Global};

/// The questions that were asked with the flag, and those without.
#[derive(Drop)]
pub struct Log {
    pub flagged: BitRows,
    pub plain: BitRows,
}

/// No question.
pub fn no_questions(alloc: Global) -> Log
    ensures { (e : Bool) (f g : ℕ) → in_log result e f g ≡ false }
{
    Log {
        flagged: BitRows::new(alloc),
        plain: BitRows::new(alloc),
    }
}

/// Whether the very question was asked.
pub fn is_in(log: &Log, e: bool, f: usize, g: usize) -> bool
    ensures { result ≡ in_log log.now e f g }
{
    if e {
        log.flagged.contains(f, g)
    } else {
        log.plain.contains(f, g)
    }
}

/// Adds a question.
///
/// # Errors
///
/// Out of memory.
pub fn note(log: &mut Log, e: bool, f: usize, g: usize) -> Result<(), AllocError>
    ensures { OnOk result (Notes e f g (in_log log.old) (in_log log.new)) }
{
    if e {
        log.flagged.insert(f, g)?;
    } else {
        log.plain.insert(f, g)?;
    }
    Ok(())
}
