//! The errors that a context keeps.

ghost use Rattle.std.specs.Prelude.{◌≡◌, ◌-◌, ◌++◌, ◌∷◌, [], IsOk, OnErr, OnOk, not, take};
ghost use Rattle.walk.specs.ContextState.{fitting, has_place};
ghost use Rattle.walk.specs.ErrorValue.{share, shares};

use crate::RuleError;
use std::alloc::{AllocError, Global};

/// Errors, how much is kept of them in all (0: all), and how much of that they leave.
///
/// An error takes one, and one more for each 4,096 bytes of its message.
#[derive(Drop)]
pub(crate) struct KeptErrors {
    pub errors: Vec<RuleError>,
    pub limit: usize,
    left: usize,
    ghost counted: { left ≡ limit - shares errors.items },
}

impl KeptErrors {
    /// None, of which all are kept.
    pub fn new(alloc: Global) -> KeptErrors
        ensures errors { result.errors.items ≡ [] }
        ensures limit { result.limit ≡ 0 }
    {
        KeptErrors {
            errors: Vec::new(alloc),
            limit: 0,
            left: 0,
        }
    }

    /// Keeps no more than so much from now on, or all for 0. It drops none that it has.
    pub fn set_limit(&mut self, limit: usize)
        ensures errors { self.new.errors ≡ self.old.errors }
        ensures limit { self.new.limit ≡ limit }
    {
        self.left = left_after_all(limit, self.errors.as_slice());
        self.limit = limit;
    }

    /// Whether no further error is kept.
    pub fn is_full(&self) -> bool
        ensures { result ≡ not (has_place self.now.limit (shares self.now.errors.items)) }
    {
        let has_place = self.limit == 0 || self.left > 0;
        !has_place
    }

    /// Adds an error.
    ///
    /// # Errors
    ///
    /// Out of memory. Nothing is added.
    pub fn push(&mut self, error: RuleError) -> Result<(), AllocError>
        ensures ok { OnOk result (self.new.errors.items ≡ self.old.errors.items ++ error ∷ []) }
        ensures err { OnErr result (self.new.errors.items ≡ self.old.errors.items) }
        ensures limit { self.new.limit ≡ self.old.limit }
    {
        let left = left_after(self.left, &error);
        self.errors.push(error)?;
        self.left = left;
        Ok(())
    }

    /// Adds errors, in their order, as far as they are kept.
    ///
    /// # Errors
    ///
    /// Out of memory, if there are errors to add. Nothing is added.
    pub fn append(&mut self, mut errors: Vec<RuleError>) -> Result<(), AllocError>
        ensures ok { OnOk result (self.new.errors.items
            ≡ self.old.errors.items ++ fitting self.old.limit (shares self.old.errors.items) errors.items) }
        ensures err { OnErr result (self.new.errors.items ≡ self.old.errors.items) }
        ensures limit { self.new.limit ≡ self.old.limit }
        ensures succeeds { errors.items ≡ [] → IsOk result }
    {
        errors.truncate(self.count_fitting(errors.as_slice()));
        if errors.is_empty() {
            return Ok(());
        }
        let left = left_after_all(self.left, errors.as_slice());
        self.errors.append(&mut errors)?;
        self.left = left;
        Ok(())
    }

    // How many of further errors are kept.
    fn count_fitting(&self, errors: &[RuleError]) -> usize
        ensures { take result errors.now ≡ fitting self.now.limit (shares self.now.errors.items) errors.now }
    {
        if self.limit == 0 {
            return errors.len();
        }
        let mut left = self.left;
        for count in 0..errors.len() {
            if left == 0 {
                return count;
            }
            left = left_after(left, &errors[count]);
        }
        errors.len()
    }
}

/// Whether a limit keeps no further error behind these. An error counts as one, and as one more for each 4,096 bytes of
/// its message. A limit of 0 keeps all.
pub fn fill_limit(errors: &[RuleError], limit: usize) -> bool
    ensures { result ≡ not (has_place limit (shares errors.now)) }
{
    let has_place = limit == 0 || left_after_all(limit, errors) > 0;
    !has_place
}

// What an error leaves of so much.
fn left_after(left: usize, error: &RuleError) -> usize
    ensures { result ≡ left - share error.now }
{
    left.saturating_sub(1)
        .saturating_sub(error.message().len() / 4096)
}

// What errors leave of so much.
fn left_after_all(limit: usize, errors: &[RuleError]) -> usize
    ensures { result ≡ limit - shares errors.now }
{
    let mut left = limit;
    for error in errors {
        left = left_after(left, error);
    }
    left
}
