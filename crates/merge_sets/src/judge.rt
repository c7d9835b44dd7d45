//! The judgement of one pair of fields, which comes from outside.
ghost use Rattle.std.specs.Prelude.{◌≡◌, IfOk, ℕ};
ghost use Rattle.std.specs.Bool.{OnTrue};
ghost use Rattle.merge_sets.specs.Judgement.{AlikeAgree, ExclusiveStays, Judgement, KinAgree, ObjectsApart};

use std::alloc::AllocError;

/// Judges two fields by their numbers, regardless of what stands below them.
pub trait Judge {
    ghost judgement: { Self → Judgement };
    // one field, and another that is plainly like it
    ghost are_alike: { Self → ℕ → ℕ → Type 0 };

    // one field, and another of its kind
    ghost are_kin: { Self → ℕ → ℕ → Type 0 };

    // the number of the object type around a field
    ghost objects: { Self → ℕ → ℕ };

    ghost agree: { (j : Self) → AlikeAgree (judgement j) (are_alike j) };

    ghost kin_agree: { (j : Self) → KinAgree (judgement j) (are_kin j) };

    ghost exclusive_stays: { (j : Self) → ExclusiveStays (judgement j) };

    ghost objects_apart: { (j : Self) → ObjectsApart (judgement j) (objects j) };

    /// Whether no object is asked for both; `exclusive` says that this holds already for the fields around them.
    fn are_exclusive(&self, exclusive: bool, left: usize, right: usize) -> bool
        ensures { result ≡ (judgement self.now).exclusive exclusive left right };

    /// Whether it is plain that a field is like another one. `false` says nothing.
    ///
    /// Two fields that are like a third do not conflict under any flag, so many of one name need not be compared pair
    /// by pair.
    fn is_plainly_like(&self, one: usize, other: usize) -> bool
        ensures { OnTrue result (are_alike self.now one other) };

    /// Whether it is plain that a field is of the kind of another one: no judgement tells the two apart. `false` says
    /// nothing.
    fn is_kin(&self, one: usize, other: usize) -> bool
        ensures { OnTrue result (are_kin self.now one other) };

    /// A number for the object type around a field, or 0 where it isn't known. No object is asked for two fields that
    /// have different numbers from 1 on.
    fn object_number(&self, field: usize) -> usize
        ensures { result ≡ objects self.now field };

    /// Whether the two conflict by themselves: by their names, arguments or types.
    ///
    /// # Errors
    ///
    /// Out of memory.
    fn are_in_conflict(
        &self,
        exclusive: bool,
        left: usize,
        right: usize,
    ) -> Result<bool, AllocError>
        ensures { IfOk result (λ b. b ≡ (judgement self.now).conflict exclusive left right) };
}
