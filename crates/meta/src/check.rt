//! Checks of values.
ghost use Rattle.std.specs.Prelude.{Result};
ghost use Rattle.meta.specs.Answers.{SameAnswer};
ghost use Rattle.language_values.specs.declared.value.InputValue.{InputValue};
ghost use Rattle.language_types.specs.declared.error.CheckError.{CheckError};

use language_types::error::CheckError;
use language_values::scalar::ScalarValue;
use language_values::value::InputValue;
use std::alloc::Global;

/// A type of scalar values together with its type of checks.
///
/// A check can run on every value. It gives the same answer to the same value each time, down to the
/// text of a refusal, unless it runs out of memory.
pub trait CheckedScalar: ScalarValue {
    /// The check that a scalar, an enum or an input object keeps.
    type Check: Drop;

    // The answers that the check may give to the value.
    ghost may_answer: { Self.Check → InputValue Self → Result (Unit {0}) CheckError → Type 0 };

    /// Runs the check on a value: `Ok` if the value is of the type.
    ///
    /// # Errors
    ///
    /// `Refused` with a text if the value is not of the type, or `OutOfMemory`.
    fn run_check(
        check: &Self::Check,
        alloc: Global,
        value: &InputValue<Self>,
    ) -> Result<(), CheckError>
        ensures { may_answer check.now value.now result };

    // All answers of a check to one value are the same.
    ghost one_answer: { (c : Self.Check) (v : InputValue Self) (r s : Result (Unit {0}) CheckError) → may_answer c v r
        → may_answer c v s → SameAnswer r s };
}
