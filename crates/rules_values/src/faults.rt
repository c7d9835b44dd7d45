//! The fault of a value, by the schema of a context.

ghost use Rattle.std.specs.Prelude.{IfOk, option_map, string_bytes};
ghost use Rattle.language_types.specs.Types.{borrowed_shape};
ghost use Rattle.language_values.specs.ValuesPrinted.{printed_value};
ghost use Rattle.literals.specs.Judged.{WrittenFault};

use language_types::error::OutOfMemory;
use language_types::types::BorrowedType;
use language_values::value::InputValue;
use literals::validate_written_value;
use meta::check::CheckedScalar;
use std::alloc::Global;
use walk::ValidatorContext;

/// The fault of a value against a type as it is written, if it has one.
///
/// # Errors
///
/// Out of memory, also in a check of a scalar or an enum.
pub fn fault_at<'a, S: CheckedScalar>(
    alloc: Global,
    ctx: &ValidatorContext<'a, S>,
    written: BorrowedType<'a>,
    value: &InputValue<S>,
) -> Result<Option<String>, OutOfMemory>
    ensures { IfOk result (λ fault. WrittenFault ctx.now.schema S.may_answer (printed_value S.text S.str_of)
        value.now (borrowed_shape written.entry) (option_map string_bytes fault)) }
{
    validate_written_value(alloc, ctx.schema, written, value)
}
