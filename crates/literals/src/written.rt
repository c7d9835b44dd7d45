//! The check of values against references to types.
ghost use Rattle.std.specs.Prelude.{◌≡◌, IfOk, List, Option, option_map, string_bytes, ℕ};
ghost use Rattle.language_types.specs.Types.{borrowed_shape};
ghost use Rattle.language_values.specs.ValuesPrinted.{printed_value};
ghost use Rattle.literals.specs.Judged.{WrittenFault};

use crate::expected::type_written;
use crate::judged::fault_of;
use language_types::error::OutOfMemory;
use language_types::types::BorrowedType;
use language_values::value::InputValue;
use meta::check::CheckedScalar;
use schema::model::SchemaType;
use std::alloc::Global;

/// The text of the first fault in a value, for a reference to a type (section 5.6.1). `None` if the value
/// conforms, or if the schema has no type of this name.
///
/// Like [`crate::validate_literal_value`], but no type has to be made. For a value that conforms, allocates only
/// what the checks allocate, and a list of the lists and objects around the value that is judged.
///
/// # Errors
///
/// Out of memory, for the text, for that list or in a check.
pub fn validate_written_value<'a, S: CheckedScalar>(
    alloc: Global,
    schema: &'a SchemaType<S>,
    written: BorrowedType<'a>,
    value: &InputValue<S>,
) -> Result<Option<String>, OutOfMemory>
    ensures fault { IfOk result (λ fault. WrittenFault schema.now S.may_answer (printed_value S.text S.str_of) value.now
        (borrowed_shape written.entry) (option_map string_bytes fault)) }
    ensures alone { IfOk result (λ fault. (other : Option (List ℕ))
        → WrittenFault schema.now S.may_answer (printed_value S.text S.str_of) value.now
        (borrowed_shape written.entry) other → other ≡ option_map string_bytes fault) }
{
    match type_written(schema, written) {
        None => Ok(None),
        Some(expected) => fault_of(alloc, schema, expected, value),
    }
}
