//! Values against types that a schema makes.

ghost use Rattle.std.specs.Prelude.{IfOk, string_bytes};
ghost use Rattle.language_types.specs.Types.{shape};
ghost use Rattle.language_values.specs.ValuesPrinted.{printed_value};
ghost use Rattle.literals.specs.Judged.{written_type};
ghost use Rattle.validation_examples.specs.MadeTypes.{SaysFault};

use std::alloc::Global;
use validation::{
    CheckedScalar, DefaultScalarValue, InputValue, OutOfMemory, ScalarValue, SchemaType, Type,
    validate_literal_value,
};

/// The fault of a value against a type of the schema, as a text, by how the type is written.
///
/// # Errors
///
/// Out of memory.
pub fn fault_of(
    alloc: Global,
    schema: &SchemaType<DefaultScalarValue>,
    wanted: &Type,
    value: &InputValue<DefaultScalarValue>,
) -> Result<String, OutOfMemory>
    ensures { IfOk result
        (λ said. SaysFault ⟦<DefaultScalarValue as CheckedScalar>⟧.may_answer
        (printed_value ⟦<DefaultScalarValue as ScalarValue>⟧.text ⟦<DefaultScalarValue as ScalarValue>⟧.str_of)
        schema.now value.now (written_type schema.now (shape wanted.now)) (string_bytes said)) }
{
    let named = wanted.as_borrowed();
    if !schema.is_known(named.innermost_name()) {
        return Ok(String::from_str(alloc, "unknown type")?);
    }
    let made = schema.make_type(alloc, named)?;
    match validate_literal_value(alloc, schema, &made, value)? {
        Some(fault) => Ok(fault),
        None => Ok(String::from_str(alloc, "none")?),
    }
}
