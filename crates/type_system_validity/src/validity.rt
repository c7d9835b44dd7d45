//! Whether a schema is a valid type system (GraphQL, October 2021, section 3).
ghost use Rattle.std.specs.Prelude.{◌≡◌, ◌↔◌, IfOk, IsTrue};
ghost use Rattle.language_values.specs.ValuesPrinted.{printed_value};
ghost use Rattle.type_system_defaults.specs.Conforming.{HasConformingDefaults};
ghost use Rattle.type_system_validity.specs.Valid.{HasValidDefinitions, IsValidTypeSystem};

use language::error::OutOfMemory;
use meta::check::CheckedScalar;
use schema::model::{SchemaType, SchemaTypeOf};
use std::alloc::Global;
use type_system::schema_faults;
use type_system_defaults::default_value_faults;

/// Whether a schema is a valid type system: whether [`schema_faults`] and [`default_value_faults`] have none.
///
/// # Errors
///
/// Out of memory, also in a check.
pub fn is_valid_type_system<S: CheckedScalar>(
    alloc: Global,
    schema: &SchemaType<S>,
) -> Result<bool, OutOfMemory>
    ensures { IfOk result (λ valid. IsTrue valid
        ↔ IsValidTypeSystem schema.now S.may_answer (printed_value S.text S.str_of)) }
{
    if has_valid_definitions(alloc, schema)? {
        has_conforming_defaults(alloc, schema)
    } else {
        Ok(false)
    }
}

/// Whether the roots, the types and the directives of a schema are valid: whether [`schema_faults`] has none.
///
/// # Errors
///
/// Out of memory.
pub fn has_valid_definitions<S: Drop, C: Drop>(
    alloc: Global,
    schema: &SchemaTypeOf<S, C>,
) -> Result<bool, OutOfMemory>
    ensures { IfOk result (λ valid. IsTrue valid ↔ HasValidDefinitions schema.now) }
{
    let faults = schema_faults(alloc, schema)?;
    Ok(faults.as_slice().is_empty())
}

/// Whether each default value of a schema conforms to its type: whether [`default_value_faults`] has none.
///
/// # Errors
///
/// Out of memory, also in a check.
pub fn has_conforming_defaults<S: CheckedScalar>(
    alloc: Global,
    schema: &SchemaType<S>,
) -> Result<bool, OutOfMemory>
    ensures { IfOk result (λ valid. IsTrue valid
        ↔ HasConformingDefaults schema.now S.may_answer (printed_value S.text S.str_of)) }
{
    let faults = default_value_faults(alloc, schema)?;
    Ok(faults.as_slice().is_empty())
}
