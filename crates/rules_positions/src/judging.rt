//! Whether a variable is allowed where it is used.

ghost use Rattle.std.specs.Prelude.{◌≡◌, ◌↔◌, IfOk, IsTrue, string_bytes};
ghost use Rattle.language_types.specs.Types.{borrowed_shape, printed, shape};
ghost use Rattle.schema.specs.Subtype.{IsSubtype};
ghost use Rattle.rules_positions.specs.TypedUses.{use_value, UseValue};
ghost use Rattle.rules_positions.specs.VariablesInAllowedPosition.{position_message, type_in_use, Judged};

use crate::first_variables::VariableEntry;
use crate::judged_uses::Judge;
use crate::typed_uses::TypedUse;
use language::error::OutOfMemory;
use language::tree::VariableDefinition;
use language::types::{BorrowedType, Type};
use meta::check::CheckedScalar;
use schema::model::SchemaTypeOf;
use std::alloc::{AllocError, Global};
use walk::ValidatorContext;

// The type that a variable has where it is used.
fn type_in_use<S>(definition: &VariableDefinition<'_, S>) -> Result<Type, OutOfMemory>
    ensures { IfOk result (λ t. shape t ≡ type_in_use definition.now) }
{
    let written = definition.var_type.item.clone()?;
    if definition.default_value.is_some() {
        written.wrap_non_null()
    } else {
        Ok(written)
    }
}

// Whether the type that a variable has where it is used is a subtype of the expected one. Without a default value it is
// the type as it is written, which needs no copy.
fn is_below<S, C>(
    schema: &SchemaTypeOf<S, C>,
    definition: &VariableDefinition<'_, S>,
    expected: BorrowedType<'_>,
) -> Result<bool, OutOfMemory>
    ensures { IfOk result (λ below. IsTrue below
        ↔ IsSubtype schema.now.types (type_in_use definition.now) (borrowed_shape expected.entry)) }
{
    if definition.default_value.is_none() {
        let written = definition.var_type.item.as_borrowed();
        return Ok(schema.is_subtype(written, expected));
    }
    let t = type_in_use(definition)?;
    Ok(schema.is_subtype(t.as_borrowed(), expected))
}

/// Judges whether the variable's type is a subtype of the expected one. A variable with a default value is never null.
pub struct BySubtype;

impl<'u, S: CheckedScalar> Judge<S, TypedUse<'u>> for BySubtype {
    ghost value_type = { UseValue };

    ghost value = { use_value };

    ghost variable_of = { λ u. u.variable };

    ghost judged = { Judged };

    fn variable<'t>(found: &'t TypedUse<'u>) -> &'t str {
        found.variable
    }

    fn judge<'a>(
        alloc: Global,
        ctx: &mut ValidatorContext<'a, S>,
        entry: &VariableEntry<'_, S>,
        found: &TypedUse<'u>,
    ) -> Result<(), OutOfMemory> {
        let below = is_below(ctx.schema, &entry.1, found.expected)?;
        if below {
            return Ok(());
        }
        if ctx.is_full() {
            return Ok(());
        }
        let t = type_in_use(&entry.1)?;
        let message = position_message(alloc, found.variable, t.as_borrowed(), found.expected)?;
        ctx.report_error(message.as_str(), &[entry.0.span.start, found.place])
    }
}

/// The message on a variable of one type where another is expected.
///
/// # Errors
///
/// Out of memory.
pub fn position_message(
    alloc: Global,
    variable: &str,
    t: BorrowedType<'_>,
    expected: BorrowedType<'_>,
) -> Result<String, AllocError>
    ensures { IfOk result (λ message. string_bytes message ≡
        position_message variable.now (printed (borrowed_shape t.entry)) (printed (borrowed_shape expected.entry))) }
{
    format!(in alloc;
        "Variable \"{variable}\" of type \"{t}\" used in position expecting type \"{expected}\""
    )
}
