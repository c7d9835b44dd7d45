//! Whether a variable may stand where it is used, by its own default value and that of the place.

ghost use Rattle.std.specs.Prelude.{◌≡◌, ◌||◌, ◌↔◌, IsTrue};
ghost use Rattle.language_types.specs.Types.{borrowed_shape, is_never_null};
ghost use Rattle.rules_specified_uses.specs.ValueUses.{use_value, UseValue};
ghost use Rattle.rules_specified_positions.specs.Usages.{has_usable_default, is_null, type_to_fit, Fits, IsAllowed};
ghost use Rattle.rules_specified_positions.specs.Usages.{Judged};

use language::error::OutOfMemory;
use language::tree::VariableDefinition;
use language::types::BorrowedType;
use language::value::InputValue;
use meta::check::CheckedScalar;
use rules_positions::first_variables::VariableEntry;
use rules_positions::judged_uses::Judge;
use rules_positions::judging::position_message;
use rules_specified_uses::value_uses::PlacedUse;
use schema::model::SchemaTypeOf;
use std::alloc::Global;
use walk::ValidatorContext;

fn is_null<S>(value: &InputValue<S>) -> bool
    ensures { result ≡ is_null value.now }
{
    match value {
        InputValue::Null => true,
        InputValue::Scalar(_)
        | InputValue::Enum(_)
        | InputValue::Variable(_)
        | InputValue::List(_)
        | InputValue::Object(_) => false,
    }
}

// Whether a variable has a default value other than `null`.
fn has_usable_default<S>(definition: &VariableDefinition<'_, S>) -> bool
    ensures { result ≡ has_usable_default definition.now }
{
    match &definition.default_value {
        Some(value) => !is_null(&value.item),
        None => false,
    }
}

// Whether a default value stands for `null` where a variable is used: that of the variable, or that of the place.
fn has_default<S>(definition: &VariableDefinition<'_, S>, found: &PlacedUse<'_>) -> bool
    ensures { result ≡ (has_usable_default definition.now || found.now.has_default) }
{
    has_usable_default(definition) || found.has_default
}

fn is_never_null(t: BorrowedType<'_>) -> bool
    ensures { result ≡ is_never_null (borrowed_shape t.entry) }
{
    t.is_non_null()
}

// The type that a variable of a type has to fit at a place. Where a default value stands for `null`, the place may be
// non-null.
fn type_to_fit<'a>(
    has_default: bool,
    variable: BorrowedType<'_>,
    place: BorrowedType<'a>,
) -> BorrowedType<'a>
    ensures { borrowed_shape result
        ≡ type_to_fit has_default (borrowed_shape variable.entry) (borrowed_shape place.entry) }
{
    if has_default && (is_never_null(place) && !is_never_null(variable)) {
        place.borrow_inner()
    } else {
        place
    }
}

// Whether a type fits another: it is below it, and the names are the same.
fn fits<S, C>(
    schema: &SchemaTypeOf<S, C>,
    variable: BorrowedType<'_>,
    place: BorrowedType<'_>,
) -> bool
    ensures { IsTrue result
        ↔ Fits schema.now.types (borrowed_shape variable.entry) (borrowed_shape place.entry) }
{
    if variable.innermost_name() == place.innermost_name() {
        schema.is_subtype(variable, place)
    } else {
        false
    }
}

// Whether a variable may stand where it is used.
fn is_allowed<S, C>(
    schema: &SchemaTypeOf<S, C>,
    definition: &VariableDefinition<'_, S>,
    found: &PlacedUse<'_>,
) -> bool
    ensures { IsTrue result ↔ IsAllowed schema.now.types definition.now (use_value found.now).at }
{
    let variable = definition.var_type.item.as_borrowed();
    let nullable = has_default(definition, found);
    let place = type_to_fit(nullable, variable, found.expected);
    fits(schema, variable, place)
}

/// Judges whether a variable's type fits the place where it is used, by the default values of both.
pub struct ByDefaults;

impl<'u, S: CheckedScalar> Judge<S, PlacedUse<'u>> for ByDefaults {
    ghost value_type = { UseValue };

    ghost value = { use_value };

    ghost variable_of = { λ u. u.variable };

    ghost judged = { Judged };

    fn variable<'t>(found: &'t PlacedUse<'u>) -> &'t str {
        found.variable
    }

    fn judge<'a>(
        alloc: Global,
        ctx: &mut ValidatorContext<'a, S>,
        entry: &VariableEntry<'_, S>,
        found: &PlacedUse<'u>,
    ) -> Result<(), OutOfMemory> {
        if is_allowed(ctx.schema, &entry.1, found) {
            return Ok(());
        }
        if ctx.is_full() {
            return Ok(());
        }
        let written = entry.1.var_type.item.as_borrowed();
        let message = position_message(alloc, found.variable, written, found.expected)?;
        ctx.report_error(message.as_str(), &[entry.0.span.start, found.place])
    }
}
