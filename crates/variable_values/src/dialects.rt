//! Where October 2021 takes values that juniper refuses.
ghost use Rattle.std.specs.Prelude.{◌≡◌, option_copied};
ghost use Rattle.variable_values.specs.Dialects as dialect;

use language::tree::VariableDefinition;
use language::value::InputValue;
use meta::arguments::Argument;
use meta::scalars::ScalarMetaOf;
use schema::model::{Dialect, SchemaTypeOf};

/// Whether lists and objects, too, may stand for a scalar (section 3.5).
pub fn takes_any_value<S, C>(schema: &SchemaTypeOf<S, C>, scalar: &ScalarMetaOf<C>) -> bool
    ensures { result ≡ dialect.takes_any_value schema.now scalar.now }
{
    match schema.dialect() {
        Dialect::Juniper => false,
        Dialect::October2021 => scalar.takes_any_literal(),
    }
}

/// Whether an input field has to be given: its type is non-null, and no default stands in for it (section 3.10).
pub fn is_needed<S, C>(schema: &SchemaTypeOf<S, C>, field: &Argument<S>) -> bool
    ensures { result ≡ dialect.is_needed schema.now field.now }
{
    field.arg_type.is_non_null() && !has_default(schema, field)
}

// Whether a default stands in for an input field.
fn has_default<S, C>(schema: &SchemaTypeOf<S, C>, field: &Argument<S>) -> bool
    ensures { result ≡ dialect.has_default schema.now field.now }
{
    match schema.dialect() {
        Dialect::Juniper => false,
        Dialect::October2021 => field.default_value.is_some(),
    }
}

/// Whether a default stands in for a variable that has this value, or none (section 6.1.2).
pub fn stands_in<S, C>(
    schema: &SchemaTypeOf<S, C>,
    definition: &VariableDefinition<'_, S>,
    value: Option<&InputValue<S>>,
) -> bool
    ensures { result ≡ dialect.stands_in schema.now definition.now (option_copied value.entry) }
{
    match schema.dialect() {
        Dialect::Juniper => false,
        Dialect::October2021 => value.is_none() && definition.default_value.is_some(),
    }
}
