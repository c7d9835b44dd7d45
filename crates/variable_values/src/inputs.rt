//! The types of an operation's variables.
ghost use Rattle.std.specs.Prelude.{◌≡◌};
ghost use Rattle.std.specs.List.{list_all};
ghost use Rattle.variable_values.specs.Inputs as input;

use language::position::Spanning;
use language::tree::{Operation, VariableDefinition};
use schema::model::SchemaTypeOf;

/// Whether the type of each variable of the operation is a known input type, as it is in a document without errors.
pub fn has_input_types<S, C>(schema: &SchemaTypeOf<S, C>, operation: &Operation<'_, S>) -> bool
    ensures { result ≡ list_all (input.has_input_type schema.now) (input.definitions_of operation.now) }
{
    for (_, definition) in definitions_of(operation) {
        if !is_input_type(schema, definition.var_type.item.innermost_name()) {
            return false;
        }
    }
    true
}

/// The definitions of an operation's variables, with their names.
pub fn definitions_of<'v, 't, S>(
    operation: &'v Operation<'t, S>,
) -> &'v [(Spanning<&'t str>, VariableDefinition<'t, S>)]
    ensures { result.now ≡ input.definitions_of operation.now }
{
    match &operation.variable_definitions {
        None => &[],
        Some(definitions) => definitions.item.items.as_slice(),
    }
}

fn is_input_type<S, C>(schema: &SchemaTypeOf<S, C>, name: &str) -> bool
    ensures { result ≡ input.is_input_in schema.now name.now }
{
    match schema.concrete_type_by_name(name) {
        None => false,
        Some(meta) => meta.is_input(),
    }
}
