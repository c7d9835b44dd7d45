//! The values of an operation's variables.
ghost use Rattle.std.specs.Prelude.{◌≡◌, ◌++◌, IfOk, IsPermutation, IsSorted, List, OnOk, map, option_copied};
ghost use Rattle.std.specs.Prelude.{string_bytes, true};
ghost use Rattle.std.specs.BTreeMap.{get_by_text};
ghost use Rattle.language_types.specs.Types.{borrowed_shape, shape};
ghost use Rattle.walk.specs.ErrorValue.{ErrorValue, error_cmp};
ghost use Rattle.variable_values.specs.Inputs.{HasInputTypes, is_input_in};
ghost use Rattle.variable_values.specs.Messages.{OfDefined, OfOperation, OfVariable, error_at, given, texts_of};

use crate::dialects::stands_in;
use crate::faults::add_faults;
use crate::inputs::definitions_of;
use crate::messages::add;
use crate::texts::required_message;
use language::error::OutOfMemory;
use language::position::{SourcePosition, Spanning};
use language::tree::{Operation, VariableDefinition};
use language::types::BorrowedType;
use language::value::{InputValue, Variables};
use meta::check::CheckedScalar;
use schema::model::SchemaType;
use std::alloc::Global;
use walk::RuleError;

/// Reports what is wrong with the values of an operation's variables (GraphQL, October 2021, section 6.1.2).
///
/// The errors are in ascending order, each at the name of its variable. The type of each variable has to be a known
/// input type, as in a document without errors. An input object is read by its `to_object_value`: of several entries
/// of a key the last counts. The dialect is the schema's: in October 2021 a variable or an input field that has a
/// default may be left out, and lists and objects may stand for a scalar that takes any literal. A value without a
/// fault takes no memory for messages, and no stack for its depth: lists hold the parts of a value that are begun.
///
/// # Errors
///
/// Out of memory, here or in the check of a scalar or an input object.
pub fn validate_input_values<S: CheckedScalar>(
    alloc: Global,
    values: &Variables<S>,
    operation: &Spanning<Operation<'_, S>>,
    schema: &SchemaType<S>,
) -> Result<Vec<RuleError>, OutOfMemory>
    requires known { HasInputTypes schema.now operation.now.item }
    ensures faults { IfOk result (λ errors. (es : List ErrorValue)
        × OfOperation schema.now S.may_answer S.text S.str_of values.now operation.now.item es
        × IsPermutation es errors.items) }
    ensures sorted { IfOk result (λ errors. IsSorted error_cmp errors.items) }
{
    let mut errors = Vec::new(alloc);
    for (name, definition) in definitions_of(&operation.item) {
        let messages = messages_of(alloc, schema, values, name.item, definition)?;
        add_errors(alloc, messages.as_slice(), name.span.start, &mut errors)?;
    }
    errors.sort()?;
    Ok(errors)
}

// The messages for a variable of this name and definition.
fn messages_of<S: CheckedScalar>(
    alloc: Global,
    schema: &SchemaType<S>,
    values: &Variables<S>,
    name: &str,
    definition: &VariableDefinition<'_, S>,
) -> Result<Vec<String>, OutOfMemory>
    requires { is_input_in schema.now (shape definition.now.var_type.item).name ≡ true }
    ensures { IfOk result (λ messages. OfDefined schema.now S.may_answer S.text S.str_of
        name.now definition.now (get_by_text values.now name.now) (texts_of messages)) }
{
    if stands_in(schema, definition, values.get(name)) {
        return Ok(Vec::new(alloc));
    }
    messages_of_value(
        alloc,
        schema,
        values,
        name,
        definition.var_type.item.as_borrowed(),
    )
}

// The messages for a variable of this name and type, for which no default stands in.
fn messages_of_value<S: CheckedScalar>(
    alloc: Global,
    schema: &SchemaType<S>,
    values: &Variables<S>,
    name: &str,
    expected: BorrowedType<'_>,
) -> Result<Vec<String>, OutOfMemory>
    requires { is_input_in schema.now (borrowed_shape expected).name ≡ true }
    ensures { IfOk result
        (λ messages. OfVariable schema.now S.may_answer S.text S.str_of name.now (borrowed_shape expected.entry)
        (given (get_by_text values.now name.now)) (texts_of messages)) }
{
    let mut messages = Vec::new(alloc);
    match given_value(values, name) {
        None => {
            if expected.is_non_null() {
                add(required_message(alloc, name, expected)?, &mut messages)?;
            }
        }
        Some(value) => {
            add_faults(alloc, schema, value, expected, name, &mut messages)?;
        }
    }
    Ok(messages)
}

// The value of a variable, if it has one that is not null.
fn given_value<'v, S>(values: &'v Variables<S>, name: &str) -> Option<&'v InputValue<S>>
    ensures { option_copied result ≡ given (get_by_text values.now name.now) }
{
    match values.get(name) {
        None => None,
        Some(InputValue::Null) => None,
        Some(value) => Some(value),
    }
}

// Adds an error for each message, at this place.
fn add_errors(
    alloc: Global,
    messages: &[String],
    place: SourcePosition,
    errors: &mut Vec<RuleError>,
) -> Result<(), OutOfMemory>
    ensures { OnOk result (errors.new.items ≡ errors.old.items
        ++ map (error_at place) (map string_bytes messages.now)) }
{
    for message in messages {
        errors.push(RuleError::new(alloc, message.as_str(), &[place])?)?;
    }
    Ok(())
}
