//! The errors that this repository's code reports of values of variables.
ghost use Rattle.std.specs.Prelude.{IfOk, string_bytes};
ghost use Rattle.conformance.specs.Told.{TellsFaults};
ghost use Rattle.variable_values.specs.Inputs.{HasInputTypes};

use crate::judge::lines_of;
use row_files::Lines;
use sample_reader::{ReadError, read_document, read_type, read_value};
use std::alloc::Global;
use std::collections::BTreeMap;
use std::mem;
use validation::ast::{Operation, VariableDefinition};
use validation::parser::Spanning;
use validation::{
    CheckedScalar, DefaultScalarValue, Definition, InputValue, ScalarValue, SchemaType, Variables,
    has_input_types, validate_input_values,
};

/// The errors of the values for the variables of a document's first operation, one per line.
///
/// The values stand after a line `---`. Before them, a line `@NAME TYPE` gives the variable of this name another type.
///
/// # Errors
///
/// A text can't be parsed, or out of memory.
pub fn errors_of_values(
    alloc: Global,
    schema: &SchemaType<DefaultScalarValue>,
    text: &str,
) -> Result<String, ReadError> {
    let (text, told) = text.split_once("\n---\n").unwrap_or((text, ""));
    let mut document = read_document(alloc, text.as_bytes())?;
    let mut lines = Lines::new(told.as_bytes());
    for definition in document.iter_mut() {
        if let Definition::Operation(operation) = definition {
            retype(alloc, &mut operation.item, &mut lines)?;
            let values = variables(alloc, lines.left())?;
            return judge(alloc, schema, &values, operation);
        }
    }
    Ok(String::from_str(alloc, "no operation\n")?)
}

fn judge(
    alloc: Global,
    schema: &SchemaType<DefaultScalarValue>,
    values: &Variables,
    operation: &Spanning<Operation<'_, DefaultScalarValue>>,
) -> Result<String, ReadError> {
    if has_input_types(schema, &operation.item) {
        faults_of(alloc, schema, values, operation)
    } else {
        Ok(String::from_str(alloc, "no input types\n")?)
    }
}

fn faults_of(
    alloc: Global,
    schema: &SchemaType<DefaultScalarValue>,
    values: &Variables,
    operation: &Spanning<Operation<'_, DefaultScalarValue>>,
) -> Result<String, ReadError>
    requires known { HasInputTypes schema.now operation.now.item }
    ensures { IfOk result (λ text. TellsFaults schema.now ⟦<DefaultScalarValue as CheckedScalar>⟧.may_answer
        ⟦<DefaultScalarValue as ScalarValue>⟧.text ⟦<DefaultScalarValue as ScalarValue>⟧.str_of values.now
        operation.now.item (string_bytes text)) }
{
    let errors = validate_input_values(alloc, values, operation, schema)?;
    let text = lines_of(alloc, errors.as_slice())?;
    Ok(text)
}

// Gives the variables of these lines their types.
fn retype(
    alloc: Global,
    operation: &mut Operation<'_, DefaultScalarValue>,
    lines: &mut Lines<'_>,
) -> Result<(), ReadError> {
    for _ in 0..lines.bound() {
        let Some(told) = lines.ahead().and_then(|line| line.strip_prefix(b"@")) else {
            break;
        };
        if let Some(definitions) = &mut operation.variable_definitions {
            retype_one(alloc, definitions.item.items.as_mut_slice(), told)?;
        }
        lines.advance();
    }
    Ok(())
}

fn retype_one(
    alloc: Global,
    definitions: &mut [(Spanning<&str>, VariableDefinition<'_, DefaultScalarValue>)],
    told: &[u8],
) -> Result<(), ReadError> {
    let length = told.iter().take_while(|byte| **byte != b' ').count();
    let (name, written) = told.split_at_checked(length).unwrap_or((told, &[]));
    for definition in definitions {
        if definition.0.item.as_bytes() == name {
            definition.1.var_type = read_type(alloc, written)?;
        }
    }
    Ok(())
}

fn variables(alloc: Global, text: &[u8]) -> Result<Variables, ReadError> {
    let mut variables = BTreeMap::new(alloc);
    let mut value = read_value(alloc, text)?.item;
    if let InputValue::Object(entries) = &mut value {
        for (name, value) in mem::replace(entries, Vec::new(alloc)) {
            variables.insert(name.item, value.item)?;
        }
    }
    Ok(variables)
}
