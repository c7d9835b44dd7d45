//! The phase that judges the values of an operation's variables.
use crate::failure::Failure;
use crate::times::{Stopwatch, median_of};
use std::alloc::Global;
use std::collections::BTreeMap;
use std::rt::CpuClock;
use validation::ast::Operation;
use validation::parser::Spanning;
use validation::{
    DefaultScalarValue, Definition, RuleError, SchemaType, Variables, has_input_types,
    validate_input_values,
};

type PlacedOperation<'a> = Spanning<Operation<'a, DefaultScalarValue>>;

/// The first definition, if it is an operation.
///
/// # Errors
///
/// The first definition is not an operation, or there is none.
pub fn first_operation<'d, 't>(
    document: &'d [Definition<'t, DefaultScalarValue>],
) -> Result<&'d PlacedOperation<'t>, Failure> {
    match document.first() {
        Some(Definition::Operation(operation)) => Ok(operation),
        _ => Err(Failure::NoVariables),
    }
}

/// The defaults of an operation's variables, as their values.
///
/// # Errors
///
/// Out of memory.
pub fn values_of(alloc: Global, operation: &PlacedOperation<'_>) -> Result<Variables, Failure> {
    let mut values = BTreeMap::new(alloc);
    if let Some(definitions) = &operation.item.variable_definitions {
        for (name, definition) in &definitions.item.items {
            if let Some(value) = &definition.default_value {
                values.insert(String::from_str(alloc, name.item)?, value.item.clone()?)?;
            }
        }
    }
    Ok(values)
}

/// The faults of the values of an operation's variables.
///
/// # Errors
///
/// A variable's type is not an input type, or out of memory.
pub fn judge(
    alloc: Global,
    schema: &SchemaType<DefaultScalarValue>,
    operation: &PlacedOperation<'_>,
    values: &Variables,
) -> Result<Vec<RuleError>, Failure> {
    if has_input_types(schema, &operation.item) {
        Ok(validate_input_values(alloc, values, operation, schema)?)
    } else {
        Err(Failure::NoVariables)
    }
}

/// Judges the values so often, and returns the median of the times in nanoseconds, or `None` for no times.
///
/// # Errors
///
/// A variable's type is not an input type, the clock failed, or out of memory.
pub fn time_values<R: CpuClock>(
    watch: &mut Stopwatch<'_, R>,
    alloc: Global,
    schema: &SchemaType<DefaultScalarValue>,
    operation: &PlacedOperation<'_>,
    values: &Variables,
    times: usize,
) -> Result<Option<u128>, Failure> {
    median_of(alloc, times, || {
        watch.time_of(|| judge(alloc, schema, operation, values))
    })
}
