//! Values that are handed in.

use language::error::OutOfMemory;
use language::value::{DefaultScalarValue, InputValue, Variables};
use sample_reader::{ReadError, read_value};
use std::alloc::Global;
use std::collections::BTreeMap;

/// The values of the variables: one for `c`, and none for an empty text.
pub fn values(alloc: Global, text: &str) -> Result<Variables, ReadError> {
    if text.is_empty() {
        return Ok(Variables::new(alloc));
    }
    let value = read_value(alloc, text.as_bytes())?;
    Ok(value_of_c(alloc, value.item)?)
}

fn value_of_c(
    alloc: Global,
    value: InputValue<DefaultScalarValue>,
) -> Result<Variables, OutOfMemory> {
    let mut values = BTreeMap::new(alloc);
    values.insert(String::from_str(alloc, "c")?, value)?;
    Ok(values)
}
