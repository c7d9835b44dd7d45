//! The parts of a schema whose one field takes an input object of many fields.
use samples::build::{ArgumentMeta, FieldMeta, argument, field, own_fields};
use std::alloc::Global;
use validation::OutOfMemory;
use validation::meta::default_check::DefaultCheck;
use validation::meta::{InputObjectMetaOf, MetaType};

/// The fields of a root whose field `wide` takes the input object `Wide`.
///
/// # Errors
///
/// Out of memory.
pub fn root_fields(alloc: Global) -> Result<Vec<FieldMeta>, OutOfMemory> {
    let mut fields = own_fields(alloc)?;
    fields.push(field(alloc, "wide", "Int")?.argument(argument(alloc, "input", "Wide")?)?)?;
    Ok(fields)
}

/// The input object `Wide` of so many fields, with its check.
///
/// # Errors
///
/// Out of memory.
pub fn wide_input(
    alloc: Global,
    count: usize,
    check: DefaultCheck,
) -> Result<MetaType, OutOfMemory> {
    let mut entries: Vec<ArgumentMeta> = Vec::new(alloc);
    for number in 0..count {
        let name = format!(in alloc; "k{number}")?;
        entries.push(argument(alloc, name.as_str(), "Int")?)?;
    }
    Ok(InputObjectMetaOf::with_check(alloc, "Wide", entries, check)?.into_meta())
}
