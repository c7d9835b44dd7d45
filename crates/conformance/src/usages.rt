//! Uses of variables that are not defined, and variables that are not used.
use language::error::OutOfMemory;
use language::tree::Document;
use language::value::DefaultScalarValue;
use std::alloc::Global;
use std::fmt::Write;
use variable_usages::undefined::undefined_variables;
use variable_usages::unused::unused_variables;

/// Each use of a variable that the operation does not define, on a line.
///
/// # Errors
///
/// Out of memory.
pub fn undefined<'a>(
    alloc: Global,
    document: Document<'a, DefaultScalarValue>,
) -> Result<String, OutOfMemory> {
    let mut told = String::new(alloc);
    for found in undefined_variables(alloc, document)?.as_slice() {
        let by = found.operation.unwrap_or("-");
        writeln!(
            told,
            "{} at {}, {} by {by}",
            found.name, found.place, found.operation_place
        )?;
    }
    Ok(told)
}

/// Each variable that its operation does not use, on a line.
///
/// # Errors
///
/// Out of memory.
pub fn unused<'a>(
    alloc: Global,
    document: Document<'a, DefaultScalarValue>,
) -> Result<String, OutOfMemory> {
    let mut told = String::new(alloc);
    for found in unused_variables(alloc, document)?.as_slice() {
        let by = found.operation.unwrap_or("-");
        writeln!(told, "{} at {} by {by}", found.name, found.span.start)?;
    }
    Ok(told)
}
