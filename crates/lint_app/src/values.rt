//! Reads values of variables from a file.
use graphql_reader::SourceScalar;
use lint_files::failure::Failure;
use lint_files::files::{Inputs, read_file, told_fault};
use lint_sources::faults::Fault;
use lint_sources::json_text::JsonError;
use lint_sources::sources::{Place, Source};
use lint_sources::variables::read_variables;
use std::alloc::Global;
use std::slice;
use validation::Variables;

/// The values in the file at this path. Its faults go to `faults`.
///
/// # Errors
///
/// The file can't be read or is not a JSON object, which has been reported, or out of memory.
pub fn values_of_file<I: Inputs>(
    alloc: Global,
    inputs: &I,
    path: &str,
    faults: &mut Vec<Fault>,
) -> Result<Variables<SourceScalar>, Failure> {
    let source = read_file(alloc, inputs, path, faults)?;
    match read_variables(alloc, source.text.as_str()) {
        Ok(values) => Ok(values),
        Err(error) => Err(told_json(alloc, slice::from_ref(&source), error, faults)),
    }
}

// Tells why the first file is not the JSON that is expected, and returns that it was told, or out of memory.
fn told_json(
    alloc: Global,
    sources: &[Source],
    error: JsonError,
    faults: &mut Vec<Fault>,
) -> Failure {
    match error.position() {
        Some(position) => told_fault(alloc, sources, Place { file: 0, position }, &error, faults),
        None => Failure::OutOfMemory,
    }
}
