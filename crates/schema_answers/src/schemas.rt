//! Whether texts make a schema.
ghost use Rattle.std.specs.Prelude.{◌<◌, [], IfOk, length, string_bytes};
ghost use Rattle.schema_answers.specs.SchemaAnswers.{HasFaults, IsSchemaAnswer, IsTextAnswer};

use answers::not_utf8_report;
use graphql_reader::SourceScalar;
use language_types::error::OutOfMemory;
use lint_report::json_report::json_report;
use lint_schema::schema_of;
use lint_sources::faults::Fault;
use lint_sources::sources::Source;
use schema::model::{Dialect, SchemaType};
use std::alloc::Global;
use std::str;

/// What is told of the texts of a schema.
#[derive(Drop)]
pub enum SchemaAnswer {
    /// The schema of the texts.
    Schema(SchemaType<SourceScalar>),
    /// Their faults as JSON: a list of objects with `path`, `message` and `locations`, where `path` is the 0-based
    /// number of the text.
    Faults(String),
    /// The bytes are not UTF-8. This is the report that says where.
    NotUtf8(String),
}

/// Reads a schema in a dialect from texts that have a zero byte between each two. Each is type definitions or the JSON
/// result of an introspection query.
///
/// # Errors
///
/// Out of memory.
pub fn read_schema(
    alloc: Global,
    texts: &[u8],
    dialect: Dialect,
) -> Result<SchemaAnswer, OutOfMemory>
    ensures { IfOk result (IsSchemaAnswer texts.now dialect) }
{
    match str::from_utf8(texts) {
        Ok(text) => schema_of_text(alloc, text, dialect),
        Err(error) => {
            let report = not_utf8_report(alloc, texts, error)?;
            Ok(SchemaAnswer::NotUtf8(report))
        }
    }
}

fn schema_of_text(alloc: Global, texts: &str, dialect: Dialect) -> Result<SchemaAnswer, OutOfMemory>
    ensures { IfOk result (IsTextAnswer dialect) }
{
    let sources = sources_of(alloc, texts)?;
    let mut faults = Vec::new(alloc);
    match schema_of(alloc, dialect, sources.as_slice(), &mut faults)? {
        Some(schema) => Ok(SchemaAnswer::Schema(schema)),
        None => {
            let report = report_of(alloc, faults.as_slice())?;
            Ok(SchemaAnswer::Faults(report))
        }
    }
}

fn report_of(alloc: Global, faults: &[Fault]) -> Result<String, OutOfMemory>
    requires { 0 < length faults.now }
    ensures { IfOk result (λ report. HasFaults (string_bytes report)) }
{
    json_report(alloc, faults, &[], &[])
}

// The texts, each with its number as its path.
fn sources_of(alloc: Global, texts: &str) -> Result<Vec<Source>, OutOfMemory> {
    let mut sources = Vec::new(alloc);
    for text in texts.split('\0') {
        let number = sources.len();
        let path = format!(in alloc; "{number}")?;
        let text = String::from_str(alloc, text)?;
        sources.push(Source { path, text })?;
    }
    Ok(sources)
}
