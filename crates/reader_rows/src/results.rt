//! The type definitions of introspection results, or why there are none.
use introspection::schema_text;
use serde_json::Value;
use std::alloc::{AllocError, Global};

/// What the text begins with of each result that is made here.
const ROOTS: &str = "schema {\n  query: Q\n}\n";

/// An object whose field has the type that follows.
const FIELD: &str = r#"{"kind":"OBJECT","name":"A","fields":[{"name":"b","args":[],"type":"#;

/// An input object whose field has the default value that follows.
const INPUT_FIELD: &str =
    r#"{"kind":"INPUT_OBJECT","name":"A","inputFields":[{"name":"a","type":{"kind":"SCALAR","name":"Int"},"defaultValue":"#;

/// Appends the text of a result's schema, or the error, on a line. Whether there is such a kind of rows.
///
/// The text is a result, or a part of one: its types, its directives, the type of a field, or the default value of a
/// field of an input object. Of a part the roots are left out.
///
/// # Errors
///
/// Out of memory.
pub fn tell_result(
    alloc: Global,
    kind: &str,
    text: &str,
    came: &mut String,
) -> Result<bool, AllocError> {
    match kind {
        "introspection" => tell(alloc, text, came)?,
        "introspection types" => tell_definitions(alloc, text, "", came)?,
        "introspection directives" => tell_definitions(alloc, "", text, came)?,
        "introspection reference" => tell_member(alloc, FIELD, text, came)?,
        "introspection default" => tell_default(alloc, text, came)?,
        _ => return Ok(false),
    }
    Ok(true)
}

fn tell(alloc: Global, response: &str, came: &mut String) -> Result<(), AllocError> {
    match schema_text(alloc, response) {
        Ok(text) => came.push_str(text.as_str()),
        Err(error) => writeln!(came, "{error}"),
    }
}

fn tell_definitions(
    alloc: Global,
    types: &str,
    directives: &str,
    came: &mut String,
) -> Result<(), AllocError> {
    let response = format!(in alloc;
        "{{\"__schema\":{{\"queryType\":{{\"name\":\"Q\"}},\"types\":[{types}],\"directives\":[{directives}]}}}}"
    )?;
    let mut told = String::new(alloc);
    tell(alloc, response.as_str(), &mut told)?;
    came.push_str(told.as_str().strip_prefix(ROOTS).unwrap_or(told.as_str()))
}

// A type whose one member ends with this.
fn tell_member(alloc: Global, start: &str, end: &str, came: &mut String) -> Result<(), AllocError> {
    let types = format!(in alloc; "{start}{end}}}]}}")?;
    tell_definitions(alloc, types.as_str(), "", came)
}

fn tell_default(alloc: Global, literal: &str, came: &mut String) -> Result<(), AllocError> {
    let quoted = Value::try_from_str(alloc, literal)?.to_string(alloc)?;
    tell_member(alloc, INPUT_FIELD, quoted.as_str(), came)
}
