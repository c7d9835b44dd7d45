//! The schema definition: its description and root types (GraphQL, October 2021, section 3.3).
use crate::descriptions::write_description;
use crate::error::IntrospectionError;
use crate::places::Place;

/// Writes the schema definition, also if the root types have their default names: another type may have one of these.
///
/// # Errors
///
/// A member is missing or has another shape, or out of memory; `text` may be partly written.
pub fn write_roots(text: &mut String, schema: &Place<'_>) -> Result<(), IntrospectionError> {
    let query = schema.member("queryType")?;
    write_description(text, schema, "\n")?;
    text.push_str("schema {")?;
    write_root(text, "query", &query)?;
    write_other_root(text, "mutation", schema.optional("mutationType"))?;
    write_other_root(text, "subscription", schema.optional("subscriptionType"))?;
    text.push_str("\n}\n")?;
    Ok(())
}

fn write_other_root(
    text: &mut String,
    operation: &str,
    root: Option<Place<'_>>,
) -> Result<(), IntrospectionError> {
    match root {
        Some(root) => write_root(text, operation, &root),
        None => Ok(()),
    }
}

fn write_root(
    text: &mut String,
    operation: &str,
    root: &Place<'_>,
) -> Result<(), IntrospectionError> {
    let name = root.member("name")?.name()?;
    text.push_str("\n  ")?;
    text.push_str(operation)?;
    text.push_str(": ")?;
    text.push_str(name)?;
    Ok(())
}
