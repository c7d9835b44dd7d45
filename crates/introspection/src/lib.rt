//! Writes the result of an introspection query (GraphQL, October 2021, section 4) as type definitions (section 3):
//! [`schema_text`].
//!
//! The text has the schema's root types, types and directives, without those that every schema has: the built-in
//! scalars (section 3.5), the types whose names begin with `__` (section 4) and the four directives of section 3.13.
//!
//! Proved of every call: it is safe and returns, whatever the result. That the text says the same is only tested.
#![tactic(auto)]

mod descriptions;
mod directives;
mod error;
mod kinds;
mod lists;
mod members;
mod names;
mod places;
mod references;
mod roots;
mod strings;
mod types;

use directives::write_directives;
pub use error::IntrospectionError;
use places::Place;
use roots::write_roots;
use serde_json::Value;
use std::alloc::Global;
use types::write_types;

/// The type definitions of an introspection result: JSON with the member `__schema` of section 4.2, at the top or in
/// the member `data` of a response (section 7.1).
///
/// The root types come first, then the types and the directives in the order of the result. Descriptions, reasons and
/// URLs are kept exactly. A default value must be one value without variables (section 2.9). Its type, and whether
/// names are known, must be checked by a reader of the text.
///
/// Older servers and short queries leave out members. These may be absent or null: `description`, `mutationType`,
/// `subscriptionType`, `interfaces`, `inputFields`, `specifiedByURL` (or `specifiedByUrl`), `defaultValue`,
/// `isDeprecated`, `deprecationReason` and `isRepeatable`.
///
/// # Errors
///
/// The text is not JSON, a member is missing or has another shape, a name is invalid, or out of memory.
pub fn schema_text(alloc: Global, response: &str) -> Result<String, IntrospectionError> {
    let value = Value::from_str(alloc, response)?;
    let mut text = String::new(alloc);
    write_result(&mut text, &Place::whole(alloc, &value))?;
    Ok(text)
}

fn write_result(text: &mut String, response: &Place<'_>) -> Result<(), IntrospectionError> {
    match response.optional("data") {
        Some(data) => write_schema(text, &data.member("__schema")?),
        None => write_schema(text, &response.member("__schema")?),
    }
}

fn write_schema(text: &mut String, schema: &Place<'_>) -> Result<(), IntrospectionError> {
    write_roots(text, schema)?;
    write_types(text, &schema.member("types")?)?;
    write_directives(text, &schema.member("directives")?)
}
