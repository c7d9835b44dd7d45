//! References to types (GraphQL, October 2021, section 2.11), which nest in `ofType` (section 4.2.2).
use crate::error::IntrospectionError;
use crate::kinds::kind_of;
use crate::lists::Entry;
use crate::places::Place;

// More levels than a JSON value may nest.
const LEVELS: usize = 128;

/// References by name: interfaces, and members of a union.
#[derive(Clone, Copy)]
pub struct TypeNames;

impl Entry for TypeNames {
    fn write(&self, text: &mut String, entry: &Place<'_>) -> Result<(), IntrospectionError> {
        text.push_str(entry.member("name")?.name()?)?;
        Ok(())
    }
}

/// Writes a type reference.
///
/// # Errors
///
/// The reference has another shape, or out of memory; `text` may be partly written.
pub fn write_reference(text: &mut String, of_type: &Place<'_>) -> Result<(), IntrospectionError> {
    write_nested(text, of_type, LEVELS)
}

// A reference of at most `levels` levels.
fn write_nested(
    text: &mut String,
    of_type: &Place<'_>,
    levels: usize,
) -> Result<(), IntrospectionError> {
    let Some(inner) = levels.checked_sub(1) else {
        return Err(of_type.unexpected("a type nested at most 128 levels deep"));
    };
    match of_type.member("kind")?.text()? {
        "LIST" => {
            text.push('[')?;
            write_nested(text, &of_type.member("ofType")?, inner)?;
            text.push(']')?;
        }
        "NON_NULL" => {
            write_nested(text, &nullable(of_type)?, inner)?;
            text.push('!')?;
        }
        _ => write_named(text, of_type)?,
    }
    Ok(())
}

// The type inside a non-null type, which must be nullable (section 3.12).
fn nullable<'c>(of_type: &'c Place<'_>) -> Result<Place<'c>, IntrospectionError> {
    let wrapped = of_type.member("ofType")?;
    if wrapped.member("kind")?.text()? == "NON_NULL" {
        return Err(wrapped.unexpected("a nullable type"));
    }
    Ok(wrapped)
}

fn write_named(text: &mut String, of_type: &Place<'_>) -> Result<(), IntrospectionError> {
    kind_of(of_type)?;
    text.push_str(of_type.member("name")?.name()?)?;
    Ok(())
}
