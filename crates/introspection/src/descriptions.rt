//! Descriptions (section 3.2) and deprecation (section 3.13.3) of definitions.
use crate::error::IntrospectionError;
use crate::places::Place;
use crate::strings::write_string;

/// Writes the description, if there is one, and `after` behind it.
///
/// # Errors
///
/// The description is not a string, or out of memory; `text` may be partly written.
pub fn write_description(
    text: &mut String,
    described: &Place<'_>,
    after: &str,
) -> Result<(), IntrospectionError> {
    if let Some(description) = described.optional("description") {
        write_string(text, description.text()?)?;
        text.push_str(after)?;
    }
    Ok(())
}

/// Writes `@deprecated` and its reason, if the definition is deprecated. Without a reason the default of section 3.13.3
/// applies.
///
/// # Errors
///
/// A member has another shape, or out of memory; `text` may be partly written.
pub fn write_deprecation(text: &mut String, defined: &Place<'_>) -> Result<(), IntrospectionError> {
    if !is_true(defined, "isDeprecated")? {
        return Ok(());
    }
    text.push_str(" @deprecated")?;
    if let Some(reason) = defined.optional("deprecationReason") {
        text.push_str("(reason: ")?;
        write_string(text, reason.text()?)?;
        text.push(')')?;
    }
    Ok(())
}

/// Whether the member with this name is there and true.
///
/// # Errors
///
/// The member is not a Boolean, or out of memory.
pub fn is_true(defined: &Place<'_>, name: &'static str) -> Result<bool, IntrospectionError> {
    match defined.optional(name) {
        Some(member) => member.is_true(),
        None => Ok(false),
    }
}
