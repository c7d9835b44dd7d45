//! Definitions of directives (GraphQL, October 2021, section 3.13).
use crate::descriptions::{is_true, write_description};
use crate::error::IntrospectionError;
use crate::lists::{DEFINITIONS, Entry, Frame, write_list};
use crate::members::write_arguments;
use crate::places::Place;

// The locations of a directive.
const LOCATION_LIST: Frame = Frame {
    open: " on ",
    between: " | ",
    close: "",
};

/// Writes the directives of a list, without those that every schema has.
///
/// # Errors
///
/// A directive has another shape, or out of memory; `text` may be partly written.
pub fn write_directives(
    text: &mut String,
    directives: &Place<'_>,
) -> Result<(), IntrospectionError> {
    write_list(text, directives, &DEFINITIONS, &Directives)
}

#[derive(Clone, Copy)]
struct Directives;

impl Entry for Directives {
    fn write(&self, text: &mut String, directive: &Place<'_>) -> Result<(), IntrospectionError> {
        let name = directive.member("name")?.name()?;
        if matches!(name, "skip" | "include" | "deprecated" | "specifiedBy") {
            return Ok(());
        }
        write_definition(text, directive, name)
    }
}

fn write_definition(
    text: &mut String,
    directive: &Place<'_>,
    name: &str,
) -> Result<(), IntrospectionError> {
    text.push('\n')?;
    write_description(text, directive, "\n")?;
    text.push_str("directive @")?;
    text.push_str(name)?;
    write_arguments(text, directive)?;
    if is_true(directive, "isRepeatable")? {
        text.push_str(" repeatable")?;
    }
    write_locations(text, &directive.member("locations")?)?;
    text.push('\n')?;
    Ok(())
}

// A directive has at least one location.
fn write_locations(text: &mut String, locations: &Place<'_>) -> Result<(), IntrospectionError> {
    if locations.items()?.is_empty() {
        return Err(locations.unexpected("a list that is not empty"));
    }
    write_list(text, locations, &LOCATION_LIST, &Locations)
}

#[derive(Clone, Copy)]
struct Locations;

impl Entry for Locations {
    fn write(&self, text: &mut String, location: &Place<'_>) -> Result<(), IntrospectionError> {
        let word = location.text()?;
        if !is_location(word) {
            return Err(location.unexpected("a directive's location"));
        }
        text.push_str(word)?;
        Ok(())
    }
}

const LOCATION_WORDS: &[&str] = &[
    "QUERY",
    "MUTATION",
    "SUBSCRIPTION",
    "FIELD",
    "FRAGMENT_DEFINITION",
    "FRAGMENT_SPREAD",
    "INLINE_FRAGMENT",
    "VARIABLE_DEFINITION",
    "SCHEMA",
    "SCALAR",
    "OBJECT",
    "FIELD_DEFINITION",
    "ARGUMENT_DEFINITION",
    "INTERFACE",
    "UNION",
    "ENUM",
    "ENUM_VALUE",
    "INPUT_OBJECT",
    "INPUT_FIELD_DEFINITION",
];

fn is_location(word: &str) -> bool {
    for known in LOCATION_WORDS {
        if *known == word {
            return true;
        }
    }
    false
}
