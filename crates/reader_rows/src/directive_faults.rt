//! The faults of the directives of a text.
use graphql_reader::read_type_system;
use graphql_reader::type_system::TypeSystemDefinition;
use language_types::position::SourcePosition;
use sdl_directive_values::{ValueFault, directive_value_faults};
use sdl_directives::{PlacedDirectiveFault, STANDARD_DIRECTIVES, directive_faults};
use sdl_reader::read_schema;
use std::alloc::{AllocError, Global};
use std::fmt;

/// Appends each fault: line and column, counted from 1, and its text; those of values come last.
///
/// # Errors
///
/// Out of memory.
pub fn tell_directives(alloc: Global, text: &str, came: &mut String) -> Result<(), AllocError> {
    let Ok(document) = read_type_system(alloc, text) else {
        return came.push_str("no document\n");
    };
    let Ok(standard) = read_type_system(alloc, STANDARD_DIRECTIVES) else {
        return came.push_str("no document\n");
    };
    tell_read(alloc, document.as_slice(), standard.as_slice(), came)?;
    tell_values(alloc, text, document.as_slice(), standard.as_slice(), came)
}

// The lifetimes are named so that both documents have one.
fn tell_read<'d, 't>(
    alloc: Global,
    document: &'d [TypeSystemDefinition<'t>],
    standard: &'d [TypeSystemDefinition<'t>],
    came: &mut String,
) -> Result<(), AllocError> {
    match directive_faults(alloc, document, standard) {
        Ok(faults) => tell_faults(faults.as_slice(), came),
        Err(_) => came.push_str("out of memory\n"),
    }
}

fn tell_faults(faults: &[PlacedDirectiveFault<'_>], came: &mut String) -> Result<(), AllocError> {
    for placed in faults {
        tell_at(placed.position, &placed.fault, came)?;
    }
    Ok(())
}

// The faults of values, by the types of the schema.
fn tell_values<'d, 't>(
    alloc: Global,
    text: &str,
    document: &'d [TypeSystemDefinition<'t>],
    standard: &'d [TypeSystemDefinition<'t>],
    came: &mut String,
) -> Result<(), AllocError> {
    let Ok(schema) = read_schema(alloc, text) else {
        return came.push_str("no schema\n");
    };
    match directive_value_faults(alloc, document, standard, &schema) {
        Ok(faults) => tell_value_faults(faults.as_slice(), came),
        Err(_) => came.push_str("out of memory\n"),
    }
}

fn tell_value_faults(faults: &[ValueFault<'_>], came: &mut String) -> Result<(), AllocError> {
    for fault in faults {
        tell_at(fault.position, fault, came)?;
    }
    Ok(())
}

fn tell_at<M: fmt::Display>(
    position: SourcePosition,
    message: &M,
    came: &mut String,
) -> Result<(), AllocError> {
    let line = position.line().saturating_add(1);
    let column = position.column().saturating_add(1);
    writeln!(came, "{line}:{column} {message}")
}
