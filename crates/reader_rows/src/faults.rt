//! The faults of a text, with their places.
use crate::made::made_schema;
use graphql_reader::type_system::TypeSystemDefinition;
use graphql_reader::{SourceScalar, read_type_system};
use language_types::position::SourcePosition;
use schema::model::SchemaType;
use sdl_directives::STANDARD_DIRECTIVES;
use sdl_faults::{LocatedFault, plain_text_faults, rest_of_text_faults, text_faults};
use sdl_mending::{Mended, Touched};
use sdl_reader::{SchemaReadError, schema_of_document};
use std::alloc::{AllocError, Global};

/// Appends each fault of a schema: line and column, counted from 1, and its text; then a line for each further place.
/// Of a text that makes no schema, first the reasons, and then the faults that they don't touch.
///
/// # Errors
///
/// Out of memory.
pub fn tell_schema_faults(alloc: Global, text: &str, came: &mut String) -> Result<(), AllocError> {
    let Ok(document) = read_type_system(alloc, text) else {
        return came.push_str("no document\n");
    };
    let Ok(standard) = read_type_system(alloc, STANDARD_DIRECTIVES) else {
        return came.push_str("no document\n");
    };
    let (document, standard) = (document.as_slice(), standard.as_slice());
    match schema_of_document(alloc, document) {
        Ok(schema) => tell_read(alloc, document, standard, &schema, came),
        Err(error) => tell_refusal(alloc, text, &error, came),
    }
}

// Why a text makes no schema, and what else is wrong with it.
fn tell_refusal(
    alloc: Global,
    text: &str,
    error: &SchemaReadError<'_>,
    came: &mut String,
) -> Result<(), AllocError> {
    tell_reasons(error, came)?;
    tell_rest(alloc, text, error, came)
}

// Why a text makes no schema.
fn tell_reasons(error: &SchemaReadError<'_>, came: &mut String) -> Result<(), AllocError> {
    let SchemaReadError::Faults(faults) = error else {
        return writeln!(came, "no schema: {error}");
    };
    for placed in faults.as_slice() {
        tell_place(placed.position, came)?;
        writeln!(came, " no schema: {}", placed.fault)?;
    }
    Ok(())
}

// The faults of a text that makes no schema for these reasons. It is read again, so that its definitions live as long
// as the reasons.
fn tell_rest<'t>(
    alloc: Global,
    text: &'t str,
    error: &'t SchemaReadError<'t>,
    came: &mut String,
) -> Result<(), AllocError> {
    let Ok(document) = read_type_system(alloc, text) else {
        return came.push_str("no document\n");
    };
    let Ok(standard) = read_type_system(alloc, STANDARD_DIRECTIVES) else {
        return came.push_str("no document\n");
    };
    let (document, standard) = (document.as_slice(), standard.as_slice());
    tell_untouched(alloc, text, document, standard, error, came)
}

fn tell_untouched<'d, 't>(
    alloc: Global,
    text: &'t str,
    document: &'d [TypeSystemDefinition<'t>],
    standard: &'d [TypeSystemDefinition<'t>],
    error: &'t SchemaReadError<'t>,
    came: &mut String,
) -> Result<(), AllocError> {
    let SchemaReadError::Faults(reasons) = error else {
        return tell_plain(alloc, document, standard, came);
    };
    let Ok(touched) = Touched::by_reasons(alloc, document, reasons.as_slice()) else {
        return came.push_str("out of memory\n");
    };
    let Ok(again) = read_type_system(alloc, text) else {
        return came.push_str("no document\n");
    };
    match Mended::of_document(alloc, again, touched) {
        Ok(Some(mended)) => tell_mended(alloc, document, standard, &mended, came),
        Ok(None) => tell_plain(alloc, document, standard, came),
        Err(_) => came.push_str("out of memory\n"),
    }
}

// Those of a text of which this is left.
fn tell_mended<'d, 't>(
    alloc: Global,
    document: &'d [TypeSystemDefinition<'t>],
    standard: &'d [TypeSystemDefinition<'t>],
    mended: &'d Mended<'t>,
    came: &mut String,
) -> Result<(), AllocError> {
    match rest_of_text_faults(alloc, document, standard, mended) {
        Ok(faults) => tell_faults(faults.as_slice(), came),
        Err(_) => came.push_str("out of memory\n"),
    }
}

// The faults of a text that makes no schema, nor does what is left of it.
fn tell_plain<'d, 't>(
    alloc: Global,
    document: &'d [TypeSystemDefinition<'t>],
    standard: &'d [TypeSystemDefinition<'t>],
    came: &mut String,
) -> Result<(), AllocError> {
    match plain_text_faults(alloc, document, standard) {
        Ok(faults) => tell_faults(faults.as_slice(), came),
        Err(_) => came.push_str("out of memory\n"),
    }
}

/// The same of a schema that is made, whose text has as many groups of types as the row says; first how long it is.
///
/// # Errors
///
/// Out of memory.
pub fn tell_made(alloc: Global, text: &str, came: &mut String) -> Result<(), AllocError> {
    let Ok(groups) = text.trim().parse::<usize>() else {
        return came.push_str("no number\n");
    };
    let made = made_schema(alloc, groups)?;
    let lines = made.lines().count();
    writeln!(came, "{lines} lines")?;
    tell_schema_faults(alloc, made.as_str(), came)
}

// The lifetimes are named so that both documents have one.
fn tell_read<'d, 't>(
    alloc: Global,
    document: &'d [TypeSystemDefinition<'t>],
    standard: &'d [TypeSystemDefinition<'t>],
    schema: &SchemaType<SourceScalar>,
    came: &mut String,
) -> Result<(), AllocError> {
    match text_faults(alloc, document, standard, schema) {
        Ok(faults) => tell_faults(faults.as_slice(), came),
        Err(_) => came.push_str("out of memory\n"),
    }
}

fn tell_faults(faults: &[LocatedFault], came: &mut String) -> Result<(), AllocError> {
    for fault in faults {
        tell_fault(fault, came)?;
    }
    Ok(())
}

fn tell_fault(fault: &LocatedFault, came: &mut String) -> Result<(), AllocError> {
    let message = fault.message.as_str();
    match fault.position {
        Some(position) => {
            tell_place(position, came)?;
            writeln!(came, " {message}")?;
        }
        None => writeln!(came, "{message}")?,
    }
    tell_others(fault.others.as_slice(), came)
}

fn tell_others(others: &[SourcePosition], came: &mut String) -> Result<(), AllocError> {
    for position in others {
        tell_place(*position, came)?;
        came.push_str(" also here\n")?;
    }
    Ok(())
}

fn tell_place(position: SourcePosition, came: &mut String) -> Result<(), AllocError> {
    let line = position.line().saturating_add(1);
    let column = position.column().saturating_add(1);
    write!(came, "{line}:{column}")
}
