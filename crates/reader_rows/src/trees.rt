//! How many definitions a text has, or its syntax error.
use graphql_reader::{
    NESTING_LIMIT, ReadError, read_document, read_document_within, read_type_system,
    read_type_system_within,
};
use std::alloc::{AllocError, Global};

/// Appends the number of definitions of a text, or index, line and column of its syntax error and the message.
/// Whether there is such a kind.
///
/// # Errors
///
/// Out of memory.
pub fn tell_count(
    alloc: Global,
    kind: &str,
    text: &str,
    came: &mut String,
) -> Result<bool, AllocError> {
    tell(count_of(alloc, kind, text), came)
}

// The number of definitions of a text of this kind, if there is such a kind. `within` and a limit may follow it.
fn count_of<'a>(alloc: Global, kind: &str, text: &'a str) -> Result<Option<usize>, ReadError<'a>> {
    let (kind, limit) = match kind.split_once(" within ") {
        Some((kind, limit)) => (kind, Some(limit_of(limit))),
        None => (kind, None),
    };
    match kind {
        "document" => Ok(Some(count_of_document(alloc, text, limit)?)),
        "type system" => Ok(Some(count_of_type_system(alloc, text, limit)?)),
        _ => Ok(None),
    }
}

fn count_of_document<'a>(
    alloc: Global,
    text: &'a str,
    limit: Option<usize>,
) -> Result<usize, ReadError<'a>> {
    let document = match limit {
        Some(_) => read_document_within(alloc, text, limit)?,
        None => read_document(alloc, text)?,
    };
    Ok(document.len())
}

fn count_of_type_system<'a>(
    alloc: Global,
    text: &'a str,
    limit: Option<usize>,
) -> Result<usize, ReadError<'a>> {
    let document = match limit {
        Some(_) => read_type_system_within(alloc, text, limit)?,
        None => read_type_system(alloc, text)?,
    };
    Ok(document.len())
}

fn limit_of(word: &str) -> usize {
    word.parse::<usize>().unwrap_or(NESTING_LIMIT)
}

fn tell(
    count: Result<Option<usize>, ReadError<'_>>,
    came: &mut String,
) -> Result<bool, AllocError> {
    match count {
        Ok(None) => return Ok(false),
        Ok(Some(count)) => writeln!(came, "{count}")?,
        Err(ReadError::Syntax(error)) => {
            let (index, position) = (error.position.index(), error.position);
            writeln!(came, "{index} {position} {error}")?;
        }
        Err(ReadError::OutOfMemory) => came.push_str("out of memory\n")?,
    }
    Ok(true)
}
