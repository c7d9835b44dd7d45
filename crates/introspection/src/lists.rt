//! Lists: entries with the text around and between them.
use crate::error::IntrospectionError;
use crate::places::Place;

/// How an entry of a list is written.
pub trait Entry {
    /// Writes an entry.
    ///
    /// # Errors
    ///
    /// The entry has another shape, or out of memory; `text` may be partly written.
    fn write(&self, text: &mut String, entry: &Place<'_>) -> Result<(), IntrospectionError>;
}

/// The text before, between and after the entries of a list. An empty list has none of it.
#[derive(Clone, Copy)]
pub struct Frame {
    pub open: &'static str,
    pub between: &'static str,
    pub close: &'static str,
}

/// Members of a type, one per line.
pub const BLOCK: Frame = Frame {
    open: " {\n  ",
    between: "\n  ",
    close: "\n}",
};

/// Definitions, which write their own separators.
pub const DEFINITIONS: Frame = Frame {
    open: "",
    between: "",
    close: "",
};

/// Writes a list.
///
/// # Errors
///
/// The value is not a list, an entry has another shape, or out of memory; `text` may be partly written.
pub fn write_list<E: Entry>(
    text: &mut String,
    list: &Place<'_>,
    frame: &Frame,
    entry: &E,
) -> Result<(), IntrospectionError> {
    let items = list.items()?;
    let mut before = frame.open;
    for (index, value) in items.iter().enumerate() {
        text.push_str(before)?;
        entry.write(text, &list.item(index, value))?;
        before = frame.between;
    }
    if !items.is_empty() {
        text.push_str(frame.close)?;
    }
    Ok(())
}

/// Writes a list that may be absent.
///
/// # Errors
///
/// As [`write_list`].
pub fn write_optional_list<E: Entry>(
    text: &mut String,
    list: Option<Place<'_>>,
    frame: &Frame,
    entry: &E,
) -> Result<(), IntrospectionError> {
    match list {
        Some(list) => write_list(text, &list, frame, entry),
        None => Ok(()),
    }
}
