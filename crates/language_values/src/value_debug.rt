//! `{:?}` of values, by a loop, so that no depth is too deep for the machine's stack.
use crate::value::InputValue;
use language_types::position::Spanning;
use std::alloc::Global;
use std::fmt;

/// As `Display` prints a value, but each scalar by its own `{:?}`. Its text is no promise.
impl<S: fmt::Debug> fmt::Debug for InputValue<S> {
    fn fmt<W: fmt::Write>(&self, f: &mut fmt::Formatter<W>) -> fmt::Result {
        match self {
            InputValue::List(items) => print_pieces(*items.allocator(), Piece::Value(self), f),
            InputValue::Object(entries) => {
                print_pieces(*entries.allocator(), Piece::Value(self), f)
            }
            InputValue::Null => f.write_str("null"),
            InputValue::Scalar(scalar) => write!(f, "{scalar:?}"),
            InputValue::Enum(name) => f.write_str(name.as_str()),
            InputValue::Variable(name) => print_variable(name.as_str(), f),
        }
    }
}

// A piece of what is to be printed. With what is left of a list or an object stands whether nothing stands before it
// in its brackets; the bracket after it is printed with it.
#[derive(Drop)]
enum Piece<'v, S> {
    Value(&'v InputValue<S>),
    Items(bool, &'v [Spanning<InputValue<S>>]),
    Entries(bool, &'v [(Spanning<String>, Spanning<InputValue<S>>)]),
}

fn print_variable<W: fmt::Write>(name: &str, f: &mut fmt::Formatter<W>) -> fmt::Result {
    f.write_str("$")?;
    f.write_str(name)
}

// Prints a piece. Where the list of those that follow is refused memory it fails, since a formatter has no other fault.
fn print_pieces<S: fmt::Debug, W: fmt::Write>(
    alloc: Global,
    piece: Piece<'_, S>,
    f: &mut fmt::Formatter<W>,
) -> fmt::Result {
    let mut waiting = Vec::new(alloc);
    push_piece(piece, &mut waiting)?;
    for _ in 0..u64::MAX {
        match waiting.pop() {
            Some(Piece::Value(value)) => print_level(value, &mut waiting, f)?,
            Some(Piece::Items(is_first, items)) => print_items(is_first, items, &mut waiting, f)?,
            Some(Piece::Entries(is_first, entries)) => {
                print_entries(is_first, entries, &mut waiting, f)?
            }
            None => return Ok(()),
        }
    }
    Err(fmt::Error)
}

fn push_piece<'v, S>(piece: Piece<'v, S>, waiting: &mut Vec<Piece<'v, S>>) -> fmt::Result {
    match waiting.push(piece) {
        Ok(()) => Ok(()),
        Err(_) => Err(fmt::Error),
    }
}

// Prints a value that holds no other, or its bracket; then what is inside waits.
fn print_level<'v, S: fmt::Debug, W: fmt::Write>(
    value: &'v InputValue<S>,
    waiting: &mut Vec<Piece<'v, S>>,
    f: &mut fmt::Formatter<W>,
) -> fmt::Result {
    match value {
        InputValue::Null => f.write_str("null"),
        InputValue::Scalar(scalar) => write!(f, "{scalar:?}"),
        InputValue::Enum(name) => f.write_str(name.as_str()),
        InputValue::Variable(name) => print_variable(name.as_str(), f),
        InputValue::List(items) => {
            f.write_str("[")?;
            push_piece(Piece::Items(true, items.as_slice()), waiting)
        }
        InputValue::Object(entries) => {
            f.write_str("{")?;
            push_piece(Piece::Entries(true, entries.as_slice()), waiting)
        }
    }
}

fn print_comma<W: fmt::Write>(is_first: bool, f: &mut fmt::Formatter<W>) -> fmt::Result {
    f.write_str(if is_first { "" } else { ", " })
}

// Prints up to the first item, or the bracket where none is left.
fn print_items<'v, S, W: fmt::Write>(
    is_first: bool,
    items: &'v [Spanning<InputValue<S>>],
    waiting: &mut Vec<Piece<'v, S>>,
    f: &mut fmt::Formatter<W>,
) -> fmt::Result {
    let Some((first, others)) = items.split_first() else {
        return f.write_str("]");
    };
    print_comma(is_first, f)?;
    push_piece(Piece::Items(false, others), waiting)?;
    push_piece(Piece::Value(&first.item), waiting)
}

// Prints up to the first value, or the bracket where none is left.
fn print_entries<'v, S, W: fmt::Write>(
    is_first: bool,
    entries: &'v [(Spanning<String>, Spanning<InputValue<S>>)],
    waiting: &mut Vec<Piece<'v, S>>,
    f: &mut fmt::Formatter<W>,
) -> fmt::Result {
    let Some(((key, first), others)) = entries.split_first() else {
        return f.write_str("}");
    };
    print_comma(is_first, f)?;
    f.write_str(key.item.as_str())?;
    f.write_str(": ")?;
    push_piece(Piece::Entries(false, others), waiting)?;
    push_piece(Piece::Value(&first.item), waiting)
}
