//! Documents that are built in code. Each is one line, so columns equal byte indices.
use language::error::OutOfMemory;
use language::position::{SourcePosition, Span, Spanning};
use language::tree::{Definition, Field, FragmentSpread, Operation, OperationType, Selection};
use language::value::DefaultScalarValue;
use std::alloc::Global;

pub type Node<'a> = Selection<'a, DefaultScalarValue>;

pub type Query<'a> = Definition<'a, DefaultScalarValue>;

// The position that is this many bytes after another one.
fn place(start: u16, more: u16) -> SourcePosition {
    let index = usize::from(start) + usize::from(more);
    SourcePosition::new(index, 0, index)
}

/// A name that starts here and has this many bytes.
pub fn name(text: &str, start: u16, length: u16) -> Spanning<&str> {
    Spanning {
        item: text,
        span: Span {
            start: place(start, 0),
            end: place(start, length),
        },
    }
}

/// A list of one item.
///
/// # Errors
///
/// Out of memory.
pub fn alone<T: Drop>(alloc: Global, only: T) -> Result<Vec<T>, OutOfMemory> {
    let mut list = Vec::new(alloc);
    list.push(only)?;
    Ok(list)
}

/// The field `name` at this position.
pub fn name_field<'a>(start: u16) -> Node<'a> {
    field(name("name", start, 4), None, place(start, 4))
}

/// The field `dog { .. }` with this many bytes.
///
/// # Errors
///
/// Out of memory.
pub fn dog<'a>(
    alloc: Global,
    start: u16,
    length: u16,
    inside: Node<'a>,
) -> Result<Node<'a>, OutOfMemory> {
    let set = alone(alloc, inside)?;
    Ok(field(name("dog", start, 3), Some(set), place(start, length)))
}

// A field with a name, and a selection set if one is given.
fn field<'a>(
    name: Spanning<&'a str>,
    selection_set: Option<Vec<Node<'a>>>,
    end: SourcePosition,
) -> Node<'a> {
    let start = name.span.start;
    Selection::Field(Spanning {
        item: Field {
            alias: None,
            name,
            arguments: None,
            directives: None,
            selection_set,
        },
        span: Span { start, end },
    })
}

/// A spread of a fragment whose name has one byte.
pub fn spread<'a>(start: u16, text: &'a str) -> Node<'a> {
    let end = place(start, 4);
    Selection::FragmentSpread(Spanning {
        item: FragmentSpread {
            name: Spanning {
                item: text,
                span: Span {
                    start: place(start, 3),
                    end,
                },
            },
            directives: None,
        },
        span: Span {
            start: place(start, 0),
            end,
        },
    })
}

/// A query with this many bytes and one selection.
///
/// # Errors
///
/// Out of memory.
pub fn query<'a>(
    alloc: Global,
    name: Option<Spanning<&'a str>>,
    start: u16,
    length: u16,
    inside: Node<'a>,
) -> Result<Query<'a>, OutOfMemory> {
    Ok(Definition::Operation(Spanning {
        item: Operation {
            operation_type: OperationType::Query,
            name,
            variable_definitions: None,
            directives: None,
            selection_set: alone(alloc, inside)?,
        },
        span: Span {
            start: place(start, 0),
            end: place(start, length),
        },
    }))
}
