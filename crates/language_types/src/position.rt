//! Positions and spans in a text.
ghost use Rattle.std.specs.Prelude.{◌≡◌, Some};
ghost use Rattle.language_types.specs.Position.{index_of, line_of, column_of, printed_position};

use std::fmt;

/// A position in a text: its byte index, its line, and its column in bytes, each counted from 0.
///
/// Positions are ordered by index, then line, then column.
#[derive(Clone, Copy, Debug, PartialEq, Eq, PartialOrd, Ord, Hash)]
pub struct SourcePosition {
    index: usize,
    line: usize,
    column: usize,
}

impl SourcePosition {
    /// A position with this byte index, line and column, each counted from 0.
    pub fn new(index: usize, line: usize, column: usize) -> SourcePosition
        ensures index { index_of result ≡ index }
        ensures line { line_of result ≡ line }
        ensures column { column_of result ≡ column }
    {
        SourcePosition {
            index,
            line,
            column,
        }
    }

    /// The number of bytes before the position.
    pub fn index(&self) -> usize
        ensures { result ≡ index_of self.now }
    {
        self.index
    }

    /// The line, counted from 0.
    pub fn line(&self) -> usize
        ensures { result ≡ line_of self.now }
    {
        self.line
    }

    /// The column in bytes, counted from 0.
    pub fn column(&self) -> usize
        ensures { result ≡ column_of self.now }
    {
        self.column
    }
}

/// `line:column`, each counted from 0.
impl fmt::Display for SourcePosition {
    ghost output = { λ p. Some (printed_position p) };

    fn fmt<W: fmt::Write>(&self, f: &mut fmt::Formatter<W>) -> fmt::Result {
        let SourcePosition { line, column, .. } = *self;
        write!(f, "{line}:{column}")
    }
}

/// A range of a text: `start` is the position of its first byte, `end` the one after its last.
#[derive(Clone, Copy, Debug, PartialEq, Eq, Hash)]
pub struct Span {
    pub start: SourcePosition,
    pub end: SourcePosition,
}

/// An item with its range in the text.
#[derive(Clone, Debug, PartialEq, Eq, Drop)]
pub struct Spanning<T, Sp = Span> {
    pub item: T,
    pub span: Sp,
}
