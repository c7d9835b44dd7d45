//! Positions in a text, as bytes are passed.
ghost use Rattle.std.specs.Prelude.{◌≡◌, ◌≤◌, ◌<◌, ◌+◌, ◌^◌, length};
ghost use Rattle.graphql_lexer.specs.Places as spec;

/// A position, and whether the previous byte is a carriage return.
#[derive(Clone, Copy, Debug)]
pub(crate) struct Cursor {
    pub index: usize,
    pub line: usize,
    pub column: usize,
    pub after_return: bool,
}

/// The position after these bytes.
pub(crate) fn after_all(before: Cursor, bytes: &[u8]) -> Cursor
    requires counts { spec.Counts before }
    requires fits { before.index + length bytes.now < 2 ^ 64 }
    ensures exact { result ≡ spec.after_all before bytes.now }
    ensures counts { spec.Counts result }
    ensures index { result.index ≡ before.index + length bytes.now }
{
    let mut cursor = before;
    for byte in bytes {
        cursor = after(cursor, *byte);
    }
    cursor
}

impl Cursor {
    // Each goes by the fields: a copy of the whole takes the bytes between them along.

    /// The same position.
    #[inline(always)]
    pub fn copied(self) -> Cursor
        ensures { result ≡ self }
    {
        Cursor {
            index: self.index,
            line: self.line,
            column: self.column,
            after_return: self.after_return,
        }
    }

    /// Goes on by so many bytes that end no line.
    #[inline(always)]
    pub fn along(&mut self, count: usize)
        requires counts { spec.Counts self.old }
        requires fits { self.old.index + count < 2 ^ 64 }
        ensures exact { self.new ≡ spec.along self.old count }
        ensures counts { spec.Counts self.new }
        ensures index { self.new.index ≡ self.old.index + count }
    {
        self.index += count;
        self.column += count;
        self.after_return = count == 0 && self.after_return;
    }

    /// Goes on by a line feed.
    #[inline(always)]
    #[tactic(auto, unfolding(crate::specs::Places::after))]
    pub fn line_feed(&mut self)
        requires counts { spec.Counts self.old }
        requires fits { self.old.index + 1 < 2 ^ 64 }
        ensures exact { self.new ≡ spec.after self.old 10 }
        ensures counts { spec.Counts self.new }
        ensures index { self.new.index ≡ self.old.index + 1 }
    {
        self.index += 1;
        if !self.after_return {
            self.line += 1;
        }
        self.column = 0;
        self.after_return = false;
    }

    /// Goes on by a carriage return.
    #[inline(always)]
    #[tactic(auto, unfolding(crate::specs::Places::after))]
    pub fn carriage_return(&mut self)
        requires counts { spec.Counts self.old }
        requires fits { self.old.index + 1 < 2 ^ 64 }
        ensures exact { self.new ≡ spec.after self.old 13 }
        ensures counts { spec.Counts self.new }
        ensures index { self.new.index ≡ self.old.index + 1 }
    {
        self.index += 1;
        self.line += 1;
        self.column = 0;
        self.after_return = true;
    }
}

// The position after one byte.
#[tactic(auto, unfolding(crate::specs::Places::after))]
fn after(before: Cursor, byte: u8) -> Cursor
    requires counts { spec.Counts before }
    requires fits { before.index + 1 < 2 ^ 64 }
    ensures exact { result ≡ spec.after before byte }
    ensures counts { spec.Counts result }
    ensures index { result.index ≡ before.index + 1 }
{
    let index = before.index + 1;
    if byte == b'\r' {
        Cursor {
            index,
            line: before.line + 1,
            column: 0,
            after_return: true,
        }
    } else if byte == b'\n' && before.after_return {
        Cursor {
            index,
            line: before.line,
            column: 0,
            after_return: false,
        }
    } else if byte == b'\n' {
        Cursor {
            index,
            line: before.line + 1,
            column: 0,
            after_return: false,
        }
    } else {
        Cursor {
            index,
            line: before.line,
            column: before.column + 1,
            after_return: false,
        }
    }
}
