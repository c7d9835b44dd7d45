//! Files by number, several of them as one text, and its positions mapped back to the files.
ghost use Rattle.std.specs.Prelude.{◌≡◌, OnOk};
ghost use Rattle.lint_sources.specs.Places.{HasNoFile, JoinsFile, place_in, start_at, text_of};
ghost use Rattle.lint_sources.specs.Sources.{path_in, text_in};

use crate::text_places::lines_before_feed;
use language_types::error::OutOfMemory;
use language_types::position::SourcePosition;
use std::alloc::Global;

/// A file.
#[derive(Debug, Drop)]
pub struct Source {
    /// Its path, as it was given.
    pub path: String,
    pub text: String,
}

/// The path of a file, or an empty one if there is no such file.
pub fn path_of(sources: &[Source], file: usize) -> &str
    ensures { result.now ≡ path_in sources.now file }
{
    match sources.get(file) {
        Some(source) => source.path.as_str(),
        None => "",
    }
}

/// The text of a file, or an empty one if there is no such file.
pub fn text_of(sources: &[Source], file: usize) -> &str
    ensures { result.now ≡ text_in sources.now file }
{
    match sources.get(file) {
        Some(source) => source.text.as_str(),
        None => "",
    }
}

/// A place in one of several files.
#[derive(Clone, Copy, Debug, PartialEq, Eq)]
pub struct Place {
    /// The 0-based number of the file.
    pub file: usize,
    /// The position in the file's own text.
    pub position: SourcePosition,
}

// The start of a file in a joined text.
#[derive(Clone, Copy, Debug)]
struct Start {
    file: usize,
    index: usize,
    line: usize,
}

/// The texts of several files as one text, with a line feed between each two.
#[derive(Debug, Drop)]
pub struct Joined {
    text: String,
    starts: Vec<Start>,
    // The line at which the next file would start.
    lines: usize,
}

impl Joined {
    /// The empty text of no files.
    pub fn new(alloc: Global) -> Joined
        ensures { HasNoFile result }
    {
        Joined {
            text: String::new(alloc),
            starts: Vec::new(alloc),
            lines: 0,
        }
    }

    /// The whole text.
    pub fn text(&self) -> &str
        ensures { result.now ≡ text_of self.now }
    {
        self.text.as_str()
    }

    /// Adds a file.
    ///
    /// # Errors
    ///
    /// Out of memory; part of the file may have been added.
    pub fn add(&mut self, file: usize, text: &str) -> Result<(), OutOfMemory>
        ensures { OnOk result (JoinsFile self.old file text.now self.new) }
    {
        if !self.starts.is_empty() {
            self.text.push('\n')?;
        }
        self.starts.push(Start {
            file,
            index: self.text.len(),
            line: self.lines,
        })?;
        self.text.push_str(text)?;
        self.lines = self.lines.saturating_add(lines_before_feed(text));
        Ok(())
    }

    /// A position of the joined text, mapped back to its file. The column stays the same, since each file begins a
    /// line.
    pub fn place_of(&self, position: SourcePosition) -> Place
        ensures { result ≡ place_in self.now position }
    {
        let start = self.start_before(position.index());
        let index = position.index().saturating_sub(start.index);
        let line = position.line().saturating_sub(start.line);
        Place {
            file: start.file,
            position: SourcePosition::new(index, line, position.column()),
        }
    }

    // The start of the last file that starts at an index or before it.
    fn start_before(&self, index: usize) -> Start
        ensures { result ≡ start_at self.now.starts.items index }
    {
        let mut found = Start {
            file: 0,
            index: 0,
            line: 0,
        };
        for start in &self.starts {
            if start.index <= index {
                found = *start;
            }
        }
        found
    }
}
