//! The places of joined texts in their files, and lines of texts.
use language_types::error::OutOfMemory;
use lint_sources::sources::Joined;
use lint_sources::text_places::{line_of, position_at};
use std::alloc::{AllocError, Global};

// The second file begins with the end of a line, and ends with half of one, which the line feed between the files
// completes.
const FILES: &[&str] = &["ab\ncd", "\r\nx\r", "y"];

// An index of the joined text; file, line, column and index there.
const PLACES: &[(usize, &str)] = &[
    (0, "0 0:0 0"),
    (4, "0 1:1 4"),
    (5, "0 1:2 5"),
    (6, "1 0:0 0"),
    (8, "1 1:0 2"),
    (9, "1 1:1 3"),
    (11, "2 0:0 0"),
    (12, "2 0:1 1"),
    (99, "2 0:1 1"),
];

// A text, an index of it, its line and column, and the line's text.
const LINES: &[(&str, usize, &str, &str)] = &[
    ("ab\ncd", 4, "1:1", "cd"),
    ("ab\r\ncd\r\n", 1, "0:1", "ab"),
    ("ab\r\ncd\r\n", 5, "1:1", "cd"),
    ("ab\r\ncd\r\n", 8, "2:0", ""),
    ("a\rb\r", 2, "1:0", "b"),
    ("a\n\rb", 3, "2:0", "b"),
    ("\"\u{e9}\" x", 5, "0:5", "\"\u{e9}\" x"),
    ("", 0, "0:0", ""),
];

fn joined(alloc: Global) -> Result<Joined, OutOfMemory> {
    let mut joined = Joined::new(alloc);
    for (file, text) in FILES.iter().enumerate() {
        joined.add(file, text)?;
    }
    Ok(joined)
}

fn place_told(alloc: Global, joined: &Joined, index: usize) -> Result<String, AllocError> {
    let place = joined.place_of(position_at(joined.text().as_bytes(), index));
    format!(in alloc;
        "{} {} {}",
        place.file,
        place.position,
        place.position.index()
    )
}

#[test]
fn places(rt: HostRuntime) {
    let alloc = rt.alloc();
    let joined = joined(alloc).expect(&rt, "memory");
    assert_eq!(rt; joined.text(), "ab\ncd\n\r\nx\r\ny");
    for (index, wanted) in PLACES {
        let found = place_told(alloc, &joined, *index).expect(&rt, "memory");
        assert_eq!(rt; found.as_str(), *wanted);
    }
}

#[test]
fn lines(rt: HostRuntime) {
    for (text, index, place, line) in LINES {
        let position = position_at(text.as_bytes(), *index);
        let told = format!(in rt.alloc(); "{position}").expect(&rt, "memory");
        assert_eq!(rt; told.as_str(), *place);
        assert_eq!(rt; line_of(text, position), *line);
    }
}
