//! Windows of lines: what is shown round a place, and where the mark stands.
use lint_report::windows::write_window;
use std::alloc::{AllocError, Global};

// What comes before the place, the rest of the line, and what is shown of both with the mark below.
const LINES: &[(&str, &str, &str)] = &[
    ("", "", "\n^\n"),
    ("{ a ", "}", "{ a }\n    ^\n"),
    ("\ta\t", "b", "\ta\tb\n\t \t^\n"),
    // A character of Chinese takes two columns, and an accent that joins the letter before it none.
    ("\u{4e2d}\u{6587}", "x", "\u{4e2d}\u{6587}x\n    ^\n"),
    ("e\u{301}", "x", "e\u{301}x\n ^\n"),
];

// A character, how often it comes before the place and from there on, and how often it is shown on each side. Before
// the place are at most 80 columns, and all in all 120. A tab counts 8.
const COUNTS: &[(&str, usize, usize, usize, usize)] = &[
    ("x", 120, 120, 80, 40),
    ("x", 80, 40, 80, 40),
    ("x", 81, 39, 80, 39),
    ("x", 20, 500, 20, 100),
    ("x", 0, 121, 0, 120),
    ("\u{4e2d}", 100, 100, 40, 20),
    ("\u{4e2d}", 0, 100, 0, 60),
    ("\t", 50, 50, 10, 5),
    ("\u{301}", 100, 100, 80, 40),
];

fn window(alloc: Global, before: &str, rest: &str) -> Result<String, AllocError> {
    let mut text = String::new(alloc);
    write_window(&mut text, false, before, rest)?;
    Ok(text)
}

// A character so many times.
fn times(alloc: Global, character: &str, count: usize) -> Result<String, AllocError> {
    let mut text = String::new(alloc);
    for _ in 0..count {
        text.push_str(character)?;
    }
    Ok(text)
}

#[test]
fn lines(rt: HostRuntime) {
    for (before, rest, wanted) in LINES {
        let told = window(rt.alloc(), before, rest).expect(&rt, "memory");
        assert_eq!(rt; told.as_str(), *wanted);
    }
}

#[test]
fn long_lines_are_cut(rt: HostRuntime) {
    let alloc = rt.alloc();
    for (character, before, rest, shown_before, shown_rest) in COUNTS {
        let before = times(alloc, character, *before).expect(&rt, "memory");
        let rest = times(alloc, character, *rest).expect(&rt, "memory");
        let told = window(alloc, before.as_str(), rest.as_str()).expect(&rt, "memory");
        let shown = times(alloc, character, *shown_before + *shown_rest).expect(&rt, "memory");
        let line = told.split('\n').next();
        assert_eq!(rt; line, Some(shown.as_str()));
    }
}
