//! Characters that a terminal may obey, in a path, a message and a line: as text, as JSON and for GitHub.
use language_types::error::OutOfMemory;
use lint_report::github_report::github_report;
use lint_report::json_report::json_report;
use lint_report::text_report::faults_text;
use lint_report::windows::write_window;
use lint_sources::faults::Fault;
use lint_sources::text_places::position_at;
use std::alloc::{AllocError, Global};

// The first and the last of the characters that are printed as escapes.
const ESCAPED: &[(u32, u32)] = &[
    (0x0, 0x8),
    (0xa, 0x1f),
    (0x7f, 0x9f),
    (0x61c, 0x61c),
    (0x200e, 0x200f),
    (0x2028, 0x202e),
    (0x2066, 0x2069),
];

// The characters beside them, which are printed as they are, and what comes below them.
const BESIDE: &[(&str, &str)] = &[
    ("\t", "\t"),
    (" ~\u{a0}", "   "),
    ("\u{61b}", " "),
    ("\u{61d}", " "),
    ("\u{2010}\u{2027}\u{202f}", "   "),
];

// Each with the place behind its character.
fn faults(alloc: Global, character: char) -> Result<Vec<Fault>, OutOfMemory> {
    let path = format!(in alloc; "a{character}::error::b")?;
    let text = format!(in alloc; "# {character}\u{4e2d}{character}x")?;
    let message = format!(in alloc; "no \"{character}::error::\"")?;
    let position = position_at(text.as_bytes(), text.len().saturating_sub(1));
    let mut faults = Vec::new(alloc);
    faults.push(Fault::new(
        alloc,
        path.as_str(),
        text.as_str(),
        Some(position),
        &message,
    )?)?;
    Ok(faults)
}

// A line feed and a carriage return end lines, so they are in no line that is shown.
fn wanted_text(alloc: Global, code: u32) -> Result<String, AllocError> {
    let escape = format!(in alloc; "\\u{{{code:x}}}")?;
    if code == 0xa || code == 0xd {
        return format!(in alloc;
            "a{escape}::error::b:3:1: error: no \"{escape}::error::\"\nx\n^\n"
        );
    }
    let blanks = "        ".get(..escape.len()).unwrap_or("");
    format!(in alloc;
        "a{escape}::error::b:1:6: error: no \"{escape}::error::\"
# {escape}\u{4e2d}{escape}x
  {blanks}  {blanks}^
"
    )
}

// JSON has shorter escapes for some.
fn json_escape(alloc: Global, code: u32) -> Result<String, AllocError> {
    match code {
        0x8 => String::from_str(alloc, "\\b"),
        0xa => String::from_str(alloc, "\\n"),
        0xc => String::from_str(alloc, "\\f"),
        0xd => String::from_str(alloc, "\\r"),
        _ => format!(in alloc; "\\u{code:04x}"),
    }
}

fn wanted_json(alloc: Global, code: u32) -> Result<String, AllocError> {
    let escape = json_escape(alloc, code)?;
    format!(in alloc;
        "[
  {{
    \"path\": \"a{escape}::error::b\",
    \"message\": \"no \\\"{escape}::error::\\\"\",
"
    )
}

fn wanted_github(alloc: Global, character: char) -> Result<String, AllocError> {
    match character {
        '\n' => String::from_str(
            alloc,
            "::error file=a%0A%3A%3Aerror%3A%3Ab,line=3,col=1::no \"%0A::error::\"\n",
        ),
        '\r' => String::from_str(
            alloc,
            "::error file=a%0D%3A%3Aerror%3A%3Ab,line=3,col=1::no \"%0D::error::\"\n",
        ),
        _ => {
            format!(in alloc;
                "::error file=a{character}%3A%3Aerror%3A%3Ab,line=1,col=6::no \"{character}::error::\"\n"
            )
        }
    }
}

#[test]
fn text(rt: HostRuntime) {
    let alloc = rt.alloc();
    for (first, last) in ESCAPED {
        for code in *first..last.saturating_add(1) {
            let character = char::from_u32(code).unwrap_or('x');
            let faults = faults(alloc, character).expect(&rt, "memory");
            let told = faults_text(alloc, false, faults.as_slice()).expect(&rt, "memory");
            let wanted = wanted_text(alloc, code).expect(&rt, "memory");
            assert_eq!(rt; told.as_str(), wanted.as_str());
        }
    }
}

#[test]
fn json(rt: HostRuntime) {
    let alloc = rt.alloc();
    for (first, last) in ESCAPED {
        for code in *first..last.saturating_add(1) {
            let character = char::from_u32(code).unwrap_or('x');
            let faults = faults(alloc, character).expect(&rt, "memory");
            let told = json_report(alloc, faults.as_slice(), &[], &[]).expect(&rt, "memory");
            let wanted = wanted_json(alloc, code).expect(&rt, "memory");
            let begun = told.as_str().get(..wanted.len());
            assert_eq!(rt; begun, Some(wanted.as_str()));
        }
    }
}

#[test]
fn github(rt: HostRuntime) {
    let alloc = rt.alloc();
    for (first, last) in ESCAPED {
        for code in *first..last.saturating_add(1) {
            let character = char::from_u32(code).unwrap_or('x');
            let faults = faults(alloc, character).expect(&rt, "memory");
            let told = github_report(alloc, faults.as_slice(), &[], &[]).expect(&rt, "memory");
            let wanted = wanted_github(alloc, character).expect(&rt, "memory");
            assert_eq!(rt; told.as_str(), wanted.as_str());
        }
    }
}

#[test]
fn others_are_printed(rt: HostRuntime) {
    let alloc = rt.alloc();
    for (line, below) in BESIDE {
        let mut told = String::new(alloc);
        write_window(&mut told, false, line, "").expect(&rt, "memory");
        let wanted = format!(in alloc; "{line}\n{below}^\n").expect(&rt, "memory");
        assert_eq!(rt; told.as_str(), wanted.as_str());
    }
}
