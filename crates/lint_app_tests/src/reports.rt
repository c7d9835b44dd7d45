//! Errors as text, as JSON and for GitHub.
use language_types::error::OutOfMemory;
use language_types::position::SourcePosition;
use lint_report::github_report::github_report;
use lint_report::json_report::json_report;
use lint_report::text_report::{faults_text, text_report};
use lint_sources::faults::Fault;
use lint_sources::issues::Issue;
use lint_sources::sources::{Joined, Source};
use lint_sources::text_places::position_at;
use std::alloc::Global;

const FILES: &[(&str, &str)] = &[
    ("a.graphql", "{\n\tdog { nme }\n}\n"),
    ("b.graphql", "{ a(x: \"\u{e9}\") b }"),
];

// The message of each error, and the places that it has in the joined text.
const ERRORS: &[(&str, &[usize])] = &[("One \"place\"", &[9]), ("Two", &[31, 0]), ("None", &[])];

const TEXT: &str = "a.graphql:2:8: error: One \"place\"
\tdog { nme }
\t      ^
b.graphql:1:13: error: Two
{ a(x: \"\u{e9}\") b }
            ^
a.graphql:1:1: note: also here
{
^
b.graphql: error: None
";

// A fault with a place, and one of a file as a whole, as text.
const FAULTS_TEXT: &str = "c: 1,2.graphql:2:3: error: 50% of\\u{d}\\u{a}\u{e9} is bad
\u{e9}\tb
 \t^
d.graphql: error: entity not found
";

const FAULTS_COLOURED: &str =
    "\x1b[1mc: 1,2.graphql\x1b[0m:2:3: \x1b[1;31merror:\x1b[0m 50% of\\u{d}\\u{a}\u{e9} is bad
\u{e9}\tb
 \t\x1b[1;31m^\x1b[0m
\x1b[1md.graphql\x1b[0m: \x1b[1;31merror:\x1b[0m entity not found
";

const FAULTS_JSON: &str = "[
  {
    \"path\": \"c: 1,2.graphql\",
    \"message\": \"50% of\\r\\n\u{e9} is bad\",
    \"locations\": [
      {
        \"line\": 2,
        \"column\": 3
      }
    ]
  },
  {
    \"path\": \"d.graphql\",
    \"message\": \"entity not found\",
    \"locations\": []
  }
]
";

// A fault with places in two files, and one of a file as a whole.
const SPREAD_TEXT: &str = "a.graphql:1:11: error: A needs itself
input A { b: B! }
          ^
b.graphql:5:6: note: also here
\t\"\u{e9}\" c: C!
\t    ^
a.graphql:2:11: note: also here
input C { a: A! }
          ^
c.graphql: error: entity not found
";

// The locations of the fault in the file of its first place.
const SPREAD_JSON: &str = "[
  {
    \"path\": \"a.graphql\",
    \"message\": \"A needs itself\",
    \"locations\": [
      {
        \"line\": 1,
        \"column\": 11
      },
      {
        \"line\": 2,
        \"column\": 11
      }
    ]
  },
  {
    \"path\": \"c.graphql\",
    \"message\": \"entity not found\",
    \"locations\": []
  }
]
";

const SPREAD_GITHUB: &str = "::error file=a.graphql,line=1,col=11::A needs itself
::error file=c.graphql::entity not found
";

const GITHUB: &str = "::error file=c%3A 1%2C2.graphql,line=2,col=3::50%25 of%0D%0A\u{e9} is bad
::error file=d.graphql::entity not found
::error file=a.graphql,line=2,col=8::One \"place\"
::error file=b.graphql,line=1,col=13::Two
::error file=b.graphql::None
";

const JSON: &str = "[
  {
    \"path\": \"a.graphql\",
    \"message\": \"One \\\"place\\\"\",
    \"locations\": [
      {
        \"line\": 2,
        \"column\": 8
      }
    ]
  },
  {
    \"path\": \"b.graphql\",
    \"message\": \"Two\",
    \"locations\": [
      {
        \"line\": 1,
        \"column\": 13
      }
    ]
  },
  {
    \"path\": \"b.graphql\",
    \"message\": \"None\",
    \"locations\": []
  }
]
";

// The number of errors, of files that were judged, of files that were not, and the last line.
const COUNTS: &[(usize, usize, usize, &str)] = &[
    (3, 5, 0, "3 errors in 2 of 5 files\n"),
    (1, 1, 0, "1 error in 1 of 1 file\n"),
    (1, 2, 1, "1 error in 1 of 2 files, 1 file not checked\n"),
    (0, 5, 0, "no errors in 5 files\n"),
    (0, 0, 2, "2 files not checked\n"),
];

fn sources(alloc: Global) -> Result<Vec<Source>, OutOfMemory> {
    let mut sources = Vec::new(alloc);
    for (path, text) in FILES {
        sources.push(Source {
            path: String::from_str(alloc, path)?,
            text: String::from_str(alloc, text)?,
        })?;
    }
    Ok(sources)
}

fn joined(alloc: Global) -> Result<Joined, OutOfMemory> {
    let mut joined = Joined::new(alloc);
    for (file, (_, text)) in FILES.iter().enumerate() {
        joined.add(file, text)?;
    }
    Ok(joined)
}

fn places(
    alloc: Global,
    text: &str,
    indices: &[usize],
) -> Result<Vec<SourcePosition>, OutOfMemory> {
    let mut places = Vec::new(alloc);
    for index in indices {
        places.push(position_at(text.as_bytes(), *index))?;
    }
    Ok(places)
}

// An error without a place is one of the second file.
fn issues(alloc: Global, joined: &Joined) -> Result<Vec<Issue>, OutOfMemory> {
    let mut issues = Vec::new(alloc);
    for (message, indices) in ERRORS {
        let places = places(alloc, joined.text(), indices)?;
        issues.push(Issue::of_joined(alloc, joined, 1, message, places.as_slice())?)?;
    }
    Ok(issues)
}

// The place stands behind two characters and three bytes of its line.
fn faults(alloc: Global) -> Result<Vec<Fault>, OutOfMemory> {
    let text = "{\n\u{e9}\tb";
    let place = position_at(text.as_bytes(), 5);
    let mut faults = Vec::new(alloc);
    let message = "50% of\r\n\u{e9} is bad";
    faults.push(Fault::new(alloc, "c: 1,2.graphql", text, Some(place), &message)?)?;
    faults.push(Fault::new(alloc, "d.graphql", "", None, &"entity not found")?)?;
    Ok(faults)
}

// A fault whose further places have their lines alone.
fn spread(alloc: Global) -> Result<Fault, OutOfMemory> {
    let text = "input A { b: B! }\ninput C { a: A! }";
    let place = SourcePosition::new(10, 0, 10);
    let mut fault = Fault::new(alloc, "a.graphql", text, Some(place), &"A needs itself")?;
    let line = "\t\"\u{e9}\" c: C!";
    fault.add_place(alloc, "b.graphql", line, SourcePosition::new(6, 4, 6))?;
    let line = "input C { a: A! }";
    fault.add_place(alloc, "a.graphql", line, SourcePosition::new(10, 1, 10))?;
    Ok(fault)
}

fn spread_faults(alloc: Global) -> Result<Vec<Fault>, OutOfMemory> {
    let mut faults = Vec::new(alloc);
    faults.push(spread(alloc)?)?;
    faults.push(Fault::new(alloc, "c.graphql", "", None, &"entity not found")?)?;
    Ok(faults)
}

#[test]
fn json(rt: HostRuntime) {
    let alloc = rt.alloc();
    let sources = sources(alloc).expect(&rt, "memory");
    let joined = joined(alloc).expect(&rt, "memory");
    let issues = issues(alloc, &joined).expect(&rt, "memory");
    let told = json_report(alloc, &[], sources.as_slice(), issues.as_slice()).expect(&rt, "memory");
    assert_eq!(rt; told.as_str(), JSON);
    let none = json_report(alloc, &[], sources.as_slice(), &[]).expect(&rt, "memory");
    assert_eq!(rt; none.as_str(), "[]\n");
}

#[test]
fn faults_are_told(rt: HostRuntime) {
    let alloc = rt.alloc();
    let faults = faults(alloc).expect(&rt, "memory");
    let text = faults_text(alloc, false, faults.as_slice()).expect(&rt, "memory");
    assert_eq!(rt; text.as_str(), FAULTS_TEXT);
    let text = faults_text(alloc, true, faults.as_slice()).expect(&rt, "memory");
    assert_eq!(rt; text.as_str(), FAULTS_COLOURED);
    let json = json_report(alloc, faults.as_slice(), &[], &[]).expect(&rt, "memory");
    assert_eq!(rt; json.as_str(), FAULTS_JSON);
}

#[test]
fn faults_have_further_places(rt: HostRuntime) {
    let alloc = rt.alloc();
    let faults = spread_faults(alloc).expect(&rt, "memory");
    let text = faults_text(alloc, false, faults.as_slice()).expect(&rt, "memory");
    assert_eq!(rt; text.as_str(), SPREAD_TEXT);
    let json = json_report(alloc, faults.as_slice(), &[], &[]).expect(&rt, "memory");
    assert_eq!(rt; json.as_str(), SPREAD_JSON);
    let told = github_report(alloc, faults.as_slice(), &[], &[]).expect(&rt, "memory");
    assert_eq!(rt; told.as_str(), SPREAD_GITHUB);
}

#[test]
fn github(rt: HostRuntime) {
    let alloc = rt.alloc();
    let faults = faults(alloc).expect(&rt, "memory");
    let sources = sources(alloc).expect(&rt, "memory");
    let joined = joined(alloc).expect(&rt, "memory");
    let issues = issues(alloc, &joined).expect(&rt, "memory");
    let told = github_report(
        alloc,
        faults.as_slice(),
        sources.as_slice(),
        issues.as_slice(),
    )
    .expect(&rt, "memory");
    assert_eq!(rt; told.as_str(), GITHUB);
}

#[test]
fn text(rt: HostRuntime) {
    let alloc = rt.alloc();
    let sources = sources(alloc).expect(&rt, "memory");
    let joined = joined(alloc).expect(&rt, "memory");
    let issues = issues(alloc, &joined).expect(&rt, "memory");
    let told = text_report(alloc, false, sources.as_slice(), issues.as_slice(), 2, 0).expect(
        &rt, "memory",
    );
    assert_eq!(rt;
        told.as_str().strip_prefix(TEXT),
        Some("3 errors in 2 of 2 files\n")
    );
}

#[test]
fn counts(rt: HostRuntime) {
    let alloc = rt.alloc();
    let sources = sources(alloc).expect(&rt, "memory");
    let joined = joined(alloc).expect(&rt, "memory");
    let issues = issues(alloc, &joined).expect(&rt, "memory");
    for (errors, judged, unjudged, wanted) in COUNTS {
        let shown = issues.as_slice().get(..*errors).unwrap_or(&[]);
        let told = text_report(alloc, false, sources.as_slice(), shown, *judged, *unjudged).expect(
            &rt, "memory",
        );
        assert!(rt; told.ends_with(*wanted));
    }
}
