//! Runs in which an allocation, a read or a write fails.
use crate::fakes::{BrokenWriter, Memory, PLAIN, run_broken, words_of};
use lint_app::program::run;
use std::alloc::Global;

const LINE: &str =
    "--schema shop.graphql --schema item.graphql --variables values.json good.graphql bad.graphql";

const TOLD: &str =
    "bad.graphql:3:3: error: Unknown field \"nme\" on type \"Item\"\n\t\tnme\n\t\t^\n1 error in 1 of 2 files\n";

const TOLD_JSON: &str = "[
  {
    \"path\": \"bad.graphql\",
    \"message\": \"Unknown field \\\"nme\\\" on type \\\"Item\\\"\",
    \"locations\": [
      {
        \"line\": 3,
        \"column\": 3
      }
    ]
  }
]
";

const TOLD_GITHUB: &str =
    "::error file=bad.graphql,line=3,col=3::Unknown field \"nme\" on type \"Item\"\n";

const FAILED: &str = "lint: error: input or output failed\n";

const FILES: Memory<'static> = Memory {
    broken: "",
    colours: PLAIN,
};

// The errors of a directory.
const TEAM_ERRORS: &str = "team/a.graphql:1:17: error: Unknown field \"nme\" on type \"Item\"
{ item(id: 1) { nme } }
                ^
team/b/c.gql:1:17: error: Unknown field \"nam\" on type \"Item\"
{ item(id: 1) { nam } }
                ^
2 errors in 2 of 3 files
";

// How the line on out of memory ends. It begins with a file's path if its read failed.
const NO_MEMORY: &str = "error: out of memory\n";

// A file that can't be read, and the output then.
const READS: &[(&str, &str)] = &[
    ("shop.graphql", ""),
    ("item.graphql", ""),
    ("values.json", ""),
    (
        "good.graphql",
        "bad.graphql:3:3: error: Unknown field \"nme\" on type \"Item\"\n\t\tnme\n\t\t^\n1 error in 1 of 1 file, 1 file not checked\n",
    ),
    ("bad.graphql", "no errors in 1 file, 1 file not checked\n"),
];

#[test]
fn a_failed_read_is_told(rt: HostRuntime) {
    for (path, output) in READS {
        let run = run_broken(rt.alloc(), LINE, path).expect(&rt, "memory");
        let told = format!(in rt.alloc(); "{path}: error: permission denied\n").expect(
            &rt, "memory",
        );
        assert!(rt; run.is(2, output, told.as_str()));
    }
}

// Arguments, and what is written to the output where no write fails.
const WRITES: &[(&str, &str)] = &[
    (LINE, TOLD),
    (
        "--schema shop.graphql --schema item.graphql --format json bad.graphql",
        TOLD_JSON,
    ),
    ("--schema shop --format github bad.graphql", TOLD_GITHUB),
    (
        "--schema absent.graphql --format github bad.graphql",
        "::error file=absent.graphql::entity not found\n",
    ),
    ("--version", "lint 0.1.0\n"),
];

/// Each write of the output fails in turn, and last the flush: what was taken is a beginning of the report.
#[test]
fn a_failed_write_is_told(rt: HostRuntime) {
    let alloc = rt.alloc();
    for (line, whole) in WRITES {
        let words = words_of(alloc, line).expect(&rt, "memory");
        for left in 0..=whole.len() {
            let mut output = BrokenWriter::new(alloc, left);
            let mut errors = Vec::new(alloc);
            let status = run(alloc, words.as_slice(), &FILES, &mut output, &mut errors);
            assert_eq!(rt; status, 2);
            assert_eq!(rt; errors.as_slice(), FAILED.as_bytes());
            assert_eq!(rt; Some(output.taken.as_slice()), whole.as_bytes().get(..left));
        }
        let mut output = BrokenWriter::new(alloc, whole.len() + 1);
        let mut errors = Vec::new(alloc);
        let status = run(alloc, words.as_slice(), &FILES, &mut output, &mut errors);
        assert!(rt; status == 2 || errors.is_empty());
        assert_eq!(rt; output.taken.as_slice(), whole.as_bytes());
    }
}

/// If the faults can't be written, only the status says so, and the output stays empty.
#[test]
fn failed_errors_end_with_2(rt: HostRuntime) {
    let alloc = rt.alloc();
    for line in [
        "--schema shop.graphql --schema item.graphql bad.graphql absent.graphql",
        "--schema absent.graphql bad.graphql",
        "--format xml",
    ] {
        let words = words_of(alloc, line).expect(&rt, "memory");
        for left in [0, 5] {
            let mut output = Vec::new(alloc);
            let mut errors = BrokenWriter::new(alloc, left);
            let status = run(alloc, words.as_slice(), &FILES, &mut output, &mut errors);
            assert_eq!(rt; status, 2);
            assert!(rt; output.is_empty());
        }
    }
}

// Whether a run writes the expected report, or that it is out of memory.
fn is_told_or_refused(alloc: Global, line: &str, told: &str) -> bool {
    let (Ok(words), Ok(mut output), Ok(mut errors)) = (
        words_of(alloc, line),
        Vec::with_capacity(alloc, 400),
        Vec::with_capacity(alloc, 200),
    ) else {
        return true;
    };
    let status = run(alloc, words.as_slice(), &FILES, &mut output, &mut errors);
    if status == 2 {
        return errors.as_slice().ends_with(NO_MEMORY.as_bytes());
    }
    status == 1 && output.as_slice() == told.as_bytes() && errors.is_empty()
}

/// Run with each allocation failing in turn, the program writes the expected report, or that it is out of memory.
#[test]
fn a_refused_request_is_told(rt: HostRuntime) {
    assert!(rt; is_told_or_refused(rt.alloc(), LINE, TOLD));
    assert!(rt; is_told_or_refused(rt.alloc(), "--schema shop team", TEAM_ERRORS));
}
