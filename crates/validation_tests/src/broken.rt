//! Runs of the program `check` in which an allocation, a read or a write fails.
use crate::runs::{Run, Source, outcome};
use check_app::program::{tell, words_failure};
use std::alloc::Global;
use std::io;
use std::process::Abort;

const FAILED: &str = "check: input or output failed\n";

const NO_MEMORY: &str = "check: out of memory\n";

const USAGE: &str = "check: usage: check demo or check <pets, boxes> [merge, closed]\n";

// More than any run here writes.
const ALL: usize = 400;

/// Arguments are read before `run`; those that are not valid UTF-8 are invalid data.
#[test]
fn words_that_are_no_text_are_told(rt: HostRuntime) {
    let kinds = [
        (io::ErrorKind::InvalidData, 4, USAGE),
        (io::ErrorKind::OutOfMemory, 3, NO_MEMORY),
    ];
    for (kind, wanted, line) in kinds {
        let mut faults = Vec::new(rt.alloc());
        let failure = words_failure(&io::Error::from(kind));
        assert_eq!(rt; tell(failure, &mut faults), wanted);
        assert_eq!(rt; faults.as_slice(), line.as_bytes());
    }
}

// A document with errors, and its report.
const TEXT: &[u8] = b"query Q { dog { ...A } } query Q { dog { name } }";

const TOLD: &str =
    "There can only be one operation named Q. At 0:0, 0:25\nUnknown fragment: \"A\". At 0:19\ncompared 0\n";

fn on(text: &'static [u8], failure: Option<io::ErrorKind>) -> Run {
    Run {
        word: "pets",
        input: Source { text, failure },
        output: ALL,
        faults: ALL,
    }
}

/// The run ends so.
fn ends(rt: &impl Abort, alloc: Global, run: &Run, status: u8, output: &str, faults: &str) {
    let ended = outcome(alloc, run).expect(rt, "memory");
    assert!(rt; ended.is(status, output, faults));
}

/// Each read fails in turn.
#[test]
fn a_failed_read_is_told(rt: HostRuntime) {
    let kinds = [
        (io::ErrorKind::BrokenPipe, 5, FAILED),
        (io::ErrorKind::OutOfMemory, 3, NO_MEMORY),
    ];
    for (kind, wanted, line) in kinds {
        for left in 0..=TEXT.len() {
            let text = TEXT.get(..left).unwrap_or(TEXT);
            ends(&rt, rt.alloc(), &on(text, Some(kind)), wanted, "", line);
        }
    }
}

/// Each write of the report fails in turn, and last the flush: what was taken is a beginning of the report.
#[test]
fn a_failed_write_is_told(rt: HostRuntime) {
    for left in 0..=TOLD.len() {
        let mut run = on(TEXT, None);
        run.output = left;
        let told = TOLD.get(..left).unwrap_or("none");
        ends(&rt, rt.alloc(), &run, 5, told, FAILED);
    }
}

/// Each write of a line of faults fails in turn, and last the flush.
#[test]
fn a_failed_line_of_faults_ends_with_5(rt: HostRuntime) {
    for (word, text, line) in [
        ("nope", b"".as_slice(), USAGE),
        ("pets", b"}", "check: syntax at 0:0\n"),
    ] {
        for left in 0..=line.len() {
            let mut run = on(text, None);
            run.word = word;
            run.faults = left;
            let told = line.get(..left).unwrap_or("none");
            ends(&rt, rt.alloc(), &run, 5, "", told);
        }
    }
}

/// Documents with errors of several kinds, and their reports.
const REFUSED: [(&[u8], &str); 4] = [
    (TEXT, TOLD),
    (
        b"{ dog { name(surname: true, surname: 1) } }",
        "There can only be one argument named \"surname\". At 0:13, 0:28\nInvalid value for argument \"surname\", reason: Invalid value \"1\" for type \"Boolean\". At 0:37\ncompared 0\n",
    ),
    (
        b"{ dog { ...F } } fragment F on Int { x }",
        "Fragment \"F\" cannot be spread here as objects of type \"Dog\" can never be of type \"Int\". At 0:8\nFragment \"F\" cannot condition non composite type \"Int. At 0:31\nUnknown field \"x\" on type \"Int\". At 0:37\ncompared 0\n",
    ),
    (
        b"{ complicatedArgs { pairArgField(pairArg: {}) } }",
        "Invalid value for argument \"pairArg\", reason: \"PairInput\" is missing fields: \"b\", \"a\". At 0:42\ncompared 0\n",
    ),
];

/// Run with each allocation failing in turn, the program ends as the row says, or with status 3.
#[test]
fn a_refused_request_is_told(rt: HostRuntime) {
    for (text, wanted) in REFUSED {
        if let Ok(ended) = outcome(rt.alloc(), &on(text, None)) {
            assert!(rt; ended.is(1, wanted, "") || ended.is(3, "", NO_MEMORY));
        }
    }
}
