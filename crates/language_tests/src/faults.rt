//! Which documents the reader takes, and where the others have their fault.
use crate::same::same;
use sample_reader::{ReadError, read_document, read_value};
use std::alloc::{AllocError, Global};

// Documents, each with the place of its fault: the index, the line and the column.
const FAULTS: &[(&[u8], &str)] = &[
    // A comment ends before a line feed, whatever its bytes, and nothing else ends a line.
    (b"{ # \r} \x00 \xff\xc3\xa9\na }b", "16=1:3"),
    (b"{\ra} }", "5=0:5"),
    (b"{\ra}\r\n }", "7=1:1"),
    (b"{a(b: \"#\")} # \"", "none"),
    (b"{a(b: \"#\") c}]", "13=0:13"),
    (b"\xef\xbb\xbf{a}", "0=0:0"),
    (b"{a\xc3\xa9}", "2=0:2"),
    (b"{a(b: \"\xc3\xa9\")}", "6=0:6"),
    // Of numbers, only integers of 32 bits are read.
    (b"{a(b: -2147483648, c: 2147483647)}", "none"),
    (b"{a(b: 2147483648)}", "6=0:6"),
    (b"{a(b: [-1 -2147483649])}", "10=0:10"),
    (b"{a(b: 1.5)}", "6=0:6"),
    (b"{a(b: 1x)}", "6=0:6"),
    // Of strings, only those on one line and without escape sequences.
    (b"{a(b: \"\"\"c\"\"\")}", "6=0:6"),
    (b"{a(b: \"\\n\")}", "6=0:6"),
    (b"{a(b: \"c\rd\")}", "6=0:6"),
    (b"{a(b: \"c)}", "6=0:6"),
    (b"{a & b}", "3=0:3"),
    (b"{a .. b}", "3=0:3"),
    // Of two faults the first is told, and at the end of the text what is missing.
    (b"{a) b(c: 1.5)}", "2=0:2"),
    (b"{a(b: 1.5 c d)}", "6=0:6"),
    (b"{a} 1.5", "4=0:4"),
    (b"{a(b: #\n", "8=1:0"),
    (b" # {a}", "6=0:6"),
];

/// The place of a document's fault.
fn fault(alloc: Global, text: &[u8]) -> Result<String, AllocError> {
    match read_document(alloc, text) {
        Ok(_) => String::from_str(alloc, "none"),
        Err(ReadError::Fault(place)) => format!(in alloc; "{}={place}", place.index()),
        Err(ReadError::OutOfMemory) => Err(AllocError),
    }
}

#[test]
fn a_document_has_its_fault_at_the_first_token_that_does_not_fit(rt: HostRuntime) {
    for (text, want) in FAULTS {
        let told = fault(rt.alloc(), text).expect(&rt, "memory");
        same(&rt, told.as_str(), want);
    }
}

/// How deep the texts nest.
const LEVELS: usize = 5_000;

/// The beginning and the end of each level, with a text in the middle.
fn nested(alloc: Global, opening: &str, middle: &str, closing: &str) -> Result<String, AllocError> {
    let mut text = String::new(alloc);
    for _ in 0..LEVELS {
        text.push_str(opening)?;
    }
    text.push_str(middle)?;
    for _ in 0..LEVELS {
        text.push_str(closing)?;
    }
    Ok(text)
}

#[test]
fn no_depth_of_sets_is_too_deep(rt: HostRuntime) {
    let text = nested(rt.alloc(), "{a ...", "{b}", "}").expect(&rt, "memory");
    let told = fault(rt.alloc(), text.as_bytes()).expect(&rt, "memory");
    same(&rt, told.as_str(), "none");
}

#[test]
fn no_depth_of_values_is_too_deep(rt: HostRuntime) {
    let text = nested(rt.alloc(), "[{a: ", "1", "}]").expect(&rt, "memory");
    let value = read_value(rt.alloc(), text.as_bytes()).expect(&rt, "a value");
    assert_eq!(rt; value.span.end.index(), text.len());
}
