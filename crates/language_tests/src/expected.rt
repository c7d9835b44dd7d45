//! What goes on in small texts. The expected values are those of the grammar (section 2).
use expected_tokens::{OutOfMemory, expected_tokens, goes_on};
use std::alloc::Global;
use std::fmt::Write;

const AFTER_FIELD: &str =
    "\"(\" \"...\" \":\" \"@\" \"{\" \"}\" \"query\" \"mutation\" \"subscription\" \"fragment\" \"on\" \"true\" \
\"false\" \"null\" a name;";

const VALUE: &str =
    "\"$\" \"[\" \"{\" \"query\" \"mutation\" \"subscription\" \"fragment\" \"on\" \"true\" \"false\" \"null\" \
a name an integer a float a string a block string;";

// Texts, each with what may stand at its first token at fault.
const EXPECTED: &[(&str, &str)] = &[
    ("{ a", AFTER_FIELD),
    ("{ a # }", AFTER_FIELD),
    ("{ a ^ }", AFTER_FIELD),
    ("{ a ] }", AFTER_FIELD),
    (
        "query",
        "\"(\" \"@\" \"{\" \"query\" \"mutation\" \"subscription\" \"fragment\" \"on\" \"true\" \"false\" \"null\" a name;",
    ),
    (
        "",
        "\"{\" \"query\" \"mutation\" \"subscription\" \"fragment\";",
    ),
    (
        "{ ...",
        "\"@\" \"{\" \"query\" \"mutation\" \"subscription\" \"fragment\" \"on\" \"true\" \"false\" \"null\" a name;",
    ),
    (
        "fragment",
        "\"query\" \"mutation\" \"subscription\" \"fragment\" \"true\" \"false\" \"null\" a name;",
    ),
    ("fragment A", "\"on\";"),
    ("{ a(b: \"c", VALUE),
    ("{ a(b: \"\\q\") }", VALUE),
    (
        "{ a }",
        "\"{\" \"query\" \"mutation\" \"subscription\" \"fragment\" the end of the text;",
    ),
];

// Texts, each with another, and whether a document goes on with it.
const ANSWERS: &[(&str, &str, bool)] = &[
    ("{ a", "b }", true),
    ("{ a", "]", false),
    ("{ a }", "", true),
    ("{ a }", "}", false),
    ("", "query Q {", true),
    ("{ a ^", "}", true),
    ("{ a", "^", false),
    ("{ a(b: ", "\"\\q\"", false),
    ("{ a(b: ", "\"q\"", true),
    ("fragment", "on", false),
    ("fragment", "A on", true),
];

fn told(alloc: Global, text: &str) -> Result<String, OutOfMemory> {
    let mut line = String::new(alloc);
    for expected in expected_tokens(alloc, text)? {
        let separator = if line.is_empty() { "" } else { " " };
        write!(line, "{separator}{expected}")?;
    }
    line.push(';')?;
    Ok(line)
}

#[test]
fn expected(rt: HostRuntime) {
    for (text, wanted) in EXPECTED {
        let line = told(rt.alloc(), text).expect(&rt, "memory");
        assert_eq!(rt; line.as_str(), *wanted);
    }
}

#[test]
fn answers(rt: HostRuntime) {
    for (text, next, wanted) in ANSWERS {
        let answer = goes_on(rt.alloc(), text, next).expect(&rt, "memory");
        assert!(rt; answer == *wanted);
    }
}

/// Run with each request for memory refused in turn: the answer is the same, or out of memory comes.
#[test]
fn a_refused_request_changes_no_answer(rt: HostRuntime) {
    match told(rt.alloc(), "{ a ^ }") {
        Ok(line) => assert_eq!(rt; line.as_str(), AFTER_FIELD),
        Err(OutOfMemory) => (),
    }
}
