//! JSON as values of variables.
use language_values::value::{InputValue, Variables};
use lint_sources::json_text::is_object_text;
use lint_sources::variables::read_variables;
use sdl_scalars::scalar::SourceScalar;
use std::alloc::{AllocError, Global};

// A text, and its values in the order of their names, or its error.
const TEXTS: &[(&str, &str)] = &[
    ("{}", ""),
    (
        "{\"b\": -0, \"a\": 1, \"c\": 12345678901234567890123}",
        "a integer 1; b integer -0; c integer 12345678901234567890123; ",
    ),
    (
        "{\"a\": 1.0, \"b\": 1e3, \"c\": -2E-1}",
        "a float 1.0; b float 1e3; c float -2E-1; ",
    ),
    (
        "\u{feff}\n{\"a\": true, \"b\": false, \"c\": null}\n",
        "a true; b false; c null; ",
    ),
    (
        "{\"a\": \"RED\", \"b\": \"\\u00e9\\n\\\"\"}",
        "a \"RED\"; b \"\u{e9}\n\"\"; ",
    ),
    (
        "{\"a\": [1, {\"k\": [\"x\"], \"l\": {}}, null, []]}",
        "a [1, {k: [\"x\"], l: {}}, null, []]; ",
    ),
    ("{\"a\": 1, \"a\": 2}", "a integer 2; "),
    ("", "0:0 invalid JSON"),
    ("{\"a\": tru}", "0:6 invalid JSON"),
    ("\u{feff}{\n\"a\": tru}", "1:5 invalid JSON"),
    ("[1]", "0:0 expected a JSON object"),
    ("\r\n \"a\"", "1:1 expected a JSON object"),
];

// No JSON, wherever that shows.
const BROKEN: &[&str] = &[
    "{",
    "{\"a\"}",
    "{\"a\": 1,}",
    "{a: 1}",
    "{} {}",
    "{\"a\": 01}",
    "{'a': 1}",
];

// Whether a text is an object's, if it is one of JSON.
const OBJECTS: &[(&str, bool)] = &[
    ("{", true),
    ("\u{feff} \r\n\t{ \"data\": 1", true),
    ("type Query { a: Int }", false),
    ("# {", false),
    ("", false),
];

fn values_told(alloc: Global, values: &Variables<SourceScalar>) -> Result<String, AllocError> {
    let mut text = String::new(alloc);
    for (name, value) in values {
        let kind = match value {
            InputValue::Scalar(SourceScalar::Int(_)) => "integer ",
            InputValue::Scalar(SourceScalar::Float(_)) => "float ",
            _ => "",
        };
        write!(text, "{name} {kind}{value}; ")?;
    }
    Ok(text)
}

fn told(alloc: Global, text: &str) -> Result<String, AllocError> {
    match read_variables(alloc, text) {
        Ok(values) => values_told(alloc, &values),
        Err(error) => match error.position() {
            Some(position) => format!(in alloc; "{position} {error}"),
            None => format!(in alloc; "{error}"),
        },
    }
}

#[test]
fn texts(rt: HostRuntime) {
    for (text, wanted) in TEXTS {
        let found = told(rt.alloc(), text).expect(&rt, "memory");
        assert_eq!(rt; found.as_str(), *wanted);
    }
}

#[test]
fn broken(rt: HostRuntime) {
    for text in BROKEN {
        let found = told(rt.alloc(), text).expect(&rt, "memory");
        assert!(rt; found.as_str().ends_with("invalid JSON"));
    }
}

#[test]
fn objects(rt: HostRuntime) {
    for (text, wanted) in OBJECTS {
        assert_eq!(rt; is_object_text(text), *wanted);
    }
}

// An object with so many lists in one another.
fn nested(alloc: Global, lists: usize) -> Result<String, AllocError> {
    let mut text = String::from_str(alloc, "{\"a\": ")?;
    for _ in 0..lists {
        text.push_str("[")?;
    }
    for _ in 0..lists {
        text.push_str("]")?;
    }
    text.push_str("}")?;
    Ok(text)
}

#[test]
fn nests_128_levels_deep(rt: HostRuntime) {
    let text = nested(rt.alloc(), 127).expect(&rt, "memory");
    let found = told(rt.alloc(), text.as_str()).expect(&rt, "memory");
    assert!(rt; found.as_str().starts_with("a [[[["));
    assert!(rt; found.as_str().ends_with("]]]]; "));
    assert_eq!(rt; found.len(), 258);
    let text = nested(rt.alloc(), 128).expect(&rt, "memory");
    let found = told(rt.alloc(), text.as_str()).expect(&rt, "memory");
    assert!(rt; found.as_str().ends_with("invalid JSON"));
}
