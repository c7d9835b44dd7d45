//! What is told of texts. With each request for memory refused in turn, it is the same or out of memory comes.
use answers::{Answer, Choices, Verdict, answer, answer_with_values, validate_text};
use graphql_reader::ReadError;
use sdl_reader::{SchemaReadError, read_schema};
use std::alloc::{AllocError, Global};
use validation::RootNode;

const SCHEMA: &str = "type Query { pet(id: Int): Pet } type Pet { name: String }";

const UNKNOWN: &str = "[
  {
    \"message\": \"Unknown field \\\"nme\\\" on type \\\"Pet\\\"\",
    \"locations\": [
      {
        \"line\": 2,
        \"column\": 9
      }
    ]
  }
]
";

const BROKEN: &str = "[
  {
    \"message\": \"expected a selection, found the end of the text\",
    \"locations\": [
      {
        \"line\": 1,
        \"column\": 6
      }
    ]
  }
]
";

const NOT_UTF8: &str = "[
  {
    \"message\": \"invalid utf-8 sequence of 1 bytes from index 6\",
    \"locations\": [
      {
        \"line\": 1,
        \"column\": 7
      }
    ]
  }
]
";

const CLOSED: &str = "[
  {
    \"message\": \"GraphQL introspection is not allowed, but the operation contained `__schema`\",
    \"locations\": [
      {
        \"line\": 1,
        \"column\": 3
      }
    ]
  }
]
";

const NO_VALUE: &str = "[
  {
    \"message\": \"Variable \\\"$id\\\" of required type \\\"Int!\\\" was not provided.\",
    \"locations\": [
      {
        \"line\": 1,
        \"column\": 9
      }
    ]
  }
]
";

const NO_OBJECT: &str = "[
  {
    \"message\": \"expected a JSON object\",
    \"locations\": [
      {
        \"line\": 1,
        \"column\": 1
      }
    ]
  }
]
";

/// What callers choose: all open, introspection closed, and one error at most.
const OPEN: Choices = Choices {
    is_closed: false,
    max_errors: 0,
};

const SHUT: Choices = Choices {
    is_closed: true,
    max_errors: 0,
};

const ONE: Choices = Choices {
    is_closed: false,
    max_errors: 1,
};

const TWO: Choices = Choices {
    is_closed: false,
    max_errors: 2,
};

const FORTY: Choices = Choices {
    is_closed: false,
    max_errors: 40,
};

/// How a report begins of a search that stopped: what has no place comes first.
const STOPPED: &str = "[
  {
    \"message\": \"There may be more fields that conflict: the search for them was stopped\",
    \"locations\": []
  },
  {
    \"message\": \"Fields \\\"pet\\\" conflict because";

/// Documents, what is chosen, and what is told of each.
const DOCUMENTS: &[(&[u8], Choices, Verdict, &str)] = &[
    (b"{ pet { name } __typename }", SHUT, Verdict::Valid, "[]\n"),
    (b"{\n  pet { nme } }", OPEN, Verdict::Invalid, UNKNOWN),
    (b"{\n  pet { nme } }", ONE, Verdict::Invalid, UNKNOWN),
    (b"{\n  pet { nme  more } }", ONE, Verdict::Invalid, UNKNOWN),
    (b"{ __schema { __typename } }", OPEN, Verdict::Valid, "[]\n"),
    (
        b"{ __schema { __typename } }",
        SHUT,
        Verdict::Invalid,
        CLOSED,
    ),
    (b"{ pet", OPEN, Verdict::Unreadable, BROKEN),
    (b"{ pet \xff", OPEN, Verdict::NotUtf8, NOT_UTF8),
];

const QUERY: &[u8] = b"query Q($id: Int!) { pet(id: $id) { name } }";

/// Values of its variable, and what is told of them.
const VALUES: &[(&[u8], Verdict, &str)] = &[
    (b"{\"id\": 1}", Verdict::Valid, "[]\n"),
    (b"{}", Verdict::Invalid, NO_VALUE),
    (b"[1]", Verdict::NoValues, NO_OBJECT),
    (b"{\"i\": \xff}", Verdict::NotUtf8, NOT_UTF8),
];

/// Texts, and of each the number of errors, or the index of the first token with which no document goes on.
const TEXTS: &[(&str, Result<usize, usize>)] = &[
    ("{ pet { name } }", Ok(0)),
    ("{ pet { nme } more }", Ok(2)),
    ("{ pet", Err(5)),
    ("{ pet { } }", Err(8)),
    ("{ pet { name } } pet", Err(17)),
];

fn told(alloc: Global, query: &[u8], choices: Choices) -> Result<Answer, SchemaReadError<'static>> {
    let schema = read_schema(alloc, SCHEMA)?;
    Ok(answer(alloc, &schema, query, choices)?)
}

fn told_with(alloc: Global, values: &[u8]) -> Result<Answer, SchemaReadError<'static>> {
    let schema = read_schema(alloc, SCHEMA)?;
    Ok(answer_with_values(alloc, &schema, QUERY, values, SHUT)?)
}

/// The number of errors of a text, or the index of its fault; `None` where memory is refused.
fn found_in(alloc: Global, text: &str) -> Option<Result<usize, usize>> {
    let Ok(schema) = read_schema(alloc, SCHEMA) else {
        return None;
    };
    let root = RootNode::new(schema);
    match validate_text(alloc, &root, text) {
        Ok(errors) => Some(Ok(errors.len())),
        Err(ReadError::Syntax(error)) => Some(Err(error.position.index())),
        Err(ReadError::OutOfMemory) => None,
    }
}

#[test]
fn errors_of_texts(rt: HostRuntime) {
    for (text, wanted) in TEXTS {
        let found = found_in(rt.alloc(), text).expect(&rt, "memory");
        assert!(rt; found == *wanted);
    }
}

/// The same with each request for memory refused in turn: what is found is as expected, or out of memory comes.
#[test]
fn a_refused_request_changes_no_errors(rt: HostRuntime) {
    for (text, wanted) in TEXTS {
        let is_steady = match found_in(rt.alloc(), text) {
            Some(found) => found == *wanted,
            None => true,
        };
        assert!(rt; is_steady);
    }
}

// A document with one error, which has 33 times 33 reasons.
fn many_reasons(alloc: Global) -> Result<String, AllocError> {
    let mut text = String::from_str(alloc, "{ pet { ")?;
    for _ in 0..33 {
        text.push_str("a: name ")?;
    }
    text.push_str("} pet { ")?;
    for _ in 0..33 {
        text.push_str("a: __typename ")?;
    }
    text.push_str("} }")?;
    Ok(text)
}

/// Of at most forty errors 1,040 findings are enough. Of at most two 1,002 are, but their error counts as nine or more.
#[test]
fn a_search_that_stops_is_told(rt: HostRuntime) {
    let text = many_reasons(rt.alloc()).expect(&rt, "memory");
    for (choices, is_stopped) in [(FORTY, true), (TWO, false), (OPEN, false)] {
        let found = told(rt.alloc(), text.as_bytes(), choices).expect(&rt, "memory");
        assert_eq!(rt; found.verdict, Verdict::Invalid);
        assert_eq!(rt; found.report.as_str().starts_with(STOPPED), is_stopped);
    }
}

#[test]
fn documents(rt: HostRuntime) {
    for (query, choices, verdict, report) in DOCUMENTS {
        let found = told(rt.alloc(), query, *choices).expect(&rt, "memory");
        assert_eq!(rt; found.verdict, *verdict);
        assert_eq!(rt; found.report.as_str(), *report);
    }
}

#[test]
fn values(rt: HostRuntime) {
    for (values, verdict, report) in VALUES {
        let found = told_with(rt.alloc(), values).expect(&rt, "memory");
        assert_eq!(rt; found.verdict, *verdict);
        assert_eq!(rt; found.report.as_str(), *report);
    }
}

/// Run with each request for memory refused in turn, a text is told of as expected, or out of memory comes.
#[test]
fn a_refused_request_changes_no_answer(rt: HostRuntime) {
    for (query, choices, verdict, report) in DOCUMENTS {
        let is_steady = match told(rt.alloc(), query, *choices) {
            Ok(found) => found.verdict == *verdict && found.report.as_str() == *report,
            Err(error) => error == SchemaReadError::OutOfMemory,
        };
        assert!(rt; is_steady);
    }
}
