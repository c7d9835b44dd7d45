//! Each request for memory refused in turn.
use crate::shop::SHOP_RESULT;
use introspection::{IntrospectionError, schema_text};
use sdl_reader::{SchemaReadError, read_schema};

/// Results, and whether each is that of a schema.
const RESULTS: [(&str, bool); 2] = [
    (SHOP_RESULT, true),
    (r#"{"__schema":{"queryType":{"name":""}}}"#, false),
];

/// Texts, and whether each is a schema.
const TEXTS: [(&str, bool); 3] = [
    ("type Query { a: E } enum E { A }", true),
    ("type Query { a: Dog }", false),
    ("type Query { a: Int a: Int }", false),
];

/// Run with each request for memory refused in turn, a result is written or refused as expected, or out of memory.
#[test]
fn a_refused_request_changes_no_text(rt: HostRuntime) {
    for (response, is_schema) in RESULTS {
        let is_steady = match schema_text(rt.alloc(), response) {
            Ok(_) => is_schema,
            Err(IntrospectionError::OutOfMemory) => true,
            Err(_) => !is_schema,
        };
        assert!(rt; is_steady);
    }
}

/// Run with each request for memory refused in turn, a text is a schema or none as expected, or out of memory.
#[test]
fn a_refused_request_changes_no_schema(rt: HostRuntime) {
    for (text, is_schema) in TEXTS {
        let is_steady = match read_schema(rt.alloc(), text) {
            Ok(_) => is_schema,
            Err(SchemaReadError::OutOfMemory) => true,
            Err(_) => !is_schema,
        };
        assert!(rt; is_steady);
    }
}
