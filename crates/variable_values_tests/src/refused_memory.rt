//! Each request for memory refused in turn.

use crate::given::values;
use crate::operations::said;
use crate::pets::schema;
use language::value::DefaultScalarValue;
use sample_reader::{ReadError, read_document};
use schema::model::SchemaType;
use std::alloc::Global;

const TEXT: &str =
    "query ($c: ComplexInput!) { complicatedArgs { complexArgField(complexArg: $c) } }";

const WANT: &str =
    "Variable \"$c\" got invalid value. In field \"requiredField\": Expected \"Boolean!\", found null.. At 0:7\nVariable \"$c\" got invalid value. In field \"zz\": Unknown field.. At 0:7\n";

// What is said of `{zz: 1}`.
fn told(alloc: Global, schema: &SchemaType<DefaultScalarValue>) -> Result<String, ReadError> {
    let document = read_document(alloc, TEXT.as_bytes())?;
    let values = values(alloc, "{zz: 1}")?;
    Ok(said(alloc, schema, &values, document.as_slice())?)
}

fn told_or_refused(alloc: Global) -> Result<String, ReadError> {
    match schema(alloc) {
        Ok(schema) => told(alloc, &schema),
        Err(_) => Err(ReadError::OutOfMemory),
    }
}

/// With each request for memory refused in turn, the result is the same or out of memory.
#[test]
fn a_refused_request_changes_no_answer(rt: HostRuntime) {
    match told_or_refused(rt.alloc()) {
        Ok(told) => assert_eq!(rt; told.as_str(), WANT),
        Err(refused) => assert!(rt; matches!(refused, ReadError::OutOfMemory)),
    }
}
