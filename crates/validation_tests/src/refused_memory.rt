//! Each request for memory refused in turn, from the metadata to the sorted errors.
//!
//! One request of a run is refused. What it refuses is out of memory, and gives the expected result at a second try.

use crate::schemas;
use language::value::{InputValue, Variables};
use sample_reader::{ReadError, read_document, read_value};
use std::alloc::Global;
use std::collections::BTreeMap;
use std::process::Abort;
use validation::ast::Definition;
use validation::{DefaultScalarValue, OutOfMemory, SchemaError, SchemaType};
use validation_examples::told::{lines, told_by_all};
use validation_examples::values_after::values_after;

type Schema = SchemaType<DefaultScalarValue>;

type Document<'a, 't> = &'a [Definition<'t, DefaultScalarValue>];

const AGAIN: &str = "only one request is refused";

const REPEATED_ARGUMENTS: &str = "{ dog { name(surname: true, surname: 1) } }";

const REPEATED_OPERATIONS: &str =
    "query Q($a: Int) { complicatedArgs { intArgField(intArg: $a) } } query Q { complicatedArgs { intArgField(intArg: $a) } }";

const FRAGMENTS_THAT_MERGE: &str =
    "{ dog { ...A ...B } } fragment A on Dog { ...C } fragment B on Dog { ...C } fragment C on Dog { name }";

const SPREADS_THAT_CONFLICT: &str =
    "{ dog { ...A x: name } } fragment A on Dog { x: nickname ...B } fragment B on Dog { y: name }";

const FRAGMENTS_THAT_CONFLICT: &str =
    "{ a: someBox { ... on IntBox { deepBox { ...X } } } a: someBox { ... on StringBox { deepBox { ...Y } } } b: someBox { ...X } b: someBox { ...Y } } fragment X on SomeBox { otherField } fragment Y on SomeBox { otherField: unrelatedField }";

const FIELDS_THAT_CONFLICT: &str = "{ dog { x: name } dog { x: barks } }";

const LISTS_THAT_ARE_COMPARED: &str =
    "{ complicatedArgs { x: stringListArgField(stringListArg: [\"a\", \"b\"]) x: stringListArgField(stringListArg: [\"a\", \"c\"]) } }";

const CONFLICT_AMONG_MANY: &str =
    "{ human { relatives { b: iq } relatives { b: name } relatives { a: iq } relatives { a: iq } relatives { a: iq } relatives { a: iq } relatives { a: iq } relatives { a: iq } relatives { a: iq } relatives { a: iq } relatives { a: iq } relatives { a: iq } relatives { a: iq } relatives { a: iq } relatives { a: iq } relatives { a: iq } relatives { a: iq } relatives { a: iq } relatives { a: iq } relatives { a: iq } relatives { a: iq } relatives { a: iq } relatives { a: iq } relatives { a: iq } relatives { a: iq } relatives { a: iq } relatives { a: iq } relatives { a: iq } relatives { a: iq } relatives { a: iq } relatives { a: iq } relatives { a: iq } relatives { a: iq } relatives { a: iq } } dog { a: name } }";

// Of the 34 fields the first and the last fail. Below the first and those between names differ, which object types allow.
const CONFLICT_OF_TWO_KINDS: &str =
    "{ someBox { ... on IntBox { d: deepBox { x: deepBox { s: scalar } } } ... on StringBox { d: intBox { x: intBox { s: scalar } } d: intBox { x: intBox { s: scalar } } d: intBox { x: intBox { s: scalar } } d: intBox { x: intBox { s: scalar } } d: intBox { x: intBox { s: scalar } } d: intBox { x: intBox { s: scalar } } d: intBox { x: intBox { s: scalar } } d: intBox { x: intBox { s: scalar } } d: intBox { x: intBox { s: scalar } } d: intBox { x: intBox { s: scalar } } d: intBox { x: intBox { s: scalar } } d: intBox { x: intBox { s: scalar } } d: intBox { x: intBox { s: scalar } } d: intBox { x: intBox { s: scalar } } d: intBox { x: intBox { s: scalar } } d: intBox { x: intBox { s: scalar } } d: intBox { x: intBox { s: scalar } } d: intBox { x: intBox { s: scalar } } d: intBox { x: intBox { s: scalar } } d: intBox { x: intBox { s: scalar } } d: intBox { x: intBox { s: scalar } } d: intBox { x: intBox { s: scalar } } d: intBox { x: intBox { s: scalar } } d: intBox { x: intBox { s: scalar } } d: intBox { x: intBox { s: scalar } } d: intBox { x: intBox { s: scalar } } d: intBox { x: intBox { s: scalar } } d: intBox { x: intBox { s: scalar } } d: intBox { x: intBox { s: scalar } } d: intBox { x: intBox { s: scalar } } d: intBox { x: intBox { s: scalar } } d: intBox { x: intBox { s: scalar } } } ... on IntBox { d: intBox { y: scalar } } } }";

// Two sets of 32 fields: the first of the one fails with the last of the other. All others stand in other object types.
const CONFLICT_OF_TWO_SETS: &str =
    "{ someBox { ... on StringBox { d: intBox { x: deepBox { s: scalar } } } ... on IntBox { d: intBox { x: intBox { s: scalar } } d: intBox { x: intBox { s: scalar } } d: intBox { x: intBox { s: scalar } } d: intBox { x: intBox { s: scalar } } d: intBox { x: intBox { s: scalar } } d: intBox { x: intBox { s: scalar } } d: intBox { x: intBox { s: scalar } } d: intBox { x: intBox { s: scalar } } d: intBox { x: intBox { s: scalar } } d: intBox { x: intBox { s: scalar } } d: intBox { x: intBox { s: scalar } } d: intBox { x: intBox { s: scalar } } d: intBox { x: intBox { s: scalar } } d: intBox { x: intBox { s: scalar } } d: intBox { x: intBox { s: scalar } } d: intBox { x: intBox { s: scalar } } d: intBox { x: intBox { s: scalar } } d: intBox { x: intBox { s: scalar } } d: intBox { x: intBox { s: scalar } } d: intBox { x: intBox { s: scalar } } d: intBox { x: intBox { s: scalar } } d: intBox { x: intBox { s: scalar } } d: intBox { x: intBox { s: scalar } } d: intBox { x: intBox { s: scalar } } d: intBox { x: intBox { s: scalar } } d: intBox { x: intBox { s: scalar } } d: intBox { x: intBox { s: scalar } } d: intBox { x: intBox { s: scalar } } d: intBox { x: intBox { s: scalar } } d: intBox { x: intBox { s: scalar } } d: intBox { x: intBox { s: scalar } } } } someBox { ... on IntBox { d: intBox { x: intBox { s: scalar } } d: intBox { x: intBox { s: scalar } } d: intBox { x: intBox { s: scalar } } d: intBox { x: intBox { s: scalar } } d: intBox { x: intBox { s: scalar } } d: intBox { x: intBox { s: scalar } } d: intBox { x: intBox { s: scalar } } d: intBox { x: intBox { s: scalar } } d: intBox { x: intBox { s: scalar } } d: intBox { x: intBox { s: scalar } } d: intBox { x: intBox { s: scalar } } d: intBox { x: intBox { s: scalar } } d: intBox { x: intBox { s: scalar } } d: intBox { x: intBox { s: scalar } } d: intBox { x: intBox { s: scalar } } d: intBox { x: intBox { s: scalar } } d: intBox { x: intBox { s: scalar } } d: intBox { x: intBox { s: scalar } } d: intBox { x: intBox { s: scalar } } d: intBox { x: intBox { s: scalar } } d: intBox { x: intBox { s: scalar } } d: intBox { x: intBox { s: scalar } } d: intBox { x: intBox { s: scalar } } d: intBox { x: intBox { s: scalar } } d: intBox { x: intBox { s: scalar } } d: intBox { x: intBox { s: scalar } } d: intBox { x: intBox { s: scalar } } d: intBox { x: intBox { s: scalar } } d: intBox { x: intBox { s: scalar } } d: intBox { x: intBox { s: scalar } } d: intBox { x: intBox { s: scalar } } } ... on StringBox { d: deepBox { x: intBox { s: scalar } } } } }";

const VALUES: &str =
    "query ($c: ComplexInput!) { complicatedArgs { complexArgField(complexArg: $c) } }";

fn schema(rt: &impl Abort, alloc: Global, sample: &str) -> Schema {
    match schemas::schema(alloc, sample) {
        Ok(schema) => schema,
        Err(refused) => {
            assert_eq!(rt; refused, SchemaError::OutOfMemory);
            schemas::schema(alloc, sample).expect(rt, AGAIN)
        }
    }
}

fn document<'t>(
    rt: &impl Abort,
    alloc: Global,
    text: &'t str,
) -> Vec<Definition<'t, DefaultScalarValue>> {
    match read_document(alloc, text.as_bytes()) {
        Ok(document) => document,
        Err(refused) => {
            assert!(rt; matches!(refused, ReadError::OutOfMemory));
            read_document(alloc, text.as_bytes()).expect(rt, AGAIN)
        }
    }
}

/// What all rules report of the text is this.
fn told(rt: &impl Abort, alloc: Global, schema: &Schema, text: &str, want: &str) {
    let document = document(rt, alloc, text);
    let told = match told_by_all(alloc, schema, document.as_slice()) {
        Ok(told) => told,
        Err(_) => told_by_all(alloc, schema, document.as_slice()).expect(rt, AGAIN),
    };
    assert_eq!(rt; told.as_str(), want);
}

fn value_of_c(
    alloc: Global,
    value: InputValue<DefaultScalarValue>,
) -> Result<Variables, OutOfMemory> {
    let mut values = BTreeMap::new(alloc);
    values.insert(String::from_str(alloc, "c")?, value)?;
    Ok(values)
}

fn read_values(alloc: Global) -> Result<Variables, ReadError> {
    let value = read_value(alloc, b"{zz: 1}")?;
    Ok(value_of_c(alloc, value.item)?)
}

fn values(rt: &impl Abort, alloc: Global) -> Variables {
    match read_values(alloc) {
        Ok(values) => values,
        Err(refused) => {
            assert!(rt; matches!(refused, ReadError::OutOfMemory));
            read_values(alloc).expect(rt, AGAIN)
        }
    }
}

fn told_of_values(
    alloc: Global,
    schema: &Schema,
    document: Document<'_, '_>,
    values: &Variables,
) -> Result<String, OutOfMemory> {
    match values_after(alloc, schema, document, values)? {
        Some(errors) => lines(alloc, errors),
        None => Ok(String::from_str(alloc, "it has errors\n")?),
    }
}

/// What is said of the values is this.
fn said(rt: &impl Abort, alloc: Global, schema: &Schema, text: &str, want: &str) {
    let document = document(rt, alloc, text);
    let values = values(rt, alloc);
    let said = match told_of_values(alloc, schema, document.as_slice(), &values) {
        Ok(said) => said,
        Err(_) => told_of_values(alloc, schema, document.as_slice(), &values).expect(rt, AGAIN),
    };
    assert_eq!(rt; said.as_str(), want);
}

#[test]
fn a_refused_request_among_pets(rt: HostRuntime) {
    let schema = schema(&rt, rt.alloc(), "pets");
    told(
        &rt,
        rt.alloc(),
        &schema,
        REPEATED_ARGUMENTS,
        "There can only be one argument named \"surname\". At 0:13, 0:28\nInvalid value for argument \"surname\", reason: Invalid value \"1\" for type \"Boolean\". At 0:37\n0",
    );
    told(
        &rt,
        rt.alloc(),
        &schema,
        REPEATED_OPERATIONS,
        "There can only be one operation named Q. At 0:0, 0:65\nVariable \"$a\" is not defined by operation \"Q\". At 0:57, 0:65\nVariable \"$a\" is not defined by operation \"Q\". At 0:113, 0:65\n0",
    );
    told(&rt, rt.alloc(), &schema, FRAGMENTS_THAT_MERGE, "3");
    told(
        &rt,
        rt.alloc(),
        &schema,
        SPREADS_THAT_CONFLICT,
        "Fields \"x\" conflict because name and nickname are different fields. Use different aliases on the fields to fetch both if this was intentional. At 0:13, 0:45\n0",
    );
    told(
        &rt,
        rt.alloc(),
        &schema,
        FIELDS_THAT_CONFLICT,
        "Fields \"dog\" conflict because subfields \"x\" conflict because name and barks are different fields. Use different aliases on the fields to fetch both if this was intentional. At 0:2, 0:8, 0:18, 0:24\n0",
    );
    told(
        &rt,
        rt.alloc(),
        &schema,
        LISTS_THAT_ARE_COMPARED,
        "Fields \"x\" conflict because they have differing arguments. Use different aliases on the fields to fetch both if this was intentional. At 0:20, 0:69\n0",
    );
    said(
        &rt,
        rt.alloc(),
        &schema,
        VALUES,
        "Variable \"$c\" got invalid value. In field \"requiredField\": Expected \"Boolean!\", found null.. At 0:7\nVariable \"$c\" got invalid value. In field \"zz\": Unknown field.. At 0:7\n",
    );
}

#[test]
fn a_refused_request_among_boxes(rt: HostRuntime) {
    let schema = schema(&rt, rt.alloc(), "boxes");
    told(
        &rt,
        rt.alloc(),
        &schema,
        FRAGMENTS_THAT_CONFLICT,
        "Fields \"b\" conflict because subfields \"otherField\" conflict because otherField and unrelatedField are different fields. Use different aliases on the fields to fetch both if this was intentional. At 0:105, 0:171, 0:125, 0:208\n2",
    );
}

#[test]
fn a_refused_request_among_two_kinds(rt: HostRuntime) {
    let schema = schema(&rt, rt.alloc(), "boxes");
    told(
        &rt,
        rt.alloc(),
        &schema,
        CONFLICT_OF_TWO_KINDS,
        "Fields \"d\" conflict because deepBox and intBox are different fields. Use different aliases on the fields to fetch both if this was intentional. At 0:28, 0:1323\n0",
    );
}

#[test]
fn a_refused_request_among_the_fields_of_two_sets(rt: HostRuntime) {
    let schema = schema(&rt, rt.alloc(), "boxes");
    told(
        &rt,
        rt.alloc(),
        &schema,
        CONFLICT_OF_TWO_SETS,
        "Fields \"someBox\" conflict because subfields \"d\" conflict because intBox and deepBox are different fields. Use different aliases on the fields to fetch both if this was intentional. At 0:2, 0:31, 0:1270, 0:2495\n0",
    );
}

#[test]
fn a_refused_request_among_many_fields(rt: HostRuntime) {
    let schema = schema(&rt, rt.alloc(), "pets");
    told(
        &rt,
        rt.alloc(),
        &schema,
        CONFLICT_AMONG_MANY,
        "Fields \"relatives\" conflict because subfields \"b\" conflict because iq and name are different fields. Use different aliases on the fields to fetch both if this was intentional. At 0:10, 0:22, 0:30, 0:42\n0",
    );
}
