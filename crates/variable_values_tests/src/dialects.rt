//! Values that are judged otherwise in October 2021 than in juniper: a value, and what is said of it.

use crate::customs::schema;
use crate::given::values;
use crate::operations::says;
use sample_reader::read_document;
use schema::model::Dialect;
use std::alloc::Global;
use std::process::Abort;

const JSON: &str = "query ($c: JSON) { any(v: $c) }";

const MAP: &str = "query ($c: Map) { map(v: $c) }";

const OBJECT: &str = "query ($c: O) { obj(o: $c) }";

const DEFAULT: &str = "query ($c: Int! = 3) { __typename }";

/// A text and a value of its variable, if any.
const GIVEN: [(&str, &str); 13] = [
    (JSON, "{a: [1, \"x\", {b: null}]}"),
    (JSON, "[{}, 1]"),
    (JSON, "1"),
    (MAP, "{a: 1}"),
    (MAP, "[1]"),
    (OBJECT, "{b: 1}"),
    (OBJECT, "{a: null, b: 1}"),
    (OBJECT, "{}"),
    (OBJECT, "{b: 1, c: [{b: 2}, {a: 1}]}"),
    (DEFAULT, ""),
    (DEFAULT, "null"),
    (DEFAULT, "4"),
    ("query ($c: Int!) { __typename }", ""),
];

/// What is said of each in October 2021.
const SPECIFIED: [&str; 13] = [
    "",
    "",
    "",
    "",
    "Variable \"$c\" got invalid value. Expected input scalar `Map`. Got: `[1]`. Details: not a value of ComplexInput.. At 0:7\n",
    "",
    "Variable \"$c\" got invalid value. In field \"a\": Expected \"Int!\", found null.. At 0:7\n",
    "Variable \"$c\" got invalid value. In field \"b\": Expected \"Int!\", found null.. At 0:7\n",
    "Variable \"$c\" got invalid value. In field \"c\": In element #1: In field \"b\": Expected \"Int!\", found null.. At 0:7\n",
    "",
    "Variable \"$c\" of required type \"Int!\" was not provided.. At 0:7\n",
    "",
    "Variable \"$c\" of required type \"Int!\" was not provided.. At 0:7\n",
];

/// And in juniper.
const OF_JUNIPER: [&str; 13] = [
    "Variable \"$c\" got invalid value. Expected \"JSON\", found object.. At 0:7\n",
    "Variable \"$c\" got invalid value. Expected \"JSON\", found list.. At 0:7\n",
    "",
    "Variable \"$c\" got invalid value. Expected \"Map\", found object.. At 0:7\n",
    "Variable \"$c\" got invalid value. Expected input scalar `Map`. Got: `[1]`. Details: not a value of ComplexInput.. At 0:7\n",
    "Variable \"$c\" got invalid value. In field \"a\": Expected \"Int!\", found null.. At 0:7\n",
    "Variable \"$c\" got invalid value. In field \"a\": Expected \"Int!\", found null.. At 0:7\n",
    "Variable \"$c\" got invalid value. In field \"a\": Expected \"Int!\", found null.. At 0:7\nVariable \"$c\" got invalid value. In field \"b\": Expected \"Int!\", found null.. At 0:7\n",
    "Variable \"$c\" got invalid value. In field \"a\": Expected \"Int!\", found null.. At 0:7\nVariable \"$c\" got invalid value. In field \"c\": In element #0: In field \"a\": Expected \"Int!\", found null.. At 0:7\nVariable \"$c\" got invalid value. In field \"c\": In element #1: In field \"b\": Expected \"Int!\", found null.. At 0:7\n",
    "Variable \"$c\" of required type \"Int!\" was not provided.. At 0:7\n",
    "Variable \"$c\" of required type \"Int!\" was not provided.. At 0:7\n",
    "",
    "Variable \"$c\" of required type \"Int!\" was not provided.. At 0:7\n",
];

/// In this dialect each is told the line of its number.
fn each_is_told(rt: &impl Abort, alloc: Global, dialect: Dialect, wanted: &[&str]) {
    let mut schema = schema(alloc).expect(rt, "the list is accepted");
    schema.set_dialect(dialect);
    for ((text, value), want) in GIVEN.iter().zip(wanted) {
        let document = read_document(alloc, text.as_bytes()).expect(rt, "it is a document");
        let values = values(alloc, *value).expect(rt, "a value");
        says(rt, alloc, &schema, &values, document.as_slice(), *want);
    }
}

#[test]
fn october_2021(rt: HostRuntime) {
    each_is_told(&rt, rt.alloc(), Dialect::October2021, &SPECIFIED);
}

#[test]
fn juniper(rt: HostRuntime) {
    each_is_told(&rt, rt.alloc(), Dialect::Juniper, &OF_JUNIPER);
}
