//! Runs over files in memory.
use crate::fakes::{Memory, run_broken, run_over};
use lint_files::colours::Colours;
use std::alloc::Global;
use std::process::Abort;

// The errors of two documents. A schema has one meaning, as type definitions and as an introspection result.
const KENNEL_ERRORS: &str =
    "walk.graphql:1:12: error: Variable \"$size\" is not used by operation \"Walk\"
query Walk($size: Size) {
           ^
walk.graphql:2:3: error: Field \"dog\" argument \"name\" of type \"String!\" is required but not provided
  dog { barks }
  ^
walk.graphql:3:14: error: Invalid value for argument \"size\", reason: Invalid value \"HUGE\" for type \"Size\"
  pets(size: HUGE) {
             ^
walk.graphql:4:5: error: Unknown field \"name\" on type \"Pet\"
    name
    ^
walk.graphql:5:18: error: Unknown field \"lives\" on type \"Dog\"
    ... on Dog { lives }
                 ^
far.graphql:2:14: error: Invalid value for argument \"like\", reason: Field \"fod\" does not exist on type \"Taste\"
  pets(like: {fod: []}) @far {
             ^
far.graphql:2:25: error: Unknown directive \"far\"
  pets(like: {fod: []}) @far {
                        ^
far.graphql:6:5: error: Field \"name\" must not have a selection since type String! has no subfields
    name { first }
    ^
8 errors in 2 of 2 files
";

// A file that can't be read, one that is no document, and one with an error.
const FAULTS_JSON: &str = "[
  {
    \"path\": \"absent.graphql\",
    \"message\": \"entity not found\",
    \"locations\": []
  },
  {
    \"path\": \"empty.graphql\",
    \"message\": \"expected an operation or a fragment, found the end of the text\",
    \"locations\": [
      {
        \"line\": 2,
        \"column\": 1
      }
    ]
  },
  {
    \"path\": \"bad.graphql\",
    \"message\": \"Unknown field \\\"nme\\\" on type \\\"Item\\\"\",
    \"locations\": [
      {
        \"line\": 3,
        \"column\": 3
      }
    ]
  }
]
";

const FAULTS_GITHUB: &str = "::error file=absent.graphql::entity not found
::error file=empty.graphql,line=2,col=1::expected an operation or a fragment, found the end of the text
::error file=bad.graphql,line=3,col=3::Unknown field \"nme\" on type \"Item\"
";

// A directory stands for its files in ascending order, and a file that is named again is judged once.
const TEAM_ERRORS: &str = "team/a.graphql:1:17: error: Unknown field \"nme\" on type \"Item\"
{ item(id: 1) { nme } }
                ^
team/b/c.gql:1:17: error: Unknown field \"nam\" on type \"Item\"
{ item(id: 1) { nam } }
                ^
2 errors in 2 of 4 files
";

const TEAM_GITHUB: &str =
    "::error file=empty::no .graphql or .gql files, or the directory can't be listed
::error file=team/a.graphql,line=1,col=17::Unknown field \"nme\" on type \"Item\"
::error file=team/b/c.gql,line=1,col=17::Unknown field \"nam\" on type \"Item\"
";

// Arguments, the exit status, the output, and the errors.
const RUNS: &[(&str, u8, &str, &str)] = &[
    (
        "--schema shop.graphql --schema item.graphql good.graphql",
        0,
        "no errors in 1 file\n",
        "",
    ),
    (
        "--schema shop.graphql --schema item.graphql good.graphql bad.graphql",
        1,
        "bad.graphql:3:3: error: Unknown field \"nme\" on type \"Item\"\n\t\tnme\n\t\t^\n1 error in 1 of 2 files\n",
        "",
    ),
    (
        "--schema shop.graphql --schema item.graphql --format json bad.graphql",
        1,
        "[\n  {\n    \"path\": \"bad.graphql\",\n    \"message\": \"Unknown field \\\"nme\\\" on type \\\"Item\\\"\",\n    \"locations\": [\n      {\n        \"line\": 3,\n        \"column\": 3\n      }\n    ]\n  }\n]\n",
        "",
    ),
    (
        "--schema shop.graphql --schema item.graphql --format json good.graphql",
        0,
        "[]\n",
        "",
    ),
    (
        "--schema shop.graphql --schema item.graphql asks.graphql",
        0,
        "no errors in 1 file\n",
        "",
    ),
    (
        "--schema shop.graphql --schema item.graphql --together use.graphql names.graphql",
        0,
        "no errors in 2 files\n",
        "",
    ),
    (
        "--schema shop.graphql --schema item.graphql --variables values.json good.graphql",
        0,
        "no errors in 1 file\n",
        "",
    ),
    (
        "--schema shop.graphql --schema item.graphql -",
        0,
        "no errors in 1 file\n",
        "",
    ),
    (
        "--schema - --schema item.graphql -",
        2,
        "",
        "lint: error: the standard input can be named only once\n",
    ),
    (
        "--schema kennel.graphql walk.graphql far.graphql",
        1,
        KENNEL_ERRORS,
        "",
    ),
    (
        "--schema kennel.json walk.graphql far.graphql",
        1,
        KENNEL_ERRORS,
        "",
    ),
    (
        "--schema shop.graphql --schema item.graphql bad.graphql absent.graphql",
        2,
        "bad.graphql:3:3: error: Unknown field \"nme\" on type \"Item\"\n\t\tnme\n\t\t^\n1 error in 1 of 1 file, 1 file not checked\n",
        "absent.graphql: error: entity not found\n",
    ),
    (
        "--schema shop.graphql --schema item.graphql --format json empty.graphql bad.graphql absent.graphql",
        2,
        FAULTS_JSON,
        "",
    ),
    (
        "--schema shop.graphql --schema item.graphql --format github empty.graphql bad.graphql absent.graphql",
        2,
        FAULTS_GITHUB,
        "",
    ),
    (
        "--schema shop.graphql --schema item.graphql --format github bad.graphql",
        1,
        "::error file=bad.graphql,line=3,col=3::Unknown field \"nme\" on type \"Item\"\n",
        "",
    ),
    (
        "--schema shop.graphql --schema item.graphql --format github good.graphql",
        0,
        "",
        "",
    ),
    (
        "--schema absent.graphql --format github good.graphql",
        2,
        "::error file=absent.graphql::entity not found\n",
        "",
    ),
    (
        "--schema absent.graphql good.graphql",
        2,
        "",
        "absent.graphql: error: entity not found\n",
    ),
    (
        "--schema shop.graphql --schema item.graphql --schema item.graphql bad.graphql good.graphql bad.graphql",
        1,
        "bad.graphql:3:3: error: Unknown field \"nme\" on type \"Item\"\n\t\tnme\n\t\t^\n1 error in 1 of 2 files\n",
        "",
    ),
    (
        "--schema shop team good.graphql team/a.graphql",
        1,
        TEAM_ERRORS,
        "",
    ),
    (
        "--schema shop --format github team/a.graphql team empty",
        2,
        TEAM_GITHUB,
        "",
    ),
    (
        "--schema shop empty part",
        2,
        "no errors in 1 file, 2 files not checked\n",
        "empty: error: no .graphql or .gql files, or the directory can't be listed\npart/closed: error: entity not found\n",
    ),
    (
        "--schema empty good.graphql",
        2,
        "",
        "empty: error: no .graphql or .gql files, or the directory can't be listed\n",
    ),
    (
        "--schema shop.graphql --schema item.graphql --max-depth 2 good.graphql asks.graphql",
        2,
        "no errors in 1 file, 1 file not checked\n",
        "asks.graphql:3:15: error: nested more than 2 levels deep\n    queryType {\n              ^\n",
    ),
    (
        "--schema shop.graphql --schema item.graphql --max-depth 3 good.graphql asks.graphql",
        0,
        "no errors in 2 files\n",
        "",
    ),
    (
        "--schema shop.graphql --schema item.graphql default.graphql",
        0,
        "no errors in 1 file\n",
        "",
    ),
    (
        "--schema shop.graphql --schema item.graphql --max-errors 1 bad.graphql good.graphql",
        1,
        "bad.graphql:3:3: error: Unknown field \"nme\" on type \"Item\"\n\t\tnme\n\t\t^\nbad.graphql: error: There may be more errors: --max-errors is 1\n2 errors in 1 of 2 files\n",
        "",
    ),
    (
        "--schema shop.graphql --schema item.graphql --max-errors 2 bad.graphql",
        1,
        "bad.graphql:3:3: error: Unknown field \"nme\" on type \"Item\"\n\t\tnme\n\t\t^\n1 error in 1 of 1 file\n",
        "",
    ),
    (
        "--schema shop.graphql --schema item.graphql --max-errors 0 bad.graphql",
        1,
        "bad.graphql:3:3: error: Unknown field \"nme\" on type \"Item\"\n\t\tnme\n\t\t^\n1 error in 1 of 1 file\n",
        "",
    ),
    (
        "--schema shop.graphql --schema item.graphql --dialect juniper default.graphql",
        1,
        "default.graphql:1:19: error: Argument \"id\" has type \"ID!\" and is not nullable, so it can't have a default value\nquery ($id: ID! = \"7\") { item(id: $id) { name } }\n                  ^\n1 error in 1 of 1 file\n",
        "",
    ),
    ("--version", 0, "lint 0.1.0\n", ""),
    ("-V", 0, "lint 0.1.0\n", ""),
];

// The faults of a schema over two files.
const SCHEMA_JSON: &str = "[
  {
    \"path\": \"shop.graphql\",
    \"message\": \"the type \\\"Item\\\" is not defined\",
    \"locations\": [
      {
        \"line\": 2,
        \"column\": 18
      }
    ]
  },
  {
    \"path\": \"wrong.graphql\",
    \"message\": \"the type \\\"Dgo\\\" is extended but not defined\",
    \"locations\": [
      {
        \"line\": 1,
        \"column\": 13
      }
    ]
  },
  {
    \"path\": \"wrong.graphql\",
    \"message\": \"the type \\\"Dog\\\" is extended but not defined\",
    \"locations\": [
      {
        \"line\": 5,
        \"column\": 13
      }
    ]
  },
  {
    \"path\": \"wrong.graphql\",
    \"message\": \"the type \\\"Fur\\\" is not defined\",
    \"locations\": [
      {
        \"line\": 6,
        \"column\": 8
      }
    ]
  }
]
";

const SCHEMA_GITHUB: &str =
    "::error file=shop.graphql,line=2,col=18::the type \"Item\" is not defined
::error file=wrong.graphql,line=1,col=13::the type \"Dgo\" is extended but not defined
::error file=wrong.graphql,line=5,col=13::the type \"Dog\" is extended but not defined
::error file=wrong.graphql,line=6,col=8::the type \"Fur\" is not defined
";

// The faults of a type system over three files.
const FAULTY_SCHEMA: &str =
    "faulty.graphql:1:6: error: Interface field Thing.name expected but Query does not provide it
type Query implements Thing {
     ^
faulty.graphql:2:17: error: Invalid default value of Query.item(in:), reason: Invalid value \"USD\" for type \"Unit\"
  item(id: ID!, in: Unit = USD): Item
                ^
more.graphql:2:3: error: Name \"__own\" must not begin with \"__\", which is reserved by introspection
  __own(as: Unit! = EUR @deprecated): Float
  ^
";

// Why the definitions of three files make no schema, and what else is wrong with them.
const TOUCHED_SCHEMA: &str =
    "wrong.graphql:1:13: error: the type \"Dgo\" is extended but not defined
extend type Dgo {
            ^
wrong.graphql:5:13: error: the type \"Dog\" is extended but not defined
extend type Dog {
            ^
wrong.graphql:6:8: error: the type \"Fur\" is not defined
  fur: Fur
       ^
faulty.graphql:1:6: error: Interface field Thing.name expected but Query does not provide it
type Query implements Thing {
     ^
faulty.graphql:2:17: error: Invalid default value of Query.item(in:), reason: Invalid value \"USD\" for type \"Unit\"
  item(id: ID!, in: Unit = USD): Item
                ^
";

// Schemas of several files, in the same form.
const SCHEMAS: &[(&str, u8, &str, &str)] = &[
    (
        "--schema kennel.json --schema client.graphql own.graphql",
        0,
        "no errors in 1 file\n",
        "",
    ),
    (
        "--schema client.graphql --schema kennel.json own.graphql",
        0,
        "no errors in 1 file\n",
        "",
    ),
    (
        "--schema client.graphql --schema kennel.graphql own.graphql",
        0,
        "no errors in 1 file\n",
        "",
    ),
    (
        "--schema kennel.json --schema wrong.graphql own.graphql",
        2,
        "",
        "wrong.graphql:1:13: error: the type \"Dgo\" is extended but not defined
extend type Dgo {
            ^
wrong.graphql:6:8: error: the type \"Fur\" is not defined
  fur: Fur
       ^
wrong.graphql:7:3: error: the field \"name\" is defined twice
  name: String
  ^
",
    ),
    (
        "--schema shop.graphql --schema kennel.json own.graphql",
        2,
        "",
        "shop.graphql:2:18: error: the type \"Item\" is not defined
  item(id: ID!): Item
                 ^
kennel.json: error: the type \"Query\" is defined twice
",
    ),
    (
        "--schema kennel.graphql --schema shop.graphql own.graphql",
        2,
        "",
        "shop.graphql:1:6: error: the type \"Query\" is defined twice
type Query {
     ^
shop.graphql:2:18: error: the type \"Item\" is not defined
  item(id: ID!): Item
                 ^
",
    ),
    (
        "--schema kennel.json --schema null.json own.graphql",
        2,
        "",
        "null.json: error: __schema: missing\n",
    ),
    (
        "--schema absent.graphql --schema names.graphql --schema null.json --schema good.graphql own.graphql",
        2,
        "",
        "absent.graphql: error: entity not found
names.graphql:1:1: error: expected a definition of a schema, a type or a directive, found \"fragment\"
fragment Names on Item {
^
null.json: error: __schema: missing
good.graphql:1:1: error: expected a definition of a schema, a type or a directive, found \"query\"
query Good($id: ID!) {
^
",
    ),
    (
        "--schema shop.graphql --schema wrong.graphql --format json own.graphql",
        2,
        SCHEMA_JSON,
        "",
    ),
    (
        "--schema shop.graphql --schema wrong.graphql --format github own.graphql",
        2,
        SCHEMA_GITHUB,
        "",
    ),
    (
        "--schema faulty.graphql --schema item.graphql --schema more.graphql good.graphql",
        2,
        "",
        FAULTY_SCHEMA,
    ),
    (
        "--schema wrong.graphql --schema faulty.graphql --schema item.graphql good.graphql",
        2,
        "",
        TOUCHED_SCHEMA,
    ),
    (
        "--schema more.graphql --schema shop.graphql --schema item.graphql --format github",
        2,
        "::error file=more.graphql,line=2,col=3::Name \"__own\" must not begin with \"__\", which is reserved by introspection\n",
        "",
    ),
    (
        "--schema faulty.json good.graphql",
        2,
        "",
        "faulty.json: error: Invalid default value of Query.a(x:), reason: Invalid value \"\"one\"\" for type \"Int\"\n",
    ),
    (
        "--schema shop.graphql --schema item.graphql",
        0,
        "no errors in the schema\n",
        "",
    ),
    (
        "--schema kennel.json --together",
        0,
        "no errors in the schema\n",
        "",
    ),
    ("--schema kennel.graphql --format json", 0, "[]\n", ""),
];

// Arguments and exit statuses: errors whose texts are tested elsewhere, and faults.
const STATUSES: &[(&str, u8)] = &[
    (
        "--schema shop.graphql --schema item.graphql --no-introspection asks.graphql",
        1,
    ),
    (
        "--schema shop.graphql --schema item.graphql use.graphql names.graphql",
        1,
    ),
    (
        "--schema shop.graphql --schema item.graphql --variables null.json good.graphql",
        1,
    ),
    ("--schema shop.graphql --schema item.graphql cut.graphql", 2),
    ("--schema shop.graphql good.graphql", 2),
    (
        "--schema shop.graphql --schema item.graphql --variables good.graphql good.graphql",
        2,
    ),
    (
        "--schema shop.graphql --schema item.graphql --max-depth 1 --together use.graphql names.graphql",
        2,
    ),
    (
        "--schema shop.graphql --schema item.graphql --max-depth deep good.graphql",
        2,
    ),
    (
        "--schema shop.graphql --schema item.graphql --max-depth -1 good.graphql",
        2,
    ),
    (
        "--schema shop.graphql --schema item.graphql --dialect 2021 good.graphql",
        2,
    ),
    ("--help", 0),
    ("-h", 0),
    ("--schema shop.graphql", 2),
    ("--format xml", 2),
    ("", 2),
];

/// Each run ends with its status, its output and its errors.
fn each_ends(rt: &impl Abort, alloc: Global, runs: &[(&str, u8, &str, &str)]) {
    for (line, status, output, errors) in runs {
        let run = run_broken(alloc, line, "").expect(rt, "memory");
        if !run.is(*status, output, errors) {
            rt.panic(*line);
        }
    }
}

#[test]
fn reads_schemas_of_several_files(rt: HostRuntime) {
    each_ends(&rt, rt.alloc(), SCHEMAS);
}

#[test]
fn runs(rt: HostRuntime) {
    each_ends(&rt, rt.alloc(), RUNS);
}

// The streams that show colours, and both with them.
const COLOURED: &[(Colours, &str, &str)] = &[
    (
        Colours {
            output: true,
            errors: false,
        },
        "\x1b[1mteam/a.graphql\x1b[0m:1:17: \x1b[1;31merror:\x1b[0m Unknown field \"nme\" on type \"Item\"\n{ item(id: 1) { nme } }\n                \x1b[1;31m^\x1b[0m\n1 error in 1 of 1 file, 1 file not checked\n",
        "absent: error: entity not found\n",
    ),
    (
        Colours {
            output: false,
            errors: true,
        },
        "team/a.graphql:1:17: error: Unknown field \"nme\" on type \"Item\"\n{ item(id: 1) { nme } }\n                ^\n1 error in 1 of 1 file, 1 file not checked\n",
        "\x1b[1mabsent\x1b[0m: \x1b[1;31merror:\x1b[0m entity not found\n",
    ),
];

#[test]
fn each_stream_has_its_colours(rt: HostRuntime) {
    for (colours, output, errors) in COLOURED {
        let files = Memory {
            broken: "",
            colours: *colours,
        };
        let run = run_over(rt.alloc(), "--schema shop team/a.graphql absent", &files).expect(
            &rt, "memory",
        );
        assert!(rt; run.is(2, output, errors));
    }
}

/// A run that ends with 0 or 1 writes nothing to the errors, and one that ends with 2 and tells in text writes why.
#[test]
fn statuses(rt: HostRuntime) {
    for (line, status) in STATUSES {
        let run = run_broken(rt.alloc(), line, "").expect(&rt, "memory");
        if run.status != *status || run.errors.is_empty() != (*status < 2) {
            rt.panic(*line);
        }
    }
}
