//! Files in memory, and a writer that fails.
ghost use Rattle.lint_files.specs.Host.{unknown_host};

use lint_app::program::run;
use lint_files::colours::Colours;
use lint_files::files::Inputs;
use std::alloc::{AllocError, Global};
use std::io::{self, Write};

// A schema as type definitions.
const KENNEL: &str = "type Query {
  dog(name: String!): Dog
  pets(like: Taste, size: Size = SMALL): [Pet!]!
}

interface Named {
  name: String!
}

type Dog implements Named {
  name: String!
  barks: Boolean
}

type Cat implements Named {
  name: String!
  lives: Int
}

union Pet = Dog | Cat

enum Size {
  SMALL
  BIG
}

input Taste {
  food: [String!] = [\"bone\"]
}

directive @near(place: String) on FIELD
";

// The same schema as the result of an introspection query.
const KENNEL_RESULT: &str =
    r#"{"data":{"__schema":{"queryType":{"name":"Query"},"types":[{"kind":"OBJECT","name":"Query","interfaces":[],"fields":[{"name":"dog","args":[{"name":"name","type":{"kind":"NON_NULL","ofType":{"kind":"SCALAR","name":"String"}},"defaultValue":null}],"type":{"kind":"OBJECT","name":"Dog"},"isDeprecated":false},{"name":"pets","args":[{"name":"like","type":{"kind":"INPUT_OBJECT","name":"Taste"},"defaultValue":null},{"name":"size","type":{"kind":"ENUM","name":"Size"},"defaultValue":"SMALL"}],"type":{"kind":"NON_NULL","ofType":{"kind":"LIST","ofType":{"kind":"NON_NULL","ofType":{"kind":"UNION","name":"Pet"}}}},"isDeprecated":false}]},{"kind":"INTERFACE","name":"Named","interfaces":[],"fields":[{"name":"name","args":[],"type":{"kind":"NON_NULL","ofType":{"kind":"SCALAR","name":"String"}},"isDeprecated":false}]},{"kind":"OBJECT","name":"Dog","interfaces":[{"name":"Named"}],"fields":[{"name":"name","args":[],"type":{"kind":"NON_NULL","ofType":{"kind":"SCALAR","name":"String"}},"isDeprecated":false},{"name":"barks","args":[],"type":{"kind":"SCALAR","name":"Boolean"},"isDeprecated":false}]},{"kind":"OBJECT","name":"Cat","interfaces":[{"name":"Named"}],"fields":[{"name":"name","args":[],"type":{"kind":"NON_NULL","ofType":{"kind":"SCALAR","name":"String"}},"isDeprecated":false},{"name":"lives","args":[],"type":{"kind":"SCALAR","name":"Int"},"isDeprecated":false}]},{"kind":"UNION","name":"Pet","possibleTypes":[{"name":"Dog"},{"name":"Cat"}]},{"kind":"ENUM","name":"Size","enumValues":[{"name":"SMALL","isDeprecated":false},{"name":"BIG","isDeprecated":false}]},{"kind":"INPUT_OBJECT","name":"Taste","inputFields":[{"name":"food","type":{"kind":"LIST","ofType":{"kind":"NON_NULL","ofType":{"kind":"SCALAR","name":"String"}}},"defaultValue":"[\"bone\"]"}]},{"kind":"SCALAR","name":"String"},{"kind":"SCALAR","name":"Boolean"},{"kind":"SCALAR","name":"Int"}],"directives":[{"name":"near","args":[{"name":"place","type":{"kind":"SCALAR","name":"String"},"defaultValue":null}],"locations":["FIELD"]}]}}}"#;

// An introspection result with a default value of another type.
const FAULTY_RESULT: &str =
    r#"{"data":{"__schema":{"queryType":{"name":"Query"},"types":[{"kind":"OBJECT","name":"Query","interfaces":[],"fields":[{"name":"a","args":[{"name":"x","type":{"kind":"SCALAR","name":"Int"},"defaultValue":"\"one\""}],"type":{"kind":"SCALAR","name":"Int"},"isDeprecated":false}]},{"kind":"SCALAR","name":"Int"}],"directives":[]}}}"#;

const FILES: &[(&str, &str)] = &[
    ("shop.graphql", "type Query {\n  item(id: ID!): Item\n}\n"),
    (
        "item.graphql",
        "type Item {\n  name: String\n  price(in: Unit! = EUR): Float\n}\n\nenum Unit {\n  EUR\n}\n",
    ),
    (
        "good.graphql",
        "query Good($id: ID!) {\n  item(id: $id) {\n    name\n  }\n}\n",
    ),
    ("bad.graphql", "{\n\titem(id: 1) {\n\t\tnme\n\t}\n}\n"),
    (
        "asks.graphql",
        "{\n  __schema {\n    queryType {\n      name\n    }\n  }\n}\n",
    ),
    ("use.graphql", "{\n  item(id: 1) {\n    ...Names\n  }\n}\n"),
    ("names.graphql", "fragment Names on Item {\n  name\n}\n"),
    ("cut.graphql", "{ item(id: 1) {\n"),
    (
        "default.graphql",
        "query ($id: ID! = \"7\") { item(id: $id) { name } }\n",
    ),
    ("empty.graphql", "\n"),
    ("kennel.graphql", KENNEL),
    ("kennel.json", KENNEL_RESULT),
    (
        "walk.graphql",
        "query Walk($size: Size) {\n  dog { barks }\n  pets(size: HUGE) {\n    name\n    ... on Dog { lives }\n  }\n}\n",
    ),
    (
        "far.graphql",
        "{\n  pets(like: {fod: []}) @far {\n    ... on Cat { lives }\n  }\n  dog(name: \"Rex\") @near {\n    name { first }\n  }\n}\n",
    ),
    (
        "client.graphql",
        "directive @far on FIELD\n\nextend type Dog {\n  lives: Int\n}\n",
    ),
    (
        "wrong.graphql",
        "extend type Dgo {\n  lives: Int\n}\n\nextend type Dog {\n  fur: Fur\n  name: String\n}\n",
    ),
    (
        "own.graphql",
        "{\n  dog(name: \"Rex\") @far {\n    lives\n  }\n}\n",
    ),
    (
        "faulty.graphql",
        "type Query implements Thing {\n  item(id: ID!, in: Unit = USD): Item\n}\n\ninterface Thing {\n  name: String\n}\n",
    ),
    (
        "more.graphql",
        "extend type Item {\n  __own(as: Unit! = EUR @deprecated): Float\n}\n",
    ),
    ("faulty.json", FAULTY_RESULT),
    ("values.json", "{\"id\": \"7\"}"),
    ("null.json", "{\"id\": null}"),
    ("-", "{ item(id: 1) { name } }"),
    ("team/a.graphql", "{ item(id: 1) { nme } }\n"),
    ("team/b/c.gql", "{ item(id: 1) { nam } }\n"),
    ("team/b/d.graphql", "{ item(id: 1) { name } }\n"),
];

// Directories, and what is listed of each.
const FOLDERS: &[(&str, &[&str])] = &[
    (
        "team",
        &["team/b/d.graphql", "team/b/c.gql", "team/a.graphql"],
    ),
    ("shop", &["item.graphql", "shop.graphql"]),
    ("part", &["part/closed", "good.graphql"]),
    ("empty", &[]),
];

/// No stream shows colours.
pub const PLAIN: Colours = Colours {
    output: false,
    errors: false,
};

/// Files in memory, of which one can't be read.
#[derive(Clone, Copy, Debug)]
pub struct Memory<'b> {
    pub broken: &'b str,
    pub colours: Colours,
}

impl Inputs for Memory<'_> {
    ghost host = { λ m. unknown_host m.colours };

    fn read(&self, alloc: Global, path: &str) -> io::Result<Vec<u8>> {
        if path == self.broken {
            return Err(io::Error::from(io::ErrorKind::PermissionDenied));
        }
        for (name, text) in FILES {
            if *name == path {
                let bytes = Vec::from_slice(alloc, text.as_bytes())?;
                return Ok(bytes);
            }
        }
        if FOLDERS.iter().any(|folder| folder.0 == path) {
            return Err(io::Error::from(io::ErrorKind::IsADirectory));
        }
        Err(io::Error::from(io::ErrorKind::NotFound))
    }

    fn list(&self, alloc: Global, path: &str) -> Result<Option<Vec<String>>, AllocError> {
        for (folder, names) in FOLDERS {
            if *folder == path {
                return Ok(Some(texts_of(alloc, names)?));
            }
        }
        Ok(None)
    }

    fn colours(&self) -> Colours {
        self.colours
    }
}

fn texts_of(alloc: Global, names: &[&str]) -> Result<Vec<String>, AllocError> {
    let mut texts = Vec::new(alloc);
    for name in names {
        texts.push(String::from_str(alloc, name)?)?;
    }
    Ok(texts)
}

/// Takes `left` bytes, one at a time, and then fails, also at a flush. Every other write is interrupted.
#[derive(Drop)]
pub struct BrokenWriter {
    pub left: usize,
    pub taken: Vec<u8>,
    pub is_interrupted: bool,
}

impl BrokenWriter {
    /// One that has taken nothing yet.
    pub fn new(alloc: Global, left: usize) -> BrokenWriter {
        BrokenWriter {
            left,
            taken: Vec::new(alloc),
            is_interrupted: false,
        }
    }
}

impl Write for BrokenWriter {
    fn write(&mut self, buf: &[u8]) -> io::Result<usize> {
        self.is_interrupted = !self.is_interrupted;
        if self.is_interrupted {
            return Err(io::Error::from(io::ErrorKind::Interrupted));
        }
        let (Some(first), true) = (buf.first(), self.left > 0) else {
            return Err(io::Error::from(io::ErrorKind::StorageFull));
        };
        self.taken.push(*first)?;
        self.left -= 1;
        Ok(1)
    }

    fn flush(&mut self) -> io::Result<()> {
        if self.left == 0 {
            return Err(io::Error::from(io::ErrorKind::StorageFull));
        }
        Ok(())
    }
}

/// The words of a command line, with the program's own name before them.
pub fn words_of(alloc: Global, line: &str) -> Result<Vec<String>, AllocError> {
    let mut words = Vec::new(alloc);
    words.push(String::from_str(alloc, "lint")?)?;
    for word in line.split_whitespace() {
        words.push(String::from_str(alloc, word)?)?;
    }
    Ok(words)
}

/// The result of a run.
#[derive(Debug, Drop)]
pub struct Run {
    pub status: u8,
    pub output: Vec<u8>,
    pub errors: Vec<u8>,
}

impl Run {
    /// Whether it ended so.
    pub fn is(&self, status: u8, output: &str, errors: &str) -> bool {
        self.status == status
            && self.output.as_slice() == output.as_bytes()
            && self.errors.as_slice() == errors.as_bytes()
    }
}

/// A run with these arguments, where one file can't be read.
pub fn run_broken(alloc: Global, line: &str, broken: &str) -> Result<Run, AllocError> {
    let files = Memory {
        broken,
        colours: PLAIN,
    };
    run_over(alloc, line, &files)
}

/// A run with these arguments over these files.
pub fn run_over(alloc: Global, line: &str, files: &Memory<'_>) -> Result<Run, AllocError> {
    let words = words_of(alloc, line)?;
    let mut output = Vec::new(alloc);
    let mut errors = Vec::new(alloc);
    let status = run(alloc, words.as_slice(), files, &mut output, &mut errors);
    Ok(Run {
        status,
        output,
        errors,
    })
}
