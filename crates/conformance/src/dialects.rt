//! What is said of documents by each dialect, against schemas that are read from texts.
use graphql_reader::read_document;
use sdl_reader::read_schema;
use std::alloc::{AllocError, Global};
use validation::{Dialect, RootNode};

/// The schema of the documents by section.
const LIBRARY: &str = "
scalar JSON
scalar Date
enum Genre { NOVEL POEM }
interface Titled { title: String! }
interface Lendable { due(zone: String): Date copies(branch: ID!): Int! }
type Book implements Titled & Lendable {
  title: String! due(zone: String): Date copies(branch: ID!): Int!
  author: Author! genre: Genre pages(from: Int = 1, to: Int!): [String!]! isOut(now: Boolean! = false): Boolean!
}
type Film implements Titled & Lendable {
  title: String! due(zone: String): Date copies(branch: ID!): Int! minutes: Int! genre: String! pages: Int
}
type Author { name: String! books: [Book!]! }
union Item = Book | Film
union Person = Author
input Filter { title: String pages: Int! = 100 genre: Genre by: Filter tags: [String!] branch: ID! }
type Query {
  book(id: ID!): Book titled: Titled lendable: Lendable item: Item person: Person
  search(filter: Filter): [Item!] note(json: JSON): Int
  count(of: Int): Int has(on: Boolean!): Int all(on: [Boolean!]): Int grid(of: [[Int!]!]): Int near(to: Float): Int
}
type Mutation { lend(id: ID!): Book }
type Subscription { lent: Book returned: Book }
directive @timed(by: Int!) on QUERY | FIELD
directive @label(text: String!) repeatable on FIELD | FRAGMENT_SPREAD
";

/// The schema of those on which the dialects differ.
const CORNERS: &str = "
scalar JSON
input O { a: Int! = 3 b: Int! c: [O!] }
type Query {
  any(v: JSON): Int
  obj(o: O): Int
  req(x: Int! = 3): Int
  i(x: Int): Int
  lo(x: [O!]): Int
  either: Either
}
union Either = Query | Subscription
type Subscription { a: Int b: Int }
";

/// A schema with a directive of its own.
const TAG: &str = "type Query { dog: Dog } type Dog { name: String } directive @tag on FIELD";

/// The same, where the directive is repeatable.
const REPEATABLE: &str =
    "type Query { dog: Dog } type Dog { name: String } directive @tag repeatable on FIELD";

/// Appends the errors of a document, one per line. The kind names a dialect and a schema; what follows is for readers.
/// Whether there is such a kind of rows.
///
/// # Errors
///
/// Out of memory.
pub fn tell_by_dialect(
    alloc: Global,
    kind: &str,
    text: &str,
    came: &mut String,
) -> Result<bool, AllocError> {
    let (name, rest) = kind.split_once(' ').unwrap_or((kind, ""));
    let dialect = match name {
        "october2021" => Dialect::October2021,
        "juniper" => Dialect::Juniper,
        _ => return Ok(false),
    };
    let (name, _) = rest.split_once(' ').unwrap_or((rest, ""));
    let schema = match name {
        "library" => LIBRARY,
        "corners" => CORNERS,
        "tag" => TAG,
        "repeatable" => REPEATABLE,
        _ => return Ok(false),
    };
    tell(alloc, dialect, schema, text, came)?;
    Ok(true)
}

fn tell(
    alloc: Global,
    dialect: Dialect,
    schema: &str,
    text: &str,
    came: &mut String,
) -> Result<(), AllocError> {
    let Ok(schema) = read_schema(alloc, schema) else {
        return came.push_str("no schema\n");
    };
    let root = RootNode::new(schema).with_dialect(dialect);
    let Ok(document) = read_document(alloc, text) else {
        return came.push_str("no document\n");
    };
    let Ok(errors) = root.validate(alloc, document.as_slice()) else {
        return came.push_str("out of memory\n");
    };
    for error in &errors {
        writeln!(came, "{error}")?;
    }
    Ok(())
}
