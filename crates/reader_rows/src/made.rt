//! A schema of any size, of the kind that teams have: groups of an object with its connection, its filter and its
//! kinds.
use std::alloc::{AllocError, Global};

const COMMON: &str = "directive @cost(points: Int! = 1) on FIELD_DEFINITION
scalar DateTime @specifiedBy(url: \"https://example.org/date-time\")
interface Node { id: ID! }
interface Named implements Node { id: ID! name: String! }
type PageInfo { hasNextPage: Boolean! endCursor: String }
";

/// The text of a schema with this many groups, of five types each.
///
/// # Errors
///
/// Out of memory.
pub fn made_schema(alloc: Global, groups: usize) -> Result<String, AllocError> {
    let mut text = String::from_str(alloc, COMMON)?;
    for group in 0..groups {
        add_group(&mut text, group)?;
    }
    add_query(&mut text, groups)?;
    add_union(&mut text, groups)?;
    Ok(text)
}

fn add_group(text: &mut String, group: usize) -> Result<(), AllocError> {
    add_object(text, group)?;
    add_connection(text, group)?;
    writeln!(text, "enum Kind{group} {{ NEW OPEN OLD @deprecated }}")?;
    writeln!(
        text,
        "input Filter{group} {{ kind: Kind{group} = NEW, names: [String!] = [\"a\"], and: [Filter{group}!] }}"
    )
}

fn add_object(text: &mut String, group: usize) -> Result<(), AllocError> {
    writeln!(text, "type Thing{group} implements Named & Node {{")?;
    text.push_str("  id: ID!\n  name: String!\n  created: DateTime! @cost(points: 2)\n")?;
    writeln!(
        text,
        "  kind: Kind{group}!\n  node: Node @deprecated(reason: \"gone\")"
    )?;
    writeln!(
        text,
        "  others(first: Int = 10, after: String, filter: Filter{group} = {{ kind: OPEN }}): Connection{group}!\n}}"
    )
}

fn add_connection(text: &mut String, group: usize) -> Result<(), AllocError> {
    writeln!(
        text,
        "type Connection{group} {{ edges: [Edge{group}!]! pageInfo: PageInfo! }}"
    )?;
    writeln!(
        text,
        "type Edge{group} {{ node: Thing{group} cursor: String! }}"
    )
}

fn add_query(text: &mut String, groups: usize) -> Result<(), AllocError> {
    text.push_str("type Query {\n  node(id: ID!): Node\n  any: [Anything!]\n")?;
    for group in 0..groups {
        writeln!(text, "  thing{group}(id: ID!): Thing{group}")?;
    }
    text.push_str("}\n")
}

fn add_union(text: &mut String, groups: usize) -> Result<(), AllocError> {
    text.push_str("union Anything =")?;
    for group in 0..groups {
        write!(text, " | Thing{group}")?;
    }
    text.push('\n')
}
