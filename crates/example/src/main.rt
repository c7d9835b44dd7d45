//! Reads a schema and a document, and validates the document.
#![tactic(auto)]

use graphql::{RootNode, read_document, read_schema};
use std::io;

fn main(rt: HostRuntime) -> io::Result<()> {
    let text = "type Query { greeting(name: String!): String }";
    let Ok(schema) = read_schema(rt.alloc(), text) else {
        return rt.eprintln("not a valid schema");
    };
    let root = RootNode::new(schema);
    let text = "{ greeting(nam: \"Ada\") { length } }";
    let Ok(document) = read_document(rt.alloc(), text) else {
        return rt.eprintln("not a GraphQL document");
    };
    let Ok(errors) = root.validate(rt.alloc(), document.as_slice()) else {
        return rt.eprintln("out of memory");
    };
    for error in &errors {
        println!(rt; "{error}")?;
    }
    Ok(())
}
