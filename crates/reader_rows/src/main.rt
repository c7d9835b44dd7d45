//! The program `reader_rows`: reads texts by `graphql_reader`, `sdl_reader` and `introspection`, judges schemas by
//! `sdl_faults`, and reports where what comes is not what is expected.
#![tactic(auto)]

mod directive_faults;
mod faults;
mod inputs;
mod made;
mod questions;
mod results;
mod shown;
mod trees;
mod values;
mod whole;

use row_files::{Judge, run};
use std::alloc::{AllocError, Global};
use std::process::ExitCode;

const FILES: &[&str] = &[
    "documents.txt",
    "tokens.txt",
    "type_systems.txt",
    "examples.txt",
    "nested.txt",
    "values.txt",
    "schemas.txt",
    "introspection.txt",
    "rules.txt",
    "several.txt",
    "no_schema.txt",
    "directives.txt",
    "made.txt",
];

/// What the readers make of texts, and which faults schemas have.
struct Readers;

impl Judge for Readers {
    fn judge(
        &self,
        alloc: Global,
        kind: &str,
        text: &str,
        came: &mut String,
    ) -> Result<bool, AllocError> {
        match kind {
            "value" => values::tell_value(alloc, text, came)?,
            "schema" => questions::tell_schema(alloc, text, came)?,
            "both forms" => whole::tell_both(alloc, text, came)?,
            "inputs" => inputs::tell_inputs(alloc, false, text, came)?,
            "introspection inputs" => inputs::tell_inputs(alloc, true, text, came)?,
            "faults" => faults::tell_schema_faults(alloc, text, came)?,
            "directives" => directive_faults::tell_directives(alloc, text, came)?,
            "made" => faults::tell_made(alloc, text, came)?,
            _ if kind.starts_with("introspection") => {
                return results::tell_result(alloc, kind, text, came);
            }
            _ => return trees::tell_count(alloc, kind, text, came),
        }
        Ok(true)
    }
}

fn main(rt: HostRuntime) -> ExitCode {
    ExitCode::from(run(&rt, &Readers, FILES))
}
