//! The program `conformance`: validates documents, and reports where what comes is not what is expected. Of most the
//! errors of juniper's own code are known; of those for October 2021, the section of the specification that asks for
//! them. Further rows tell of single rules, of the search for conflicts, of uses of variables and of their values.
#![tactic(auto)]

mod alone;
mod asked;
mod dialects;
mod found;
mod judge;
mod runs;
mod texts;
mod usages;
mod variables;

use row_files::{Judge, run};
use samples::build::Checks;
use samples::checks::{
    check_boolean, check_complex_input, check_dog_command, check_id, check_int, check_pair_input,
    check_string, refuse_token,
};
use std::alloc::{AllocError, Global};
use std::process::ExitCode;
use validation::meta::default_check::DefaultCheck;

const FILES: &[&str] = &[
    "pets.txt",
    "boxes.txt",
    "pets_closed.txt",
    "pets_merge.txt",
    "boxes_merge.txt",
    "pets_variables.txt",
    "variables.txt",
    "check_documents.txt",
    "check_merging.txt",
    "check_texts.txt",
    "section5.txt",
    "dialects.txt",
    "asked.txt",
    "graphs.txt",
    "alone.txt",
    "usages.txt",
];

/// What this repository's code makes of documents.
struct Validation;

impl Judge for Validation {
    fn judge(
        &self,
        alloc: Global,
        kind: &str,
        text: &str,
        came: &mut String,
    ) -> Result<bool, AllocError> {
        if let Some(rule) = kind.strip_prefix("alone ") {
            alone::tell_alone(alloc, rule, text, came)?;
            return Ok(true);
        }
        if dialects::tell_by_dialect(alloc, kind, text, came)? {
            return Ok(true);
        }
        let checks = Checks {
            int: DefaultCheck::with_token(check_int, refuse_token),
            string: DefaultCheck::with_token(check_string, refuse_token),
            boolean: DefaultCheck::with_token(check_boolean, refuse_token),
            id: DefaultCheck::with_token(check_id, refuse_token),
            dog_command: DefaultCheck::new(check_dog_command),
            complex_input: DefaultCheck::new(check_complex_input),
            pair_input: DefaultCheck::new(check_pair_input),
        };
        match kind.strip_prefix("check ") {
            Some(words) => runs::tell_run(alloc, checks, words, text, came),
            None => judge::tell_errors(alloc, checks, kind, text, came),
        }
    }
}

fn main(rt: HostRuntime) -> ExitCode {
    ExitCode::from(run(&rt, &Validation, FILES))
}
