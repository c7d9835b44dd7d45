//! The program `check`: validates a document against a sample schema.
#![tactic(auto)]

use check_app::program;
use samples::build::Checks;
use samples::checks::{
    check_boolean, check_complex_input, check_dog_command, check_id, check_int, check_pair_input,
    check_string, refuse_token,
};
use std::alloc::Global;
use std::env::{self, Env};
use std::io::{self, Read, Write};
use std::process::ExitCode;
use validation::meta::default_check::DefaultCheck;

fn main(rt: HostRuntime) -> ExitCode {
    let mut faults = rt.stderr();
    let status = match words(&rt) {
        Ok(words) => run(
            rt.alloc(),
            words.as_slice(),
            &mut rt.stdin(),
            &mut rt.stdout(),
            &mut faults,
        ),
        Err(error) => program::tell(program::words_failure(&error), &mut faults),
    };
    ExitCode::from(status)
}

/// A run with the checks of the sample schemas.
fn run<R: Read, W: Write, E: Write>(
    alloc: Global,
    words: &[String],
    input: &mut R,
    output: &mut W,
    faults: &mut E,
) -> u8 {
    let checks = Checks {
        int: DefaultCheck::with_token(check_int, refuse_token),
        string: DefaultCheck::with_token(check_string, refuse_token),
        boolean: DefaultCheck::with_token(check_boolean, refuse_token),
        id: DefaultCheck::with_token(check_id, refuse_token),
        dog_command: DefaultCheck::new(check_dog_command),
        complex_input: DefaultCheck::new(check_complex_input),
        pair_input: DefaultCheck::new(check_pair_input),
    };
    program::run(alloc, checks, words, input, output, faults)
}

/// The command-line arguments without the program's own name.
fn words<R: Env + AllocGlobal>(rt: &R) -> io::Result<Vec<String>> {
    env::args(rt)?
        .skip(1)
        .collect(rt.alloc())
        .map_err(io::Error::from)
}
