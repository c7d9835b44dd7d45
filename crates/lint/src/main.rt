//! The program `lint`: validates files of GraphQL queries against a schema.
#![tactic(auto)]

use lint_app::machine;
use lint_app::program::tell_failure;
use lint_files::failure::Failure;
use std::io::IsTerminal;
use std::process::ExitCode;

fn main(rt: HostRuntime) -> ExitCode {
    let (mut output, mut errors) = (rt.stdout(), rt.stderr());
    let colours = machine::colours_of(&rt, output.is_terminal(), errors.is_terminal());
    let status = match machine::words(&rt) {
        Ok(words) => machine::run(&rt, colours, words.as_slice(), &mut output, &mut errors),
        Err(error) => tell_failure(Failure::from(error), &mut errors),
    };
    ExitCode::from(status)
}
