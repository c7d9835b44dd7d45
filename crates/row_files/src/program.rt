//! The work of a program that judges files of rows.
ghost use Rattle.std.specs.Prelude.{◌≤◌};

use crate::failure::Failure;
use crate::report::Report;
use crate::rows::{Judge, judge_rows};
use std::fs;
use std::rt::Files;

/// Judges the files, prints a report on each, and returns the exit status.
///
/// - 0: all rows agree;
/// - 1: some differ;
/// - 2: the format of a file is invalid;
/// - 3: out of memory;
/// - 5: a read or a write failed.
pub fn run<R: Files + AllocGlobal + Print + Eprint, J: Judge>(
    rt: &R,
    judge: &J,
    files: &[&str],
) -> u8
    ensures { result ≤ 5 }
{
    let mut all_agree = true;
    for file in files {
        match is_clean(rt, judge, file) {
            Ok(clean) => all_agree = all_agree && clean,
            Err(failure) => return tell(rt, file, failure),
        }
    }
    if all_agree { 0 } else { 1 }
}

// Prints the report on a file. Whether all its rows agree.
fn is_clean<R: Files + AllocGlobal + Print, J: Judge>(
    rt: &R,
    judge: &J,
    file: &str,
) -> Result<bool, Failure> {
    let text = fs::read_to_string(rt, file)?;
    let mut report = Report::new(rt.alloc());
    judge_rows(rt.alloc(), judge, text.as_bytes(), &mut report)?;
    report.end(file)?;
    rt.print(report.text.as_str())?;
    Ok(report.is_clean())
}

fn tell<R: Eprint>(rt: &R, file: &str, failure: Failure) -> u8
    ensures { result ≤ 5 }
{
    match eprintln!(rt; "{file}: {failure}") {
        Ok(()) => failure.status(),
        Err(_) => Failure::InputOutput.status(),
    }
}
