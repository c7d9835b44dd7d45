//! The program `bench`: measures how long it takes to read a text and to judge it.
//!
//! It has two forms:
//!
//! - `bench SCHEMA READS WALKS VALUES` reads the document on the standard input READS times, judges it by all rules
//!   WALKS times, and judges the values of its first operation's variables, which are their defaults, VALUES times.
//!   SCHEMA is `pets`, or a number N: a schema whose field `wide` takes an input object of N fields `k0: Int`, `k1: Int`
//!   and so on.
//! - `bench sdl READS` and `bench queries READS` read the standard input READS times by `graphql_reader`, as a type
//!   system document or as an executable document. `bench schema READS` makes a schema of type definitions READS times,
//!   and `bench introspection READS` of an introspection result.
//!
//! With `--through MEGABYTES` before these, the program goes through so much memory before each pass, so that the pass
//! finds a cold cache.
//!
//! It prints the bytes of the text, the number of errors of the rules, the number of faults of the values, and for each
//! phase the median of its times in nanoseconds of processor time. A phase that is done 0 times has no line.
#![tactic(auto)]

mod failure;
mod judging;
mod program;
mod readers;
mod schemas;
mod times;
mod values;

use std::process::ExitCode;

fn main(rt: HostRuntime) -> ExitCode {
    ExitCode::from(program::run(&rt, &mut rt.stdin()))
}
