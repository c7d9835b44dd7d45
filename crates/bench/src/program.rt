//! The program's work.
use crate::failure::Failure;
use crate::judging::time_walking;
use crate::readers::{Kind, kind_named, time_reader};
use crate::schemas::{root_fields, wide_input};
use crate::times::Stopwatch;
use crate::values::{first_operation, judge, time_values, values_of};
use sample_reader::read_document;
use samples::build::{Checks, common, object, scalar};
use samples::checks::{
    check_boolean, check_complex_input, check_dog_command, check_id, check_int, check_pair_input,
    check_string, refuse_token,
};
use samples::pets;
use std::alloc::Global;
use std::env::{self, Env};
use std::io::{self, Read};
use std::rt::CpuClock;
use validation::meta::default_check::DefaultCheck;
use validation::{
    DefaultScalarValue, Definition, Dialect, SchemaType, ValidatorContext, visit_dialect_rules,
};

/// How often each phase is to be done.
#[derive(Clone, Copy, Debug)]
struct Times {
    reads: usize,
    walks: usize,
    values: usize,
}

/// Measures what the arguments ask for, and returns the exit status: 0, or 1 if it failed.
pub fn run<R: CpuClock + Env + AllocGlobal + Print + Eprint, I: Read>(rt: &R, input: &mut I) -> u8 {
    let Err(failure) = measure(rt, input) else {
        return 0;
    };
    let _ = eprintln!(rt; "bench: {failure}");
    1
}

fn measure<R: CpuClock + Env + AllocGlobal + Print, I: Read>(
    rt: &R,
    input: &mut I,
) -> Result<(), Failure> {
    let words = words(rt)?;
    let mut text = Vec::new(rt.alloc());
    input.read_to_end(&mut text)?;
    println!(rt; "bytes {}", text.len())?;
    match words.as_slice() {
        [option, name, words @ ..] if option.as_str() == "--dialect" => {
            measure_through(rt, words, text.as_slice(), dialect_named(name.as_str())?)
        }
        words => measure_through(rt, words, text.as_slice(), Dialect::Juniper),
    }
}

/// The dialect of a name.
fn dialect_named(name: &str) -> Result<Dialect, Failure> {
    match name {
        "juniper" => Ok(Dialect::Juniper),
        "october2021" => Ok(Dialect::October2021),
        _ => Err(Failure::Usage),
    }
}

/// Measures what the words ask for, with a cold cache where they say so.
fn measure_through<R: CpuClock + AllocGlobal + Print>(
    rt: &R,
    words: &[String],
    text: &[u8],
    dialect: Dialect,
) -> Result<(), Failure> {
    match words {
        [option, megabytes, words @ ..] if option.as_str() == "--through" => {
            measure_words(rt, words, text, number(megabytes)?, dialect)
        }
        words => measure_words(rt, words, text, 0, dialect),
    }
}

/// Measures what the words behind the option ask for.
fn measure_words<R: CpuClock + AllocGlobal + Print>(
    rt: &R,
    words: &[String],
    text: &[u8],
    megabytes: usize,
    dialect: Dialect,
) -> Result<(), Failure> {
    let mut watch = Stopwatch::new(rt.alloc(), rt, megabytes)?;
    match words {
        [reader, reads] => measure_reader(rt, &mut watch, reader.as_str(), text, number(reads)?),
        [schema, reads, walks, values] => {
            let times = Times {
                reads: number(reads)?,
                walks: number(walks)?,
                values: number(values)?,
            };
            measure_against(rt, &mut watch, schema.as_str(), text, times, dialect)
        }
        _ => Err(Failure::Usage),
    }
}

/// The words after the program's own name.
fn words<R: Env + AllocGlobal>(rt: &R) -> io::Result<Vec<String>> {
    env::args(rt)?
        .skip(1)
        .collect(rt.alloc())
        .map_err(io::Error::from)
}

fn number(word: &String) -> Result<usize, Failure> {
    word.parse::<usize>().map_err(|_| Failure::Usage)
}

fn measure_reader<R: CpuClock + AllocGlobal + Print>(
    rt: &R,
    watch: &mut Stopwatch<'_, R>,
    word: &str,
    text: &[u8],
    reads: usize,
) -> Result<(), Failure> {
    tell_reading(rt, watch, kind_named(word)?, text, reads)
}

fn tell_reading<R: CpuClock + AllocGlobal + Print>(
    rt: &R,
    watch: &mut Stopwatch<'_, R>,
    kind: Kind,
    text: &[u8],
    reads: usize,
) -> Result<(), Failure> {
    let text = str::from_utf8(text).map_err(|_| Failure::Syntax)?;
    tell(
        rt,
        "read",
        time_reader(watch, rt.alloc(), kind, text, reads)?,
    )
}

fn measure_against<R: CpuClock + AllocGlobal + Print>(
    rt: &R,
    watch: &mut Stopwatch<'_, R>,
    word: &str,
    text: &[u8],
    times: Times,
    dialect: Dialect,
) -> Result<(), Failure> {
    tell_reading(rt, watch, Kind::Queries, text, times.reads)?;
    let checks = Checks {
        int: DefaultCheck::with_token(check_int, refuse_token),
        string: DefaultCheck::with_token(check_string, refuse_token),
        boolean: DefaultCheck::with_token(check_boolean, refuse_token),
        id: DefaultCheck::with_token(check_id, refuse_token),
        dog_command: DefaultCheck::new(check_dog_command),
        complex_input: DefaultCheck::new(check_complex_input),
        pair_input: DefaultCheck::new(check_pair_input),
    };
    let alloc = rt.alloc();
    let types = if word == "pets" {
        pets::types(alloc, checks)?
    } else {
        let count = word.parse::<usize>().map_err(|_| Failure::Usage)?;
        let mut types = common(alloc, checks.string, checks.boolean)?;
        types.push(scalar(alloc, "Int", checks.int)?)?;
        types.push(wide_input(alloc, count, checks.complex_input)?)?;
        types.push(object(alloc, "QueryRoot", &[], root_fields(alloc)?)?)?;
        types
    };
    let mut schema = SchemaType::<DefaultScalarValue>::new(
        alloc,
        types,
        "QueryRoot",
        "_EmptyMutation",
        "_EmptySubscription",
    )?;
    schema.set_dialect(dialect);
    measure_text(rt, watch, &schema, text, times)
}

fn measure_text<R: CpuClock + AllocGlobal + Print>(
    rt: &R,
    watch: &mut Stopwatch<'_, R>,
    schema: &SchemaType<DefaultScalarValue>,
    text: &[u8],
    times: Times,
) -> Result<(), Failure> {
    match read_document(rt.alloc(), text) {
        Ok(document) => measure_document(rt, watch, schema, document.as_slice(), times),
        Err(error) => Err(Failure::from(error)),
    }
}

fn measure_document<R: CpuClock + AllocGlobal + Print>(
    rt: &R,
    watch: &mut Stopwatch<'_, R>,
    schema: &SchemaType<DefaultScalarValue>,
    document: &[Definition<'_, DefaultScalarValue>],
    times: Times,
) -> Result<(), Failure> {
    let walk = time_walking(watch, rt.alloc(), schema, document, times.walks)?;
    tell(rt, "walk", walk)?;
    println!(rt; "errors {}", count_errors(rt.alloc(), schema, document)?)?;
    if times.values > 0 {
        measure_values(rt, watch, schema, document, times.values)?;
    }
    Ok(())
}

fn measure_values<R: CpuClock + AllocGlobal + Print>(
    rt: &R,
    watch: &mut Stopwatch<'_, R>,
    schema: &SchemaType<DefaultScalarValue>,
    document: &[Definition<'_, DefaultScalarValue>],
    times: usize,
) -> Result<(), Failure> {
    let operation = first_operation(document)?;
    let values = values_of(rt.alloc(), operation)?;
    let time = time_values(watch, rt.alloc(), schema, operation, &values, times)?;
    tell(rt, "values", time)?;
    let faults = judge(rt.alloc(), schema, operation, &values)?;
    println!(rt; "faults {}", faults.len())?;
    Ok(())
}

fn tell<R: Print>(rt: &R, phase: &str, time: Option<u128>) -> Result<(), Failure> {
    if let Some(nanoseconds) = time {
        println!(rt; "{phase} {nanoseconds}")?;
    }
    Ok(())
}

fn count_errors<'a>(
    alloc: Global,
    schema: &'a SchemaType<DefaultScalarValue>,
    document: &'a [Definition<'_, DefaultScalarValue>],
) -> Result<usize, Failure> {
    let mut ctx = ValidatorContext::new(alloc, schema, document)?;
    visit_dialect_rules(&mut ctx, document)?;
    let errors = ctx.into_errors()?;
    Ok(errors.len())
}
