//! The program's work, over any reader and any writers.
ghost use Rattle.std.specs.Prelude.{◌≡◌, ◌≤◌, ◌⊎◌, Err, IfErr, IfOk, None, OnOk, Some, false, true, if◌then◌else◌, map};
ghost use Rattle.std.specs.Prelude.{string_bytes};
ghost use Rattle.std.specs.Io.KnownBytes.{Appends};
ghost use Rattle.check_app.specs.Failures.{TellsFailure};
ghost use Rattle.check_app.specs.Statuses.{status_of};
ghost use Rattle.check_app.specs.Told.{IsReportAsked, IsReportBy, IsReportOnSome, TellsReport};
ghost use Rattle.check_app.specs.Words.{is_read, is_usage, mode_named, other_task, plain_task, reads_input};
ghost use Rattle.check_app.specs.Words.{sample_named, task_asked};

use crate::failure::Failure;
use crate::report::Report;
use sample_reader::read_document;
use samples::build::Checks;
use samples::{boxes, demo, pets};
use std::alloc::Global;
use std::io::{self, Read, Write};
use validation::ast::Definition;
use validation::{AllRules, DefaultScalarValue, ScalarValue, SchemaType};

/// A sample schema.
#[derive(Clone, Copy, Debug, PartialEq, Eq)]
enum Sample {
    Demo,
    Pets,
    Boxes,
}

/// Which rules run: all, only `overlapping_fields_can_be_merged`, or all with introspection disabled.
#[derive(Clone, Copy, Debug, PartialEq, Eq)]
enum Mode {
    Plain,
    Merge,
    Closed,
}

/// What the arguments ask for: to validate a document against a sample schema.
#[derive(Clone, Copy, Debug, PartialEq, Eq)]
struct Task {
    sample: Sample,
    mode: Mode,
}

/// Does what the arguments ask for, and returns the exit status. The words are those after the program's own name, and
/// the checks are those of the sample schemas.
///
/// `demo` reads nothing; `pets` and `boxes` read the input to its end, as a document. A second word `merge` runs only
/// the rule `overlapping_fields_can_be_merged`, and `closed` reports introspection. The report goes to `output`, in
/// one piece; why there is none goes to `faults`, as one line.
///
/// - 0: the document has no error;
/// - 1: it has errors;
/// - 2: the input has a syntax error;
/// - 3: out of memory;
/// - 4: invalid arguments;
/// - 5: a read or a write failed.
pub fn run<R: Read, W: Write, E: Write>(
    alloc: Global,
    checks: Checks,
    words: &[String],
    input: &mut R,
    output: &mut W,
    faults: &mut E,
) -> u8
    ensures status { result ≤ 5 }
    ensures told { result ≤ 1
        → TellsReport ⟦<DefaultScalarValue as AllRules<'static>>⟧.rules ⟦<DefaultScalarValue as ScalarValue>⟧.eq
        (task_asked (map string_bytes words.now)) (W.contents output.old) (W.contents output.new) result }
    ensures quiet { result ≤ 1 → faults.new ≡ faults.old }
    ensures silent { 2 ≤ result → result ≤ 4 → output.new ≡ output.old }
    ensures unread { reads_input (task_asked (map string_bytes words.now)) ≡ false → input.new ≡ input.old }
    ensures failed { 2 ≤ result → result ≤ 4 → TellsFailure (E.contents faults.old) (E.contents faults.new) result }
    ensures unknown { task_asked (map string_bytes words.now) ≡ None → 4 ≤ result }
    ensures usage { result ≡ 4 → task_asked (map string_bytes words.now) ≡ None }
{
    match report_on(alloc, checks, words, input) {
        Ok(report) => write_report(&report, output, faults),
        Err(failure) => tell(failure, faults),
    }
}

fn write_report<W: Write, E: Write>(report: &Report, output: &mut W, faults: &mut E) -> u8
    ensures most { result ≤ 5 }
    ensures loud { 2 ≤ result → result ≡ 5 }
    ensures quiet { result ≤ 1 → faults.new ≡ faults.old }
    ensures value { result ≤ 1 → result ≡ (if report.now.is_clean then 0 else 1) }
    ensures written { result ≤ 1
        → Appends (W.contents output.old) (W.contents output.new) (string_bytes report.now.text) }
{
    match write_text(output, report.text.as_str()) {
        Ok(()) => if report.is_clean { 0 } else { 1 },
        Err(_) => tell(Failure::InputOutput, faults),
    }
}

fn write_text<W: Write>(output: &mut W, text: &str) -> io::Result<()>
    ensures { OnOk result (Appends (W.contents output.old) (W.contents output.new) text.now) }
{
    output.write_all(text.as_bytes())?;
    output.flush()?;
    Ok(())
}

/// Writes a failure as a line, and returns its exit status, or that of a failed write.
pub fn tell<E: Write>(failure: Failure, faults: &mut E) -> u8
    ensures value { (result ≡ status_of failure) ⊎ (result ≡ 5) }
    ensures least { 2 ≤ result }
    ensures most { result ≤ 5 }
    ensures told { result ≤ 4 → TellsFailure (E.contents faults.old) (E.contents faults.new) result }
{
    if writeln!(faults, "check: {failure}").is_err() || faults.flush().is_err() {
        return Failure::InputOutput.status();
    }
    failure.status()
}

/// Why arguments can't be read; those that are not valid UTF-8 are invalid arguments.
pub fn words_failure(error: &io::Error) -> Failure {
    match error.kind() {
        io::ErrorKind::OutOfMemory => Failure::OutOfMemory,
        _ => Failure::Usage,
    }
}

fn report_on<R: Read>(
    alloc: Global,
    checks: Checks,
    words: &[String],
    input: &mut R,
) -> Result<Report, Failure>
    ensures report { IfOk result
        (IsReportAsked ⟦<DefaultScalarValue as AllRules<'static>>⟧.rules ⟦<DefaultScalarValue as ScalarValue>⟧.eq
        (task_asked (map string_bytes words.now))) }
    ensures unknown { task_asked (map string_bytes words.now) ≡ None → IfOk result (λ _. ⊥) }
    ensures usage { task_asked (map string_bytes words.now) ≡ None → IfErr result (λ e. is_usage e ≡ true) }
    ensures other { IfErr result (λ e. is_usage e ≡ true → task_asked (map string_bytes words.now) ≡ None) }
    ensures unread { reads_input (task_asked (map string_bytes words.now)) ≡ false → input.new ≡ input.old }
{
    let task = task_of(words).ok_or(Failure::Usage)?;
    let text = text_for(alloc, task.sample, input)?;
    check(alloc, checks, task, text)
}

/// The whole input, which `demo` doesn't read.
fn text_for<R: Read>(alloc: Global, sample: Sample, input: &mut R) -> Result<Vec<u8>, Failure>
    ensures other { IfErr result (λ e. is_usage e ≡ false) }
    ensures unread { is_read sample ≡ false → input.new ≡ input.old }
{
    match sample {
        Sample::Demo => Ok(Vec::new(alloc)),
        Sample::Pets | Sample::Boxes => {
            let mut text = Vec::new(alloc);
            input.read_to_end(&mut text)?;
            Ok(text)
        }
    }
}

fn task_of(words: &[String]) -> Option<Task>
    ensures { result ≡ task_asked (map string_bytes words.now) }
{
    match words {
        [word] => plain_task(sample_named(word.as_str())),
        [word, mode] => other_task(sample_named(word.as_str()), mode_named(mode.as_str())),
        _ => None,
    }
}

fn plain_task(sample: Option<Sample>) -> Option<Task>
    ensures { result ≡ plain_task sample }
{
    match sample {
        Some(sample) => Some(Task {
            sample,
            mode: Mode::Plain,
        }),
        None => None,
    }
}

fn other_task(sample: Option<Sample>, mode: Option<Mode>) -> Option<Task>
    ensures { result ≡ other_task sample mode }
{
    match (sample, mode) {
        (Some(Sample::Pets), Some(mode)) => Some(Task {
            sample: Sample::Pets,
            mode,
        }),
        (Some(Sample::Boxes), Some(mode)) => Some(Task {
            sample: Sample::Boxes,
            mode,
        }),
        _ => None,
    }
}

fn mode_named(word: &str) -> Option<Mode>
    ensures { result ≡ mode_named word.now }
{
    if word == "merge" {
        Some(Mode::Merge)
    } else if word == "closed" {
        Some(Mode::Closed)
    } else {
        None
    }
}

fn sample_named(word: &str) -> Option<Sample>
    ensures { result ≡ sample_named word.now }
{
    if word == "demo" {
        Some(Sample::Demo)
    } else if word == "pets" {
        Some(Sample::Pets)
    } else if word == "boxes" {
        Some(Sample::Boxes)
    } else {
        None
    }
}

/// Validates the document of a text against a sample schema. The document of `demo` is built in code.
fn check(alloc: Global, checks: Checks, task: Task, text: Vec<u8>) -> Result<Report, Failure>
    ensures report { IfOk result
        (IsReportOnSome ⟦<DefaultScalarValue as AllRules<'static>>⟧.rules ⟦<DefaultScalarValue as ScalarValue>⟧.eq
        task.mode) }
    ensures other { IfErr result (λ e. is_usage e ≡ false) }
{
    let types = match task.sample {
        Sample::Demo => demo::types(alloc, checks)?,
        Sample::Pets => pets::types(alloc, checks)?,
        Sample::Boxes => boxes::types(alloc, checks)?,
    };
    let schema = SchemaType::<DefaultScalarValue>::new(
        alloc,
        types,
        "QueryRoot",
        "_EmptyMutation",
        "_EmptySubscription",
    )?;
    match document_for(alloc, task.sample, text.as_slice()) {
        Ok(document) => report_of(alloc, &schema, document.as_slice(), task.mode),
        Err(failure) => Err(failure),
    }
}

fn report_of<'a>(
    alloc: Global,
    schema: &'a SchemaType<DefaultScalarValue>,
    document: &'a [Definition<'_, DefaultScalarValue>],
    mode: Mode,
) -> Result<Report, Failure>
    ensures report { IfOk result
        (IsReportBy ⟦<DefaultScalarValue as AllRules<'static>>⟧.rules ⟦<DefaultScalarValue as ScalarValue>⟧.eq mode
        schema.now document.now) }
    ensures other { IfErr result (λ e. is_usage e ≡ false) }
{
    match mode {
        Mode::Plain => {
            let plain = Report::on(alloc, schema, document, false)?;
            Ok(plain)
        }
        Mode::Merge => {
            let merging = Report::on_merging(alloc, schema, document)?;
            Ok(merging)
        }
        Mode::Closed => {
            let closed = Report::on(alloc, schema, document, true)?;
            Ok(closed)
        }
    }
}

fn document_for(
    alloc: Global,
    sample: Sample,
    text: &[u8],
) -> Result<Vec<Definition<'_, DefaultScalarValue>>, Failure>
    ensures { IfErr result (λ e. is_usage e ≡ false) }
{
    match sample {
        Sample::Demo => Ok(demo::document(alloc)?),
        Sample::Pets | Sample::Boxes => Ok(read_document(alloc, text)?),
    }
}
