//! The program's work, over any source of files and any writers.
ghost use Rattle.std.specs.Prelude.{◌≡◌, ◌==◌, ◌≤◌, ◌<◌, ◌⊎◌, ◌&&◌, ⊤, [], IfOk, Some, length, string_bytes, true};
ghost use Rattle.std.specs.Prelude.{false, if◌then◌else◌};
ghost use Rattle.std.specs.Io.KnownBytes.{Appends};
ghost use Rattle.std.specs.Option.{option_copied};
ghost use Rattle.clap.specs.Values.{kind_of};
ghost use Rattle.lint_args.specs.Asks.{IsRequest, WantsText, word_texts};
ghost use Rattle.lint_app.specs.Ended.{Ends, EndsEarly, EndsTask, IsFaultReport, IsShown, WritesPart, WritesSome};
ghost use Rattle.lint_app.specs.Told.{GivenValues, IsReport};
ghost use Rattle.lint_app.specs.Tasks.{IsTextOf, IsTextOn, IsToldOf, TellsBy, TellsQueries, TellsTask};
ghost use Rattle.lint_app.specs.Written.{WritesAsked, WritesTask, asks_for_text, begins_request};

use crate::documents::{Judge, Report};
use crate::rules::LintRules;
use crate::schemas::read_root;
use crate::values::values_of_file;
use crate::writing::write_text;
use clap::Error;
use clap::error::ErrorKind;
use graphql_reader::SourceScalar;
use lint_args::task::{Form, Task};
use lint_files::colours::Colours;
use lint_files::failure::Failure;
use lint_files::files::{Inputs, read_sources};
use lint_files::paths::paths_of;
use lint_report::github_report::github_report;
use lint_report::json_report::json_report;
use lint_report::text_report::{faults_text, text_report};
use lint_sources::faults::Fault;
use lint_sources::issues::Issue;
use lint_sources::sources::Source;
use std::alloc::Global;
use std::io::Write;
use validation::{OutOfMemory, RootNode, Variables};

/// The report, as it is written to the output.
#[derive(Drop)]
struct Told {
    text: String,
    /// The faults, unless the report has them.
    faults: String,
    /// Whether it has errors.
    has_errors: bool,
    /// Whether all files could be judged.
    is_whole: bool,
}

/// Does what the command line asks for, and returns the exit status. The first word is the program's own name.
///
/// - 0: no document has an error, or help or the version was asked for;
/// - 1: a document has an error;
/// - 2: the arguments, a file or the schema are invalid, a read or a write failed, or out of memory.
///
/// The report goes to `output`. Why the status is 2 goes to `errors`, but faults of files are in the report, unless it
/// is a text.
pub fn run<I: Inputs, W: Write, E: Write>(
    alloc: Global,
    words: &[String],
    inputs: &I,
    output: &mut W,
    errors: &mut E,
) -> u8
    ensures status { result ≤ 2 }
    ensures told { asks_for_text words.now ≡ false → result ≤ 1
        → WritesAsked ⟦<SourceScalar as LintRules>⟧.rules words.now (I.host inputs.now) (W.contents output.old)
        (W.contents output.new) result }
    ensures answered { result ≤ 1
        → WantsText (word_texts words.now) ⊎ WritesAsked ⟦<SourceScalar as LintRules>⟧.rules words.now
        (I.host inputs.now) (W.contents output.old) (W.contents output.new) result }
    ensures quiet { result ≤ 1 → errors.new ≡ errors.old }
    ensures ended { result ≡ 2
        → Ends ⟦<SourceScalar as LintRules>⟧.rules words.now (I.host inputs.now) (W.contents output.old)
        (W.contents output.new) }
{
    match Task::of(alloc, words) {
        Ok(task) => run_task(alloc, &task, inputs, output, errors),
        Err(error) => show(alloc, &error, asks_for_text(words), output, errors),
    }
}

// Whether a word asks for help or the version.
fn asks_for_text(words: &[String]) -> bool
    ensures { result ≡ asks_for_text words.now }
{
    words.iter().any(|word| begins_request(word.as_str()))
}

fn begins_request(word: &str) -> bool
    ensures { result ≡ begins_request word.now }
{
    let bytes = word.as_bytes();
    word == "--help" || word == "--version" || bytes.starts_with(b"-h") || bytes.starts_with(b"-V")
}

// Help or the version, or what is wrong with the arguments.
fn show<W: Write, E: Write>(
    alloc: Global,
    error: &Error,
    is_asked: bool,
    output: &mut W,
    errors: &mut E,
) -> u8
    ensures status { result ≤ 2 }
    ensures asked { result ≤ 1 → is_asked ≡ true }
    ensures text { result ≤ 1 → IsRequest (kind_of error.now) }
    ensures quiet { result ≤ 1 → errors.new ≡ errors.old }
    ensures ended { result ≡ 2
        → WritesSome (λ text. IsShown (kind_of error.now) text) (W.contents output.old) (W.contents output.new) }
{
    if !is_asked {
        return refuse(error, errors);
    }
    if !is_request(error.kind()) {
        return refuse(error, errors);
    }
    match write_request(alloc, error, output) {
        Ok(()) => 0,
        Err(failure) => tell_failure(failure, errors),
    }
}

// Writes what is wrong with the arguments. Returns the exit status 2.
fn refuse<E: Write>(error: &Error, errors: &mut E) -> u8
    ensures { result ≡ 2 }
{
    // If this write fails, only the status says so.
    let _ = write!(errors, "{error}");
    2
}

fn is_request(kind: ErrorKind) -> bool
    ensures { result ≡ true → IsRequest kind }
{
    match kind {
        ErrorKind::DisplayHelp => true,
        ErrorKind::DisplayVersion => true,
        _ => false,
    }
}

fn write_request<W: Write>(alloc: Global, request: &Error, output: &mut W) -> Result<(), Failure>
    ensures { WritesSome (λ _. ⊤) (W.contents output.old) (W.contents output.new) }
{
    let text = format!(in alloc; "{request}")?;
    write_text(output, text.as_str())?;
    Ok(())
}

/// Judges the files of a task, and returns the exit status.
pub fn run_task<I: Inputs, W: Write, E: Write>(
    alloc: Global,
    task: &Task<'_>,
    inputs: &I,
    output: &mut W,
    errors: &mut E,
) -> u8
    ensures status { result ≤ 2 }
    ensures told { result ≤ 1
        → WritesTask ⟦<SourceScalar as LintRules>⟧.rules (I.host inputs.now) task.now (W.contents output.old)
        (W.contents output.new) result }
    ensures quiet { result ≤ 1 → errors.new ≡ errors.old }
    ensures ended { result ≡ 2
        → WritesSome (EndsTask ⟦<SourceScalar as LintRules>⟧.rules (I.host inputs.now) task.now)
        (W.contents output.old) (W.contents output.new) }
{
    if task.inputs() > 1 {
        return tell_failure(Failure::InputTwice, errors);
    }
    judge_task(alloc, task, inputs, output, errors)
}

fn judge_task<I: Inputs, W: Write, E: Write>(
    alloc: Global,
    task: &Task<'_>,
    inputs: &I,
    output: &mut W,
    errors: &mut E,
) -> u8
    ensures status { result ≤ 2 }
    ensures told { result ≤ 1
        → WritesTask ⟦<SourceScalar as LintRules>⟧.rules (I.host inputs.now) task.now (W.contents output.old)
        (W.contents output.new) result }
    ensures quiet { result ≤ 1 → errors.new ≡ errors.old }
    ensures ended { result ≡ 2
        → WritesSome (EndsTask ⟦<SourceScalar as LintRules>⟧.rules (I.host inputs.now) task.now)
        (W.contents output.old) (W.contents output.new) }
{
    let mut faults = Vec::new(alloc);
    match judge_all(alloc, task, inputs, &mut faults) {
        Ok(told) => tell(&told, output, errors),
        Err(failure) => {
            let is_coloured = inputs.colours().errors;
            let faults = faults.as_slice();
            tell_early(
                alloc,
                is_coloured,
                task.form,
                failure,
                faults,
                output,
                errors,
            )
        }
    }
}

// Writes the report, and before it the faults for which a file could not be judged, unless the report has them. With
// such faults the status is 2.
fn tell<W: Write, E: Write>(told: &Told, output: &mut W, errors: &mut E) -> u8
    ensures status { result ≤ 2 }
    ensures whole { result ≤ 1 → told.now.is_whole ≡ true }
    ensures value { result ≤ 1 → result ≡ (if told.now.has_errors then 1 else 0) }
    ensures written { result ≤ 1
        → Appends (W.contents output.old) (W.contents output.new) (string_bytes told.now.text) }
    ensures quiet { result ≤ 1 → errors.new ≡ errors.old }
    ensures part { WritesPart (string_bytes told.now.text) (W.contents output.old) (W.contents output.new) }
{
    if told.is_whole {
        return write_told(told, output, errors);
    }
    match write_text(errors, told.faults.as_str()) {
        Ok(()) => {
            write_told(told, output, errors);
            2
        }
        Err(_) => 2,
    }
}

fn write_told<W: Write, E: Write>(told: &Told, output: &mut W, errors: &mut E) -> u8
    ensures status { result ≤ 2 }
    ensures whole { result ≤ 1 → told.now.is_whole ≡ true }
    ensures value { result ≤ 1 → result ≡ (if told.now.has_errors then 1 else 0) }
    ensures written { result ≤ 1
        → Appends (W.contents output.old) (W.contents output.new) (string_bytes told.now.text) }
    ensures quiet { result ≤ 1 → errors.new ≡ errors.old }
    ensures part { WritesPart (string_bytes told.now.text) (W.contents output.old) (W.contents output.new) }
{
    match write_text(output, told.text.as_str()) {
        Ok(()) => status_of(told),
        Err(error) => tell_failure(Failure::from(error), errors),
    }
}

fn status_of(told: &Told) -> u8
    ensures { result ≡ (if told.now.is_whole then (if told.now.has_errors then 1 else 0) else 2) }
{
    if !told.is_whole {
        2
    } else if told.has_errors {
        1
    } else {
        0
    }
}

// Writes the faults for which no file could be judged, and else why the program ends early. Returns the exit status 2.
fn tell_early<W: Write, E: Write>(
    alloc: Global,
    is_coloured: bool,
    form: Form,
    failure: Failure,
    faults: &[Fault],
    output: &mut W,
    errors: &mut E,
) -> u8
    ensures status { result ≡ 2 }
    ensures ended { WritesSome (EndsEarly form faults.now) (W.contents output.old) (W.contents output.new) }
{
    if faults.is_empty() {
        return tell_failure(failure, errors);
    }
    match write_faults(alloc, is_coloured, form, faults, output, errors) {
        Ok(()) => tell_rest(failure, errors),
        Err(failure) => tell_failure(failure, errors),
    }
}

// Writes a failure, unless it was told. Returns the exit status 2.
fn tell_rest<E: Write>(failure: Failure, errors: &mut E) -> u8
    ensures { result ≡ 2 }
{
    if matches!(failure, Failure::Told) {
        return 2;
    }
    tell_failure(failure, errors)
}

fn write_faults<W: Write, E: Write>(
    alloc: Global,
    is_coloured: bool,
    form: Form,
    faults: &[Fault],
    output: &mut W,
    errors: &mut E,
) -> Result<(), Failure>
    ensures { WritesSome (IsFaultReport form faults.now) (W.contents output.old) (W.contents output.new) }
{
    let text = fault_report(alloc, form, faults)?;
    write_text(output, text.as_str())?;
    let text = faults_for_errors(alloc, is_coloured, form, faults)?;
    write_text(errors, text.as_str())?;
    Ok(())
}

// What the output has of faults for which no file could be judged.
fn fault_report(alloc: Global, form: Form, faults: &[Fault]) -> Result<String, OutOfMemory>
    ensures { IfOk result (λ text. IsFaultReport form faults.now (string_bytes text)) }
{
    match form {
        Form::Text => Ok(String::new(alloc)),
        Form::Json => json_report(alloc, faults, &[], &[]),
        Form::Github => github_report(alloc, faults, &[], &[]),
    }
}

// What the errors have of faults.
fn faults_for_errors(
    alloc: Global,
    is_coloured: bool,
    form: Form,
    faults: &[Fault],
) -> Result<String, OutOfMemory> {
    match form {
        Form::Text => faults_text(alloc, is_coloured, faults),
        Form::Json | Form::Github => Ok(String::new(alloc)),
    }
}

/// Writes why the program ends early. Returns the exit status 2.
pub fn tell_failure<E: Write>(failure: Failure, errors: &mut E) -> u8
    ensures { result ≡ 2 }
{
    // If this write fails, only the status says so.
    let _ = writeln!(errors, "lint: error: {failure}");
    2
}

// Reads the schema, the values and the queries, and judges these.
fn judge_all<I: Inputs>(
    alloc: Global,
    task: &Task<'_>,
    inputs: &I,
    faults: &mut Vec<Fault>,
) -> Result<Told, Failure>
    ensures { IfOk result (TellsTask ⟦<SourceScalar as LintRules>⟧.rules (I.host inputs.now) task.now) }
{
    let root = read_root(alloc, task, inputs, faults)?;
    judge_by(alloc, task, inputs, &root, faults)
}

// The same with the schema. The owner of a schema or of values only calls and drops, which keeps its proof small.
fn judge_by<I: Inputs>(
    alloc: Global,
    task: &Task<'_>,
    inputs: &I,
    root: &RootNode<SourceScalar>,
    faults: &mut Vec<Fault>,
) -> Result<Told, Failure>
    ensures { IfOk result (TellsBy ⟦<SourceScalar as LintRules>⟧.rules (I.host inputs.now) task.now root.now) }
{
    match task.variables {
        Some(path) => judge_with(alloc, task, inputs, root, path, faults),
        None => judge_queries(alloc, task, inputs, root, None, faults),
    }
}

fn judge_with<I: Inputs>(
    alloc: Global,
    task: &Task<'_>,
    inputs: &I,
    root: &RootNode<SourceScalar>,
    path: &str,
    faults: &mut Vec<Fault>,
) -> Result<Told, Failure>
    ensures { IfOk result (λ told. (values : GivenValues)
        × TellsQueries ⟦<SourceScalar as LintRules>⟧.rules (I.host inputs.now) task.now root.now (Some values) told) }
{
    let values = values_of_file(alloc, inputs, path, faults)?;
    judge_queries(alloc, task, inputs, root, Some(&values), faults)
}

fn judge_queries<I: Inputs>(
    alloc: Global,
    task: &Task<'_>,
    inputs: &I,
    root: &RootNode<SourceScalar>,
    values: Option<&Variables<SourceScalar>>,
    faults: &mut Vec<Fault>,
) -> Result<Told, Failure>
    ensures { IfOk result (TellsQueries ⟦<SourceScalar as LintRules>⟧.rules (I.host inputs.now) task.now root.now
        (option_copied values.entry)) }
{
    let queries = task.queries.as_slice();
    let paths = paths_of(alloc, inputs, queries)?;
    let named = paths.as_slice();
    let read = read_sources(alloc, inputs, named, faults)?;
    let sources = read.as_slice();
    let judge = Judge {
        root,
        values,
        sources,
        max_depth: task.max_depth,
    };
    let files = named.len();
    let report = report_of(alloc, task, &judge, files, faults)?;
    let colours = inputs.colours();
    let faults = faults.as_slice();
    let told = told_of(alloc, task, colours, files, faults, sources, &report)?;
    Ok(told)
}

// With `--together`, all files must have been read, whose number this is.
fn report_of(
    alloc: Global,
    task: &Task<'_>,
    judge: &Judge<'_>,
    files: usize,
    faults: &mut Vec<Fault>,
) -> Result<Report, Failure>
    ensures { IfOk result (IsReport ⟦<SourceScalar as LintRules>⟧.rules task.now.is_together judge.now.root.now
        (option_copied judge.now.values) judge.now.sources.now) }
{
    if !task.is_together {
        let report = judge.each(alloc, faults)?;
        return Ok(report);
    }
    if judge.sources.len() < files {
        return Ok(Report::empty(alloc));
    }
    let report = judge.together(alloc, faults)?;
    Ok(report)
}

fn told_of(
    alloc: Global,
    task: &Task<'_>,
    colours: Colours,
    files: usize,
    faults: &[Fault],
    sources: &[Source],
    report: &Report,
) -> Result<Told, OutOfMemory>
    ensures { IfOk result (IsToldOf colours.output task.now files faults.now sources.now report.now) }
{
    let text = text_of(alloc, task, colours.output, files, faults, sources, report)?;
    let shown = faults_for_errors(alloc, colours.errors, task.form, faults)?;
    Ok(Told {
        text,
        faults: shown,
        has_errors: !report.issues.is_empty(),
        is_whole: is_whole(files, faults, report),
    })
}

// Whether there is no fault, and all files were judged.
fn is_whole(files: usize, faults: &[Fault], report: &Report) -> bool
    ensures { result ≡ ((length faults.now == 0) && (report.now.judged == files)) }
{
    faults.is_empty() && report.judged == files
}

fn text_of(
    alloc: Global,
    task: &Task<'_>,
    is_coloured: bool,
    files: usize,
    faults: &[Fault],
    sources: &[Source],
    report: &Report,
) -> Result<String, OutOfMemory>
    ensures { IfOk result (λ text. IsTextOf is_coloured task.now files faults.now sources.now
        report.now (string_bytes text)) }
{
    let issues = report.issues.as_slice();
    match task.form {
        Form::Text => plain_text_of(alloc, is_coloured, files, sources, issues, report.judged),
        Form::Json => json_report(alloc, faults, sources, issues),
        Form::Github => github_report(alloc, faults, sources, issues),
    }
}

// The report as text. Without a file the schema alone was judged.
fn plain_text_of(
    alloc: Global,
    is_coloured: bool,
    files: usize,
    sources: &[Source],
    issues: &[Issue],
    judged: usize,
) -> Result<String, OutOfMemory>
    ensures { IfOk result (λ text. IsTextOn files is_coloured sources.now issues.now judged (string_bytes text)) }
{
    if files == 0 {
        return Ok(String::from_str(alloc, "no errors in the schema\n")?);
    }
    let unjudged = files.saturating_sub(judged);
    text_report(alloc, is_coloured, sources, issues, judged, unjudged)
}
