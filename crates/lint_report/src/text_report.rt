//! Errors as text: each with its place, a window of its line, and a mark below the place.
ghost use Rattle.std.specs.Prelude.{◌≡◌, ◌+◌, ◌++◌, IfOk, OnOk, Some, string_bytes};
ghost use Rattle.std.specs.List.{sum_by};
ghost use Rattle.lint_report.specs.Lines.{HasLines, fault_lines, issue_lines};
ghost use Rattle.lint_report.specs.Texts.{Adds, AreFaultTexts, AreNotes, IsErrorText, IsIssueText, IsNoteText};
ghost use Rattle.lint_report.specs.Texts.{IsSplitAt, IsTextReport, ShowsLine, count_text, counts_text, last_line};
ghost use Rattle.lint_report.specs.Texts.{message_text, path_text, summary_text, told_column, told_line, told_place};
ghost use Rattle.lint_report.specs.Texts.{unjudged_text};

use crate::colours::{bold, error_word, plain};
use crate::printable::write_printed;
use crate::windows::write_window;
use language_types::error::OutOfMemory;
use lint_sources::faults::Fault;
use lint_sources::issues::{Issue, files_of};
use lint_sources::sources::{Place, Source, path_of, text_of};
use lint_sources::text_places::{characters_before, line_of};
use std::alloc::{AllocError, Global};
use std::fmt;

// A count in words: `no errors`, `1 error`, `2 errors`.
#[derive(Clone, Copy, Debug)]
struct Count<'w> {
    number: usize,
    one: &'w str,
}

impl<'w> Count<'w> {
    fn of(number: usize, one: &'w str) -> Count<'w>
        ensures number { result.number ≡ number }
        ensures one { result.one.now ≡ one.now }
    {
        Count { number, one }
    }
}

impl fmt::Display for Count<'_> {
    ghost output = { λ c. Some (count_text c.number c.one.now) };

    fn fmt<W: fmt::Write>(&self, f: &mut fmt::Formatter<W>) -> fmt::Result {
        match self.number {
            0 => write!(f, "no {}s", self.one),
            1 => write!(f, "1 {}", self.one),
            number => write!(f, "{number} {}s", self.one),
        }
    }
}

/// The errors in order, and a last line that counts errors and files. `judged` files were validated, and `unjudged`
/// files could not be. With colours paths are bold, and the words and marks of errors red. An error takes three lines
/// for each place, or a single one without a place. Of paths, messages and lines of files, characters that are not
/// printable are written as escapes, as `\u{1b}`, so that no file adds a line or has a command for a terminal.
///
/// # Errors
///
/// Out of memory.
pub fn text_report(
    alloc: Global,
    is_coloured: bool,
    sources: &[Source],
    issues: &[Issue],
    judged: usize,
    unjudged: usize,
) -> Result<String, OutOfMemory>
    ensures told { IfOk result (λ s. IsTextReport is_coloured sources.now issues.now judged unjudged (string_bytes s)) }
    ensures lines { IfOk result
        (λ s. HasLines is_coloured (sum_by issue_lines issues.now + 1) (string_bytes s)) }
{
    let mut text = String::new(alloc);
    for issue in issues {
        write_issue(&mut text, is_coloured, sources, issue)?;
    }
    let files = files_of(alloc, issues)?;
    write_last_line(&mut text, issues.len(), files, judged, unjudged)?;
    Ok(text)
}

/// Why files could not be judged: an error for each, in order, written as in [`text_report`].
///
/// # Errors
///
/// Out of memory.
pub fn faults_text(
    alloc: Global,
    is_coloured: bool,
    faults: &[Fault],
) -> Result<String, OutOfMemory>
    ensures told { IfOk result (λ s. AreFaultTexts is_coloured faults.now (string_bytes s)) }
    ensures lines { IfOk result (λ s. HasLines is_coloured (sum_by fault_lines faults.now) (string_bytes s)) }
{
    let mut text = String::new(alloc);
    for fault in faults {
        write_issue(
            &mut text,
            is_coloured,
            fault.sources.as_slice(),
            &fault.issue,
        )?;
    }
    Ok(text)
}

/// Appends an error: `path:line:column: error: message`, and below it a window of the line of that place with a mark
/// below the place. Each further place is a note in the same form. An error without a place has its path alone.
/// Line and column count from 1, the column in characters.
///
/// # Errors
///
/// Out of memory; `text` may be partly written.
pub fn write_issue(
    text: &mut String,
    is_coloured: bool,
    sources: &[Source],
    issue: &Issue,
) -> Result<(), OutOfMemory>
    ensures { OnOk result (Adds (IsIssueText is_coloured sources.now issue.now)
        (string_bytes text.old) (string_bytes text.new)) }
{
    let Some((first, others)) = issue.places.as_slice().split_first() else {
        write_path(text, is_coloured, path_of(sources, issue.file))?;
        text.push_str(": ")?;
        write_message(text, is_coloured, issue.message.as_str())?;
        return Ok(());
    };
    write_error(text, is_coloured, sources, *first, issue.message.as_str())?;
    write_notes(text, is_coloured, sources, others)
}

// An error at its first place.
fn write_error(
    text: &mut String,
    is_coloured: bool,
    sources: &[Source],
    place: Place,
    message: &str,
) -> Result<(), OutOfMemory>
    ensures { OnOk result
        (Adds (IsErrorText is_coloured sources.now place message.now) (string_bytes text.old) (string_bytes text.new)) }
{
    write_place(text, is_coloured, sources, place)?;
    write_message(text, is_coloured, message)?;
    write_line(text, is_coloured, sources, place)
}

// A note for each further place.
fn write_notes(
    text: &mut String,
    is_coloured: bool,
    sources: &[Source],
    places: &[Place],
) -> Result<(), OutOfMemory>
    ensures { OnOk result (Adds (AreNotes is_coloured sources.now places.now)
        (string_bytes text.old) (string_bytes text.new)) }
{
    for place in places {
        write_note(text, is_coloured, sources, *place)?;
    }
    Ok(())
}

fn write_note(
    text: &mut String,
    is_coloured: bool,
    sources: &[Source],
    place: Place,
) -> Result<(), OutOfMemory>
    ensures { OnOk result (Adds (IsNoteText is_coloured sources.now place)
        (string_bytes text.old) (string_bytes text.new)) }
{
    write_place(text, is_coloured, sources, place)?;
    text.push_str("note: also here\n")?;
    write_line(text, is_coloured, sources, place)
}

// What comes before a message: `path:line:column: `.
fn write_place(
    text: &mut String,
    is_coloured: bool,
    sources: &[Source],
    place: Place,
) -> Result<(), AllocError>
    ensures { OnOk result (string_bytes text.new ≡ string_bytes text.old ++ told_place is_coloured sources.now place) }
{
    write_path(text, is_coloured, path_of(sources, place.file))?;
    let (line, column) = (told_line(place), told_column(sources, place));
    write!(text, ":{line}:{column}: ")
}

// A path, which may be bold.
fn write_path(text: &mut String, is_coloured: bool, path: &str) -> Result<(), AllocError>
    ensures { OnOk result (string_bytes text.new ≡ string_bytes text.old ++ path_text is_coloured path.now) }
{
    text.push_str(bold(is_coloured))?;
    write_printed(text, path)?;
    text.push_str(plain(is_coloured))
}

// A message behind the word before it, and the end of its line.
fn write_message(text: &mut String, is_coloured: bool, message: &str) -> Result<(), AllocError>
    ensures { OnOk result (string_bytes text.new ≡ string_bytes text.old ++ message_text is_coloured message.now) }
{
    text.push_str(error_word(is_coloured))?;
    write_printed(text, message)?;
    text.push_str("\n")
}

/// The line of a place, counted from 1.
pub fn told_line(place: Place) -> usize
    ensures { result ≡ told_line place }
{
    place.position.line().saturating_add(1)
}

/// The column of a place, counted from 1 in characters.
pub fn told_column(sources: &[Source], place: Place) -> usize
    ensures { result ≡ told_column sources.now place }
{
    characters_before(text_of(sources, place.file), place.position).saturating_add(1)
}

// A window of the line of a place, and a mark below the place.
fn write_line(
    text: &mut String,
    is_coloured: bool,
    sources: &[Source],
    place: Place,
) -> Result<(), OutOfMemory>
    ensures { OnOk result (Adds (ShowsLine is_coloured sources.now place)
        (string_bytes text.old) (string_bytes text.new)) }
{
    let line = line_of(text_of(sources, place.file), place.position);
    let (before, rest) = split_at(line, place.position.column());
    write_window(text, is_coloured, before, rest)?;
    Ok(())
}

// The part of a line before a column, and the rest.
fn split_at(line: &str, column: usize) -> (&str, &str)
    ensures { IsSplitAt line.now column result.0.now result.1.now }
{
    if line.is_char_boundary(column) {
        (&line[..column], &line[column..])
    } else {
        (line, "")
    }
}

// `3 errors in 2 of 5 files`, and `no errors in 5 files`.
fn write_counts(
    text: &mut String,
    errors: usize,
    files: usize,
    judged: usize,
) -> Result<(), OutOfMemory>
    ensures { OnOk result (string_bytes text.new ≡ string_bytes text.old ++ counts_text errors files judged) }
{
    write!(text, "{} in ", Count::of(errors, "error"))?;
    if files > 0 {
        write!(text, "{files} of ")?;
    }
    write!(text, "{}", Count::of(judged, "file"))?;
    Ok(())
}

// `1 file not checked`.
fn write_unjudged(text: &mut String, unjudged: usize) -> Result<(), OutOfMemory>
    ensures { OnOk result (string_bytes text.new ≡ string_bytes text.old ++ unjudged_text unjudged) }
{
    write!(text, "{} not checked", Count::of(unjudged, "file"))?;
    Ok(())
}

// The counts, then the files that could not be validated; these alone if no file could.
fn write_summary(
    text: &mut String,
    errors: usize,
    files: usize,
    judged: usize,
    unjudged: usize,
) -> Result<(), OutOfMemory>
    ensures { OnOk result (string_bytes text.new ≡ string_bytes text.old ++ summary_text errors files judged unjudged) }
{
    if unjudged == 0 {
        write_counts(text, errors, files, judged)?;
        return Ok(());
    }
    if judged == 0 {
        write_unjudged(text, unjudged)?;
        return Ok(());
    }
    write_counts(text, errors, files, judged)?;
    text.push_str(", ")?;
    write_unjudged(text, unjudged)?;
    Ok(())
}

fn write_last_line(
    text: &mut String,
    errors: usize,
    files: usize,
    judged: usize,
    unjudged: usize,
) -> Result<(), OutOfMemory>
    ensures { OnOk result (string_bytes text.new ≡ string_bytes text.old ++ last_line errors files judged unjudged) }
{
    write_summary(text, errors, files, judged, unjudged)?;
    text.push('\n')?;
    Ok(())
}
