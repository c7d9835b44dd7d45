//! Errors as JSON: a list of `{ path, message, locations }`, where `path` is the path of a file. It is not the form in
//! which a server answers, whose `path` is a list of keys.
ghost use Rattle.std.specs.Prelude.{◌≡◌, ◌++◌, IfOk, OnOk, flat_map, string_bytes};
ghost use Rattle.json.specs.Layout.{pretty};
ghost use Rattle.lint_report.specs.Json.{fault_tokens, issue_tokens, json_text, location_tokens, locations_tokens};
ghost use Rattle.lint_report.specs.Json.{number_member, report_tokens, text_member, told_locations};

use crate::json_escapes::escaped;
use crate::text_report::{told_column, told_line};
use json::{Pretty, Token};
use language_types::error::OutOfMemory;
use lint_sources::faults::Fault;
use lint_sources::issues::Issue;
use lint_sources::sources::{Place, Source, path_of};
use std::alloc::{AllocError, Global};

/// The faults and then the errors, each in order, as a list of objects with `path`, `message` and `locations`. One with
/// places in several files has only those in the file with its `path`. Lines and columns count from 1, columns in
/// characters.
///
/// # Errors
///
/// Out of memory.
pub fn json_report(
    alloc: Global,
    faults: &[Fault],
    sources: &[Source],
    issues: &[Issue],
) -> Result<String, OutOfMemory>
    ensures { IfOk result (λ s. string_bytes s ≡ json_text faults.now sources.now issues.now) }
{
    let mut out = Pretty::new(alloc);
    write_report(alloc, &mut out, faults, sources, issues)?;
    let mut text = text_of(out);
    text.push('\n')?;
    Ok(escaped(alloc, text.as_str())?)
}

// The whole text, which is valid UTF-8.
fn text_of(out: Pretty) -> String
    ensures { string_bytes result ≡ pretty out }
{
    match String::from_utf8(out.into_inner()) {
        Ok(text) => text,
        Err(_) => unreachable!(),
    }
}

fn write_report(
    alloc: Global,
    out: &mut Pretty,
    faults: &[Fault],
    sources: &[Source],
    issues: &[Issue],
) -> Result<(), AllocError>
    ensures { OnOk result (out.new ≡ out.old ++ report_tokens faults.now sources.now issues.now) }
{
    out.token(Token::BeginArray)?;
    write_faults(alloc, out, faults)?;
    write_issues(alloc, out, sources, issues)?;
    out.token(Token::EndArray)?;
    Ok(())
}

fn write_faults(alloc: Global, out: &mut Pretty, faults: &[Fault]) -> Result<(), AllocError>
    ensures { OnOk result (out.new ≡ out.old ++ flat_map fault_tokens faults.now) }
{
    for fault in faults {
        write_issue(alloc, out, fault.sources.as_slice(), &fault.issue)?;
    }
    Ok(())
}

fn write_issues(
    alloc: Global,
    out: &mut Pretty,
    sources: &[Source],
    issues: &[Issue],
) -> Result<(), AllocError>
    ensures { OnOk result (out.new ≡ out.old ++ flat_map (issue_tokens sources.now) issues.now) }
{
    for issue in issues {
        write_issue(alloc, out, sources, issue)?;
    }
    Ok(())
}

fn write_issue(
    alloc: Global,
    out: &mut Pretty,
    sources: &[Source],
    issue: &Issue,
) -> Result<(), AllocError>
    ensures { OnOk result (out.new ≡ out.old ++ issue_tokens sources.now issue.now) }
{
    out.token(Token::BeginObject)?;
    write_text(out, "path", path_of(sources, issue.file))?;
    write_text(out, "message", issue.message.as_str())?;
    out.token(Token::Key("locations"))?;
    write_locations(alloc, out, sources, issue)?;
    out.token(Token::EndObject)?;
    Ok(())
}

fn write_text(out: &mut Pretty, name: &str, text: &str) -> Result<(), AllocError>
    ensures { OnOk result (out.new ≡ out.old ++ text_member name.now text.now) }
{
    out.token(Token::Key(name))?;
    out.token(Token::String(text))
}

// The places in the file of the error's path.
fn write_locations(
    alloc: Global,
    out: &mut Pretty,
    sources: &[Source],
    issue: &Issue,
) -> Result<(), AllocError>
    ensures { OnOk result (out.new ≡ out.old ++ locations_tokens sources.now issue.now.file issue.now.places.items) }
{
    out.token(Token::BeginArray)?;
    for place in issue.places.as_slice() {
        write_place(alloc, out, sources, issue.file, *place)?;
    }
    out.token(Token::EndArray)?;
    Ok(())
}

// A place, if it is in this file. Each place of a fault has a source of its own, so paths are compared.
fn write_place(
    alloc: Global,
    out: &mut Pretty,
    sources: &[Source],
    file: usize,
    place: Place,
) -> Result<(), AllocError>
    ensures { OnOk result (out.new ≡ out.old ++ told_locations sources.now file place) }
{
    if path_of(sources, place.file) != path_of(sources, file) {
        return Ok(());
    }
    write_location(alloc, out, sources, place)
}

// Line and column, counted from 1.
fn write_location(
    alloc: Global,
    out: &mut Pretty,
    sources: &[Source],
    place: Place,
) -> Result<(), AllocError>
    ensures { OnOk result (out.new ≡ out.old ++ location_tokens sources.now place) }
{
    out.token(Token::BeginObject)?;
    write_number(alloc, out, "line", told_line(place))?;
    write_number(alloc, out, "column", told_column(sources, place))?;
    out.token(Token::EndObject)?;
    Ok(())
}

fn write_number(alloc: Global, out: &mut Pretty, name: &str, value: usize) -> Result<(), AllocError>
    ensures { OnOk result (out.new ≡ out.old ++ number_member name.now value) }
{
    let digits = format!(in alloc; "{value}")?;
    out.token(Token::Key(name))?;
    out.token(Token::Number(digits.as_str()))
}
