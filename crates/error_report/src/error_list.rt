//! Errors as JSON: a list of `{ message, locations }`.
ghost use Rattle.std.specs.Prelude.{◌≡◌, ◌++◌, IfOk, OnOk, codes, string_bytes};
ghost use Rattle.json.specs.Layout.{pretty};
ghost use Rattle.error_report.specs.Json.{column_in, error_tokens, line_in, location_tokens, locations_tokens};
ghost use Rattle.error_report.specs.Json.{report_text, report_tokens};
ghost use Rattle.lint_report.specs.Json.{number_member, text_member};

use json::{Pretty, Token};
use language_types::error::OutOfMemory;
use language_types::position::SourcePosition;
use lint_report::json_escapes::escaped;
use lint_sources::text_places::characters_before;
use std::alloc::{AllocError, Global};
use walk::RuleError;

/// The errors of a text in order, as a list of objects with `message` and `locations`. Lines and columns count from 1,
/// columns in characters.
///
/// # Errors
///
/// Out of memory.
pub fn report(alloc: Global, text: &str, errors: &[RuleError]) -> Result<String, OutOfMemory>
    ensures { IfOk result (λ s. string_bytes s ≡ report_text text.now errors.now) }
{
    let mut out = Pretty::new(alloc);
    write_report(alloc, &mut out, text, errors)?;
    let mut written = text_of(out);
    written.push('\n')?;
    Ok(escaped(alloc, written.as_str())?)
}

// What was written, which is valid UTF-8.
fn text_of(out: Pretty) -> String
    ensures { string_bytes result ≡ pretty out }
{
    match String::from_utf8(out.into_inner()) {
        Ok(text) => text,
        Err(_) => unreachable!(),
    }
}

fn write_report(
    alloc: Global,
    out: &mut Pretty,
    text: &str,
    errors: &[RuleError],
) -> Result<(), AllocError>
    ensures { OnOk result (out.new ≡ out.old ++ report_tokens text.now errors.now) }
{
    out.token(Token::BeginArray)?;
    for error in errors {
        write_error(alloc, out, text, error)?;
    }
    out.token(Token::EndArray)?;
    Ok(())
}

fn write_error(
    alloc: Global,
    out: &mut Pretty,
    text: &str,
    error: &RuleError,
) -> Result<(), AllocError>
    ensures { OnOk result (out.new ≡ out.old ++ error_tokens text.now error.now) }
{
    out.token(Token::BeginObject)?;
    write_message(out, error.message())?;
    out.token(Token::Key("locations"))?;
    write_locations(alloc, out, text, error.locations())?;
    out.token(Token::EndObject)?;
    Ok(())
}

fn write_message(out: &mut Pretty, message: &str) -> Result<(), AllocError>
    ensures { OnOk result (out.new ≡ out.old ++ text_member (codes "message") message.now) }
{
    out.token(Token::Key("message"))?;
    out.token(Token::String(message))
}

fn write_locations(
    alloc: Global,
    out: &mut Pretty,
    text: &str,
    locations: &[SourcePosition],
) -> Result<(), AllocError>
    ensures { OnOk result (out.new ≡ out.old ++ locations_tokens text.now locations.now) }
{
    out.token(Token::BeginArray)?;
    for location in locations {
        write_location(alloc, out, text, *location)?;
    }
    out.token(Token::EndArray)?;
    Ok(())
}

fn write_location(
    alloc: Global,
    out: &mut Pretty,
    text: &str,
    location: SourcePosition,
) -> Result<(), AllocError>
    ensures { OnOk result (out.new ≡ out.old ++ location_tokens text.now location) }
{
    out.token(Token::BeginObject)?;
    write_number(alloc, out, "line", line_of(location))?;
    write_number(alloc, out, "column", column_of(text, location))?;
    out.token(Token::EndObject)?;
    Ok(())
}

// The line, counted from 1.
fn line_of(location: SourcePosition) -> usize
    ensures { result ≡ line_in location }
{
    location.line().saturating_add(1)
}

// The column, counted from 1 in characters.
fn column_of(text: &str, location: SourcePosition) -> usize
    ensures { result ≡ column_in text.now location }
{
    characters_before(text, location).saturating_add(1)
}

fn write_number(alloc: Global, out: &mut Pretty, name: &str, value: usize) -> Result<(), AllocError>
    ensures { OnOk result (out.new ≡ out.old ++ number_member name.now value) }
{
    let digits = format!(in alloc; "{value}")?;
    out.token(Token::Key(name))?;
    out.token(Token::Number(digits.as_str()))
}
