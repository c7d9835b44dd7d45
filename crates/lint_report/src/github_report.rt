//! Errors as commands of a workflow of GitHub's, which shows each at its place.
ghost use Rattle.std.specs.Prelude.{◌≡◌, ◌++◌, IfOk, OnOk, flat_map, string_bytes};
ghost use Rattle.lint_report.specs.Github.{fault_command, github_text, issue_command, message_character, message_text};
ghost use Rattle.lint_report.specs.Github.{place_properties, property_character, property_text};

use crate::text_report::{told_column, told_line};
use language_types::error::OutOfMemory;
use lint_sources::faults::Fault;
use lint_sources::issues::Issue;
use lint_sources::sources::{Place, Source, path_of};
use std::alloc::{AllocError, Global};

/// The faults and then the errors, each in order and each in a line as `::error file=path,line=1,col=1::message`. Of an
/// error with several places it has the first.
///
/// # Errors
///
/// Out of memory.
pub fn github_report(
    alloc: Global,
    faults: &[Fault],
    sources: &[Source],
    issues: &[Issue],
) -> Result<String, OutOfMemory>
    ensures { IfOk result (λ s. string_bytes s ≡ github_text faults.now sources.now issues.now) }
{
    let mut text = String::new(alloc);
    write_faults(&mut text, faults)?;
    write_issues(&mut text, sources, issues)?;
    Ok(text)
}

fn write_faults(text: &mut String, faults: &[Fault]) -> Result<(), AllocError>
    ensures { OnOk result (string_bytes text.new ≡ string_bytes text.old ++ flat_map fault_command faults.now) }
{
    for fault in faults {
        write_issue(text, fault.sources.as_slice(), &fault.issue)?;
    }
    Ok(())
}

fn write_issues(text: &mut String, sources: &[Source], issues: &[Issue]) -> Result<(), AllocError>
    ensures { OnOk result
        (string_bytes text.new ≡ string_bytes text.old ++ flat_map (issue_command sources.now) issues.now) }
{
    for issue in issues {
        write_issue(text, sources, issue)?;
    }
    Ok(())
}

fn write_issue(text: &mut String, sources: &[Source], issue: &Issue) -> Result<(), AllocError>
    ensures { OnOk result (string_bytes text.new ≡ string_bytes text.old ++ issue_command sources.now issue.now) }
{
    text.push_str("::error file=")?;
    write_property(text, path_of(sources, issue.file))?;
    write_place(text, sources, issue.places.as_slice())?;
    text.push_str("::")?;
    write_message(text, issue.message.as_str())?;
    text.push_str("\n")?;
    Ok(())
}

// Line and column of the first place, if there is one.
fn write_place(text: &mut String, sources: &[Source], places: &[Place]) -> Result<(), AllocError>
    ensures { OnOk result (string_bytes text.new ≡ string_bytes text.old ++ place_properties sources.now places.now) }
{
    match places.first() {
        Some(place) => write!(
            text,
            ",line={},col={}",
            told_line(*place),
            told_column(sources, *place)
        ),
        None => Ok(()),
    }
}

fn write_message(text: &mut String, message: &str) -> Result<(), AllocError>
    ensures { OnOk result (string_bytes text.new ≡ string_bytes text.old ++ message_text message.now) }
{
    for character in message.chars() {
        write_message_character(text, character)?;
    }
    Ok(())
}

fn write_property(text: &mut String, value: &str) -> Result<(), AllocError>
    ensures { OnOk result (string_bytes text.new ≡ string_bytes text.old ++ property_text value.now) }
{
    for character in value.chars() {
        write_property_character(text, character)?;
    }
    Ok(())
}

fn write_message_character(text: &mut String, character: char) -> Result<(), AllocError>
    ensures { OnOk result (string_bytes text.new ≡ string_bytes text.old ++ message_character character) }
{
    match character {
        '%' => text.push_str("%25"),
        '\r' => text.push_str("%0D"),
        '\n' => text.push_str("%0A"),
        _ => text.push(character),
    }
}

fn write_property_character(text: &mut String, character: char) -> Result<(), AllocError>
    ensures { OnOk result (string_bytes text.new ≡ string_bytes text.old ++ property_character character) }
{
    match character {
        ':' => text.push_str("%3A"),
        ',' => text.push_str("%2C"),
        _ => write_message_character(text, character),
    }
}
