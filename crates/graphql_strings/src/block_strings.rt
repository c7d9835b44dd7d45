//! The values of block strings (GraphQL, October 2021, section 2.9.4).
ghost use Rattle.std.specs.Prelude.{◌≡◌, ◌≤◌, ◌<◌, ◌+◌, ◌++◌, ◌==◌, ◌&&◌, ◌∷◌, true, false, if◌then◌else◌, Some};
ghost use Rattle.std.specs.Prelude.{length, take, drop, map, IfOk, OnOk, string_bytes, slice_index};
ghost use Rattle.std.specs.List.{list_all, prefix_len};
ghost use Rattle.graphql_strings.specs.BlockScanning.{LinesRead, LineAt, left_of, lesser};
ghost use Rattle.graphql_strings.specs.BlockStrings as spec;
ghost use Rattle.graphql_strings.specs.Characters.{is_line_end as line_end};

use crate::parts::{part, rest};
use language_types::error::OutOfMemory;
use std::alloc::Global;

/// The value of a block string, given the text between its quotes (section 2.9.4).
///
/// The common indentation of all lines but the first is removed, and so are blank lines at both ends. Lines end with
/// line feeds.
///
/// # Errors
///
/// Out of memory.
pub fn block_string_value(alloc: Global, raw: &str) -> Result<String, OutOfMemory>
    ensures { IfOk result (λ s. string_bytes s ≡ spec.block_string_value raw.now) }
{
    let all = lines_of(alloc, raw)?;
    let lines = all.as_slice();
    let indent = common_indent(lines);
    let first = first_written(lines);
    let stop = after_last_written(lines);
    let mut text = String::new(alloc);
    for index in first..stop {
        let line = unindented(lines[index], index, indent);
        write_next(&mut text, line, index == first)?;
    }
    Ok(text)
}

// The lines of a text, without their line terminators.
fn lines_of(alloc: Global, raw: &str) -> Result<Vec<&str>, OutOfMemory>
    ensures { IfOk result (λ ls. map (λ l. l.now) ls.items ≡ spec.lines raw.now) }
{
    let mut lines = Vec::new(alloc);
    let mut start: usize = 0;
    let mut after_return = false;
    let stop = raw.len();
    for index in 0..stop {
        start = end_line(&mut lines, raw, start, index, after_return)?;
        after_return = raw.as_bytes()[index] == b'\r';
    }
    let last = part(raw, start, stop);
    lines.push(last)?;
    Ok(lines)
}

// Ends the line at an index if a line ends there, and returns where the next line starts. A line feed after a carriage
// return ends no line.
fn end_line<'a>(
    lines: &mut Vec<&'a str>,
    raw: &'a str,
    start: usize,
    index: usize,
    after_return: bool,
) -> Result<usize, OutOfMemory>
    requires within { index < length raw.now }
    requires read { LinesRead raw.now index after_return start (map (λ l. l.now) lines.old.items) }
    ensures { IfOk result (λ next. LinesRead raw.now (index + 1) (slice_index raw.now index == 13) next
        (map (λ l. l.now) lines.new.items)) }
{
    let byte = raw.as_bytes()[index];
    if !is_line_end(byte) {
        return Ok(start);
    }
    if is_second_half(after_return, byte) {
        return Ok(index + 1);
    }
    let line = part(raw, start, index);
    lines.push(line)?;
    Ok(index + 1)
}

fn is_line_end(byte: u8) -> bool
    ensures { result ≡ line_end byte }
{
    byte == b'\n' || byte == b'\r'
}

fn is_second_half(after_return: bool, byte: u8) -> bool
    ensures { result ≡ (after_return && (byte == 10)) }
{
    after_return && byte == b'\n'
}

// The common indentation of all lines that are not blank, except the first line.
fn common_indent(lines: &[&str]) -> usize
    ensures { result ≡ spec.common_indent (drop 1 (map (λ l. l.now) lines.now)) }
{
    let others = lines.get(1..).unwrap_or(&[]);
    let mut common: Option<usize> = None;
    for line in others {
        common = lesser_indent(common, line);
    }
    common.unwrap_or(0)
}

// The lesser of the indentations, or the one before if the line is blank.
fn lesser_indent(before: Option<usize>, line: &str) -> Option<usize>
    ensures blank { spec.is_blank_line line.now ≡ true → result ≡ before }
    ensures written { spec.is_blank_line line.now ≡ false
        → result ≡ Some (lesser before (spec.indent line.now)) }
{
    if is_blank_line(line) {
        return before;
    }
    let own = indent(line);
    match before {
        Some(least) => Some(least.min(own)),
        None => Some(own),
    }
}

fn indent(line: &str) -> usize
    ensures exact { result ≡ spec.indent line.now }
    ensures within { result ≤ length line.now }
{
    line.as_bytes()
        .iter()
        .take_while(|byte| is_white(**byte))
        .count()
}

fn is_white(byte: u8) -> bool
    ensures { result ≡ spec.is_white byte }
{
    byte == b' ' || byte == b'\t'
}

#[tactic(auto, using(crate::proofs::BlockLaws::all_white))]
fn is_blank_line(line: &str) -> bool
    ensures { result ≡ spec.is_blank_line line.now }
{
    indent(line) == line.len()
}

// The index of the first line that is not blank, or the number of lines.
fn first_written(lines: &[&str]) -> usize
    ensures exact { result ≡ prefix_len (λ l. spec.is_blank_line l.now) lines.now }
    ensures within { result ≤ length lines.now }
{
    lines.iter().take_while(|line| is_blank_line(line)).count()
}

// The index after the last line that is not blank, or 0.
fn after_last_written(lines: &[&str]) -> usize
    ensures exact { result ≡ length (spec.without_last_blanks (map (λ l. l.now) lines.now)) }
    ensures within { result ≤ length lines.now }
{
    let mut stop = lines.len();
    while stop > 0 {
        let line = lines[stop - 1];
        if !is_blank_line(line) {
            return stop;
        }
        stop -= 1;
    }
    0
}

// A line without the common indentation, which the first line keeps.
fn unindented(line: &str, index: usize, indent: usize) -> &str
    requires { 0 < index → list_all spec.is_white (take indent line.now) ≡ true }
    ensures { result.now ≡ (if index == 0 then line.now else drop indent line.now) }
{
    if index == 0 {
        return line;
    }
    match line.get(indent..) {
        Some(kept) => kept,
        None => "",
    }
}

// Writes a line, which a line feed sets off from the line before.
fn write_next(text: &mut String, line: &str, is_first: bool) -> Result<(), OutOfMemory>
    ensures { OnOk result (string_bytes text.new ≡ string_bytes text.old
        ++ (if is_first then spec.unescaped line.now else 10 ∷ spec.unescaped line.now)) }
{
    if is_first {
        return write_line(text, line);
    }
    text.push('\n')?;
    write_line(text, line)
}

// Writes a line, in which an escaped triple quote stands for three quotes.
fn write_line(text: &mut String, line: &str) -> Result<(), OutOfMemory>
    ensures { OnOk result (string_bytes text.new ≡ string_bytes text.old ++ spec.unescaped line.now) }
{
    let mut start: usize = 0;
    let stop = line.len();
    for index in 0..stop {
        start = write_before(text, line, start, index)?;
    }
    let last = part(line, start, stop);
    text.push_str(last)?;
    Ok(())
}

// Writes what stands before a backslash at an index, if it escapes three quotes, and returns where the rest starts.
fn write_before(
    text: &mut String,
    line: &str,
    start: usize,
    index: usize,
) -> Result<usize, OutOfMemory>
    requires within { index < length line.now }
    requires placed { LineAt line.now index start }
    ensures placed { IfOk result (λ next. LineAt line.now (index + 1) next) }
    ensures written { IfOk result (λ next. string_bytes text.new ++ left_of line.now (index + 1) next
        ≡ string_bytes text.old ++ left_of line.now index start) }
{
    if !rest(line.as_bytes(), index).starts_with(b"\\\"\"\"") {
        return Ok(start);
    }
    let front = part(line, start, index);
    text.push_str(front)?;
    Ok(index + 1)
}
