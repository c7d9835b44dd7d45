//! The type definitions of several files as one text.
ghost use Rattle.std.specs.Prelude.{◌≤◌, OnOk, length};

use crate::faults::add_file_fault;
use graphql_reader::type_system::TypeSystemDefinition;
use graphql_reader::{ReadError, read_type_system};
use introspection::{IntrospectionError, schema_text};
use language_types::error::OutOfMemory;
use language_types::position::Span;
use lint_sources::faults::Fault;
use lint_sources::json_text::{check_syntax, is_object_text, without_mark};
use lint_sources::sources::{Joined, Place, Source, path_of, text_of};
use std::alloc::Global;
use std::fmt;

/// The type definitions of several files.
#[derive(Drop)]
pub struct Definitions {
    /// All of them as one text.
    pub joined: Joined,
    // Where the text of each file ends in it, in bytes.
    ends: Vec<usize>,
}

/// The type definitions of all files. An introspection result that has none is a fault. Whether the other files are
/// definitions is looked at only where there is a fault: then the syntax error of each is one, too, in the order of the
/// files.
///
/// # Errors
///
/// Out of memory; some of the faults may be added then.
pub fn definitions_of(
    alloc: Global,
    sources: &[Source],
    faults: &mut Vec<Fault>,
) -> Result<Definitions, OutOfMemory> {
    let mut joined = Joined::new(alloc);
    let mut ends = Vec::new(alloc);
    for file in 0..sources.len() {
        add_file(alloc, sources, file, &mut joined, faults)?;
        ends.push(joined.text().len())?;
    }
    Ok(Definitions { joined, ends })
}

// Adds the definitions of a file.
fn add_file(
    alloc: Global,
    sources: &[Source],
    file: usize,
    joined: &mut Joined,
    faults: &mut Vec<Fault>,
) -> Result<(), OutOfMemory> {
    if is_object_text(text_of(sources, file)) {
        return add_result(alloc, sources, file, joined, faults);
    }
    if !faults.is_empty() {
        check_definitions(alloc, sources, file, faults)?;
    }
    joined.add(file, text_of(sources, file))
}

// Adds the definitions of an introspection result.
fn add_result(
    alloc: Global,
    sources: &[Source],
    file: usize,
    joined: &mut Joined,
    faults: &mut Vec<Fault>,
) -> Result<(), OutOfMemory> {
    let text = text_of(sources, file);
    if let Err(error) = check_syntax(alloc, text) {
        let Some(position) = error.position() else {
            return Err(OutOfMemory);
        };
        add_earlier(alloc, sources, file, faults)?;
        return add_fault(alloc, sources, Place { file, position }, &error, faults);
    }
    match schema_text(alloc, without_mark(text)) {
        Ok(definitions) => joined.add(file, definitions.as_str()),
        Err(IntrospectionError::OutOfMemory) => Err(OutOfMemory),
        Err(error) => {
            add_earlier(alloc, sources, file, faults)?;
            add_file_fault(alloc, path_of(sources, file), &error, faults)
        }
    }
}

// Adds the syntax errors of the files before this one, unless they were looked at, since there was a fault.
fn add_earlier(
    alloc: Global,
    sources: &[Source],
    file: usize,
    faults: &mut Vec<Fault>,
) -> Result<(), OutOfMemory> {
    match sources.get(..file) {
        Some(earlier) if faults.is_empty() => add_syntax_faults(alloc, earlier, faults),
        _ => Ok(()),
    }
}

/// Adds the syntax error of each file that is no type definitions by itself. Introspection results are passed.
///
/// # Errors
///
/// Out of memory; some of the faults may be added then.
pub fn add_syntax_faults(
    alloc: Global,
    sources: &[Source],
    faults: &mut Vec<Fault>,
) -> Result<(), OutOfMemory>
    ensures { OnOk result (length faults.old.items ≤ length faults.new.items) }
{
    for file in 0..sources.len() {
        if !is_object_text(text_of(sources, file)) {
            check_definitions(alloc, sources, file, faults)?;
        }
    }
    Ok(())
}

// Adds the syntax error of a file, if it has one.
fn check_definitions(
    alloc: Global,
    sources: &[Source],
    file: usize,
    faults: &mut Vec<Fault>,
) -> Result<(), OutOfMemory>
    ensures { OnOk result (length faults.old.items ≤ length faults.new.items) }
{
    match read_type_system(alloc, text_of(sources, file)) {
        Ok(_) => Ok(()),
        Err(ReadError::Syntax(error)) => {
            let position = error.position;
            add_fault(alloc, sources, Place { file, position }, &error, faults)
        }
        Err(ReadError::OutOfMemory) => Err(OutOfMemory),
    }
}

fn add_fault<M: fmt::Display>(
    alloc: Global,
    sources: &[Source],
    place: Place,
    message: &M,
    faults: &mut Vec<Fault>,
) -> Result<(), OutOfMemory>
    ensures { OnOk result (length faults.old.items ≤ length faults.new.items) }
{
    faults.push(Fault::at(alloc, sources, place, message)?)?;
    Ok(())
}

impl Definitions {
    /// Whether the definitions that were read of the whole text are those of the files: none reaches from one file into
    /// the next, and each file of definitions has one, as it must have by itself.
    pub fn are_of_files(&self, sources: &[Source], document: &[TypeSystemDefinition<'_>]) -> bool {
        let mut next: usize = 0;
        for definition in document {
            let (first, last) = self.files_at(span_of(definition));
            if first != last || !are_results(sources, next, first) {
                return false;
            }
            next = first.saturating_add(1);
        }
        are_results(sources, next, sources.len())
    }

    // The files of the first and of the last byte of a part of the text.
    fn files_at(&self, span: Span) -> (usize, usize) {
        let (start, end) = (span.start.index(), span.end.index());
        let ends = self.ends.as_slice();
        let first = ends.partition_point(|file_end| *file_end <= start);
        let last = ends.partition_point(|file_end| *file_end < end);
        (first, last)
    }
}

// Whether these files, counted up to an end, are introspection results, which may have no definition.
fn are_results(sources: &[Source], start: usize, end: usize) -> bool {
    for file in start..end {
        if !is_object_text(text_of(sources, file)) {
            return false;
        }
    }
    true
}

fn span_of(definition: &TypeSystemDefinition<'_>) -> Span {
    match definition {
        TypeSystemDefinition::Schema(defined) => defined.span,
        TypeSystemDefinition::Type(defined) => defined.span,
        TypeSystemDefinition::Directive(defined) => defined.span,
    }
}
