//! Files by their paths.
ghost use Rattle.std.specs.Prelude.{◌≡◌, ◌++◌, IfOk, IfSome, OnOk};
ghost use Rattle.std.specs.Option.{option_to_list};
ghost use Rattle.lint_files.specs.Read.{AreReadOf, HasText, IsFileOf, IsJoined};

use crate::colours::Colours;
use crate::failure::Failure;
use language_types::error::OutOfMemory;
use lint_sources::faults::Fault;
use lint_sources::sources::{Joined, Place, Source};
use lint_sources::text_places::position_at;
use std::alloc::{AllocError, Global};
use std::{fmt, io, str};

const WITHOUT_FILES: &str = "no .graphql or .gql files, or the directory can't be listed";

/// What a run finds outside: files, and which streams show colours.
pub trait Inputs {
    ghost use Rattle.std.specs.Prelude.{option_map};
    ghost use Rattle.lint_args.specs.Asks.{word_texts};
    ghost use Rattle.lint_files.specs.Host.{Host, no_colours, unknown_host};

    // What is known of it.
    ghost host: { Self → Host } = { λ _. unknown_host no_colours };

    /// The bytes of the file at a path.
    ///
    /// # Errors
    ///
    /// The file can't be read, or out of memory.
    fn read(&self, alloc: Global, path: &str) -> io::Result<Vec<u8>>
        ensures { IfOk result (λ bytes. IfSome ((host self.now).file path.now) (λ known. bytes.items ≡ known)) };

    /// The paths of all `.graphql` and `.gql` files below a directory, in any order, or `None` if the path is no
    /// directory. A directory that can't be listed is among them.
    ///
    /// # Errors
    ///
    /// Out of memory.
    fn list(&self, alloc: Global, path: &str) -> Result<Option<Vec<String>>, AllocError>
        ensures { IfOk result (λ listed. IfSome ((host self.now).below path.now)
            (λ known. option_map (λ paths. word_texts paths.items) listed ≡ known)) };

    /// Which streams show colours.
    fn colours(&self) -> Colours
        ensures { result ≡ (host self.now).colours };
}

/// The files at these paths that can be read. Why the others can't be read goes to `faults`.
///
/// # Errors
///
/// Out of memory.
pub fn read_sources<I: Inputs>(
    alloc: Global,
    inputs: &I,
    paths: &[String],
    faults: &mut Vec<Fault>,
) -> Result<Vec<Source>, Failure>
    ensures { IfOk result (λ sources. AreReadOf (I.host inputs.now) paths.now sources.items) }
{
    let mut sources = Vec::new(alloc);
    for path in paths {
        let read = read_source(alloc, inputs, path.as_str(), faults)?;
        add_read(&mut sources, read)?;
    }
    Ok(sources)
}

fn add_read(sources: &mut Vec<Source>, read: Option<Source>) -> Result<(), Failure>
    ensures { OnOk result (sources.new.items ≡ sources.old.items ++ option_to_list read) }
{
    if let Some(source) = read {
        sources.push(source)?;
    }
    Ok(())
}

/// The file at this path. Why it can't be read goes to `faults`.
///
/// # Errors
///
/// The file can't be read, which has been told, or out of memory.
pub fn read_file<I: Inputs>(
    alloc: Global,
    inputs: &I,
    path: &str,
    faults: &mut Vec<Fault>,
) -> Result<Source, Failure> {
    match inputs.read(alloc, path) {
        Ok(bytes) => match source_of(alloc, path, bytes, faults)? {
            Some(source) => Ok(source),
            None => Err(Failure::Told),
        },
        Err(error) => Err(told_file_fault(alloc, path, &error, faults)),
    }
}

// The file at a path that an argument stands for, if it can be read.
fn read_source<I: Inputs>(
    alloc: Global,
    inputs: &I,
    path: &str,
    faults: &mut Vec<Fault>,
) -> Result<Option<Source>, Failure>
    ensures { IfOk result (λ read. IfSome read (IsFileOf (I.host inputs.now) path.now)) }
{
    match inputs.read(alloc, path) {
        Ok(bytes) => source_of(alloc, path, bytes, faults),
        Err(error) => {
            faults.push(Fault::new(alloc, path, "", None, &unread(error))?)?;
            Ok(None)
        }
    }
}

// Why a file can't be read. A directory is only read where it has no files to list, or can't be listed.
fn unread(error: io::Error) -> io::Error {
    match error.kind() {
        io::ErrorKind::IsADirectory => io::Error::new(error.kind(), WITHOUT_FILES),
        _ => error,
    }
}

// The file of these bytes, which become its text without a copy.
fn source_of(
    alloc: Global,
    path: &str,
    bytes: Vec<u8>,
    faults: &mut Vec<Fault>,
) -> Result<Option<Source>, Failure>
    ensures { IfOk result (λ read. IfSome read (HasText path.now bytes.items)) }
{
    match String::from_utf8(bytes) {
        Ok(text) => {
            let path = String::from_str(alloc, path)?;
            Ok(Some(Source { path, text }))
        }
        Err(error) => {
            let valid = error.utf8_error().valid_up_to();
            faults.push(encoding_fault(alloc, path, error.as_bytes(), valid)?)?;
            Ok(None)
        }
    }
}

// That a file is not UTF-8. Its text is known up to there.
fn encoding_fault(
    alloc: Global,
    path: &str,
    bytes: &[u8],
    valid: usize,
) -> Result<Fault, OutOfMemory> {
    let text = str::from_utf8(bytes.get(..valid).unwrap_or(bytes)).unwrap_or("");
    let position = position_at(bytes, valid);
    Fault::new(alloc, path, text, Some(position), &"not valid UTF-8")
}

/// Adds a fault at a place of one of several files.
///
/// # Errors
///
/// Out of memory.
pub fn add_fault<M: fmt::Display>(
    alloc: Global,
    sources: &[Source],
    place: Place,
    message: &M,
    faults: &mut Vec<Fault>,
) -> Result<(), OutOfMemory> {
    faults.push(Fault::at(alloc, sources, place, message)?)?;
    Ok(())
}

/// The same, and returns that it was told, or out of memory.
pub fn told_fault<M: fmt::Display>(
    alloc: Global,
    sources: &[Source],
    place: Place,
    message: &M,
    faults: &mut Vec<Fault>,
) -> Failure {
    match add_fault(alloc, sources, place, message, faults) {
        Ok(()) => Failure::Told,
        Err(OutOfMemory) => Failure::OutOfMemory,
    }
}

/// Adds a fault of a file as a whole, and returns that it was told, or out of memory.
pub fn told_file_fault<M: fmt::Display>(
    alloc: Global,
    path: &str,
    message: &M,
    faults: &mut Vec<Fault>,
) -> Failure {
    match add_file_fault(alloc, path, message, faults) {
        Ok(()) => Failure::Told,
        Err(OutOfMemory) => Failure::OutOfMemory,
    }
}

fn add_file_fault<M: fmt::Display>(
    alloc: Global,
    path: &str,
    message: &M,
    faults: &mut Vec<Fault>,
) -> Result<(), OutOfMemory> {
    faults.push(Fault::new(alloc, path, "", None, message)?)?;
    Ok(())
}

/// All files as one text.
///
/// # Errors
///
/// Out of memory.
pub fn joined_of(alloc: Global, sources: &[Source]) -> Result<Joined, Failure>
    ensures { IfOk result (IsJoined 0 sources.now) }
{
    let mut joined = Joined::new(alloc);
    for (file, source) in sources.iter().enumerate() {
        joined.add(file, source.text.as_str())?;
    }
    Ok(joined)
}
