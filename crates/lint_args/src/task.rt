//! What the command line asks for.
ghost use Rattle.std.specs.Prelude.{◌≡◌, ◌+◌, ◌-◌, ◌^◌, IfErr, IfOk, OnOk, codes, cond, min};
ghost use Rattle.std.specs.List.{list_any};
ghost use Rattle.std.specs.Str.{bytes_eq};
ghost use Rattle.clap.specs.Walk.{first_of, texts};
ghost use Rattle.clap.specs.Words.{found_of, rows_of};
ghost use Rattle.lint_args.specs.Asks.{AsksFor, IsDepth, IsLimit, IsNumberOf, IsRefusal, added_once, distinct};
ghost use Rattle.lint_args.specs.Asks.{files_of};
ghost use Rattle.lint_args.specs.Asks.{form_of, input_count, inputs_among, is_input, is_value, word_texts};

use crate::command_line::command_line;
use clap::{ArgMatches, Error};
use std::alloc::{AllocError, Global};

/// The path of the standard input.
pub const INPUT: &str = "-";

/// How errors are printed.
#[derive(Clone, Copy, Debug, PartialEq, Eq)]
pub enum Form {
    /// With the line of each place.
    Text,
    /// As a list of objects.
    Json,
    /// As commands of a workflow of GitHub's.
    Github,
}

/// What the command line asks for.
#[derive(Drop)]
pub struct Task<'w> {
    /// The files of the schema, each once.
    pub schemas: Vec<&'w str>,
    /// The files of queries, which are validated, each once.
    pub queries: Vec<&'w str>,
    /// The file of values of variables, if there is one.
    pub variables: Option<&'w str>,
    /// How errors are printed.
    pub form: Form,
    /// Whether introspection is an error.
    pub is_closed: bool,
    /// Whether all files of queries are one document.
    pub is_together: bool,
    /// How deep a document may nest, if there is a limit.
    pub max_depth: Option<usize>,
    /// How many errors of a document are reported at most, or 0 for all.
    pub max_errors: usize,
    /// Whether queries are judged by juniper's dialect, and not by that of October 2021.
    pub is_juniper: bool,
}

impl<'w> Task<'w> {
    /// What these words ask for. The first word is the program's own name.
    ///
    /// # Errors
    ///
    /// The words are invalid arguments or ask for help, as the error says, or out of memory.
    pub fn of(alloc: Global, words: &'w [String]) -> Result<Task<'w>, Error>
        ensures asked { IfOk result (AsksFor (word_texts words.now)) }
        ensures refused { IfErr result (IsRefusal (word_texts words.now)) }
    {
        let matches = command_line(alloc)?.try_get_matches_from(words)?;
        Ok(Task {
            schemas: files_of(alloc, &matches, "schema")?,
            queries: files_of(alloc, &matches, "query")?,
            variables: matches.get_str("variables"),
            form: form_of(&matches),
            is_closed: is_value(&matches, "closed", "true"),
            is_together: is_value(&matches, "together", "true"),
            max_depth: depth_of(&matches),
            max_errors: limit_of(&matches),
            is_juniper: is_value(&matches, "dialect", "juniper"),
        })
    }

    /// How often the standard input is named, up to `usize::MAX`.
    pub fn inputs(&self) -> usize
        ensures { result ≡ min (input_count self.now) (2 ^ 64 - 1) }
    {
        let files = inputs_among(self.schemas.as_slice(), 0);
        let files = inputs_among(self.queries.as_slice(), files);
        match self.variables {
            Some(path) => inputs_with(path, files),
            None => files,
        }
    }
}

// The files that an argument names, each once.
fn files_of<'w>(
    alloc: Global,
    matches: &ArgMatches<'w>,
    id: &str,
) -> Result<Vec<&'w str>, AllocError>
    ensures { IfOk result (λ files. texts files.items ≡ files_of id.now (rows_of (found_of matches.now))) }
{
    distinct(alloc, matches.get_strs(id).unwrap_or(&[]))
}

// Each of some paths once.
fn distinct<'w>(alloc: Global, paths: &[&'w str]) -> Result<Vec<&'w str>, AllocError>
    ensures { IfOk result (λ files. texts files.items ≡ distinct (texts paths.now)) }
{
    let mut files = Vec::new(alloc);
    for path in paths {
        add_once(&mut files, *path)?;
    }
    Ok(files)
}

// Adds a path, unless it is there.
fn add_once<'w>(files: &mut Vec<&'w str>, path: &'w str) -> Result<(), AllocError>
    ensures { OnOk result (texts files.new.items ≡ added_once (texts files.old.items) path.now) }
{
    if is_among(files.as_slice(), path) {
        return Ok(());
    }
    files.push(path)?;
    Ok(())
}

fn is_among(files: &[&str], path: &str) -> bool
    ensures { result ≡ list_any (λ file. bytes_eq path.now file.now) files.now }
{
    for file in files {
        if path == *file {
            return true;
        }
    }
    false
}

// The form that is asked for.
fn form_of(matches: &ArgMatches<'_>) -> Form
    ensures { result ≡ form_of (rows_of (found_of matches.now)) }
{
    if is_value(matches, "format", "json") {
        Form::Json
    } else if is_value(matches, "format", "github") {
        Form::Github
    } else {
        Form::Text
    }
}

// Whether an argument has this value. A flag that is set has the value `true`.
fn is_value(matches: &ArgMatches<'_>, id: &str, value: &str) -> bool
    ensures { result ≡ is_value id.now value.now (rows_of (found_of matches.now)) }
{
    matches.get_str(id) == Some(value)
}

// The greatest depth, if one is given.
fn depth_of(matches: &ArgMatches<'_>) -> Option<usize>
    ensures { IsDepth (first_of (codes "depth") (rows_of (found_of matches.now))) result }
{
    match matches.get_str("depth") {
        Some(text) => number_of(text),
        None => None,
    }
}

// How many errors are reported at most, or 0 for all.
fn limit_of(matches: &ArgMatches<'_>) -> usize
    ensures { IsLimit (first_of (codes "errors") (rows_of (found_of matches.now))) result }
{
    match matches.get_str("errors") {
        Some(text) => number_of(text).unwrap_or(0),
        None => 0,
    }
}

// The number that a text writes, if it writes one.
fn number_of(text: &str) -> Option<usize>
    ensures { IsNumberOf text.now result }
{
    match text.parse::<usize>() {
        Ok(number) => Some(number),
        Err(_) => None,
    }
}

// One more if the path is the standard input.
fn inputs_with(path: &str, before: usize) -> usize
    ensures { result ≡ min (before + cond (is_input path.now) 1 0) (2 ^ 64 - 1) }
{
    if path == INPUT {
        before.saturating_add(1)
    } else {
        before
    }
}

// The number before plus the number of paths that are the standard input.
fn inputs_among(paths: &[&str], before: usize) -> usize
    ensures { result ≡ min (before + inputs_among paths.now) (2 ^ 64 - 1) }
{
    let mut found = before;
    for path in paths {
        found = inputs_with(*path, found);
    }
    found
}
