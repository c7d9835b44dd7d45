//! The files that arguments stand for.
ghost use Rattle.std.specs.Prelude.{◌≡◌, ◌∷◌, [], IfOk, OnOk, Some, string_bytes};
ghost use Rattle.std.specs.List.{list_any};
ghost use Rattle.std.specs.Str.{bytes_eq};
ghost use Rattle.lint_args.specs.Asks.{added_once, word_texts};
ghost use Rattle.lint_files.specs.Paths.{AddsEach, ArePathsOf, IsListing, StandsFor};

use crate::files::Inputs;
use std::alloc::{AllocError, Global};

/// The paths of the files that these arguments stand for, each once. A directory stands for the files that are listed
/// of it, in ascending order, and any other argument for itself. A directory without such files does so, too, since it
/// can't be read.
///
/// # Errors
///
/// Out of memory.
pub fn paths_of<I: Inputs>(
    alloc: Global,
    inputs: &I,
    arguments: &[&str],
) -> Result<Vec<String>, AllocError>
    ensures { IfOk result (λ paths. ArePathsOf (I.host inputs.now) arguments.now paths.items) }
{
    let mut paths = Vec::new(alloc);
    for argument in arguments {
        let stood = stood_for(alloc, inputs, argument)?;
        add_each(alloc, &mut paths, stood.as_slice())?;
    }
    Ok(paths)
}

// The paths that an argument stands for.
fn stood_for<I: Inputs>(
    alloc: Global,
    inputs: &I,
    argument: &str,
) -> Result<Vec<String>, AllocError>
    ensures { IfOk result (λ stood. StandsFor (I.host inputs.now) argument.now stood.items) }
{
    match inputs.list(alloc, argument)? {
        Some(listed) => in_order(alloc, argument, listed),
        None => itself(alloc, argument),
    }
}

fn in_order(
    alloc: Global,
    argument: &str,
    mut listed: Vec<String>,
) -> Result<Vec<String>, AllocError>
    ensures { IfOk result (λ stood. IsListing argument.now (Some listed.items) stood.items) }
{
    if listed.is_empty() {
        return itself(alloc, argument);
    }
    listed.sort()?;
    Ok(listed)
}

fn itself(alloc: Global, argument: &str) -> Result<Vec<String>, AllocError>
    ensures { IfOk result (λ stood. word_texts stood.items ≡ argument.now ∷ []) }
{
    let mut stood = Vec::new(alloc);
    stood.push(String::from_str(alloc, argument)?)?;
    Ok(stood)
}

// Adds each of some paths, unless it is there.
fn add_each(alloc: Global, paths: &mut Vec<String>, more: &[String]) -> Result<(), AllocError>
    ensures { OnOk result (AddsEach more.now paths.old.items paths.new.items) }
{
    for path in more {
        add_once(alloc, paths, path.as_str())?;
    }
    Ok(())
}

fn add_once(alloc: Global, paths: &mut Vec<String>, path: &str) -> Result<(), AllocError>
    ensures { OnOk result (word_texts paths.new.items ≡ added_once (word_texts paths.old.items) path.now) }
{
    if is_among(paths.as_slice(), path) {
        return Ok(());
    }
    let added = String::from_str(alloc, path)?;
    paths.push(added)?;
    Ok(())
}

fn is_among(paths: &[String], path: &str) -> bool
    ensures { result ≡ list_any (λ other. bytes_eq path.now (string_bytes other)) paths.now }
{
    paths.iter().any(|other| path == other.as_str())
}
