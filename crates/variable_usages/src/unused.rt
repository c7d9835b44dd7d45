//! Variables that are defined but not used (section 5.8.4).
ghost use Rattle.std.specs.Prelude.{◌≡◌, ◌≤◌, ◌++◌, ◌↔◌, ℕ, List, Option, IfOk, IsTrue, OnOk, map, option_copied};
ghost use Rattle.std.specs.List.{Contains};
ghost use Rattle.fragment_reach.specs.Reach.{operation};
ghost use Rattle.operation_scopes.specs.Places.{places_of};
ghost use Rattle.operation_scopes.specs.Searches.{IsReady};
ghost use Rattle.variable_usages.specs.DocumentIndex.{IsDocumentIndex, MayReach};
ghost use Rattle.variable_usages.specs.InReachUses.{AddsPart};
ghost use Rattle.variable_usages.specs.Names.{has_name};
ghost use Rattle.variable_usages.specs.Unused.{AddsVariable, DefinesNone, StartBy, UnusedAmong, UnusedIn};
ghost use Rattle.variable_usages.specs.Unused.{UnusedVariables, name_and_span, unused_by, unused_of, variable_at};

use crate::document_index::{DocumentIndex, index_document};
use crate::names::{is_named, used_names, variables};
use crate::uses::{UseSearch, VariableUse, new_use_search, reached_uses};
use fragment_graph::numbers::number_names;
use language::error::OutOfMemory;
use language::position::{Span, Spanning};
use language::tree::{Document, VariableDefinition};
use operation_scopes::index::{last_operation, operation_places};
use std::alloc::Global;
use std::collections::BTreeSet;

/// A variable that an operation defines and does not use.
#[derive(Clone, Copy, Debug)]
pub struct UnusedVariable<'a> {
    /// The name of the variable, without the dollar sign.
    pub name: &'a str,
    /// The range of the variable in its definition.
    pub span: Span,
    /// The name of the operation.
    pub operation: Option<&'a str>,
}

// The name of a variable, and its range.
#[derive(Clone, Copy, Debug)]
struct Variable<'a> {
    name: &'a str,
    span: Span,
}

// Whether both have the same name and span.
fn is_same(a: &Variable<'_>, b: &Spanning<&str>) -> bool
    ensures { IsTrue result ↔ (name_and_span a.now ≡ variable_at b.now) }
{
    a.name == b.item && a.span == b.span
}

// Whether one of these has the name and the span of this variable.
fn stands_among(found: &[Variable<'_>], variable: &Spanning<&str>) -> bool
    ensures { IsTrue result ↔ Contains (map name_and_span found.now) (variable_at variable.now) }
{
    for earlier in found {
        if is_same(earlier, variable) {
            return true;
        }
    }
    false
}

// The same, if none of these starts after the index `latest`; no need to look for a variable that does.
fn is_found(found: &[Variable<'_>], latest: usize, variable: &Spanning<&str>) -> bool
    requires { StartBy latest (map name_and_span found.now) }
    ensures { IsTrue result ↔ Contains (map name_and_span found.now) (variable_at variable.now) }
{
    if latest < variable.span.start.index() {
        return false;
    }
    stands_among(found, variable)
}

fn later(a: usize, b: usize) -> usize
    ensures first { a ≤ result }
    ensures second { b ≤ result }
{
    if a < b { b } else { a }
}

// Adds a variable, unless its name is used or the list has it.
fn add_variable<'a>(
    used: &BTreeSet<&str>,
    variable: &Spanning<&'a str>,
    latest: &mut usize,
    found: &mut Vec<Variable<'a>>,
) -> Result<(), OutOfMemory>
    requires { StartBy latest.old (map name_and_span found.old.items) }
    ensures added { OnOk result (AddsVariable (has_name used.now) (variable_at variable.now)
        (map name_and_span found.old.items) (map name_and_span found.new.items)) }
    ensures start { OnOk result (StartBy latest.new (map name_and_span found.new.items)) }
{
    if is_named(used, variable.item) || is_found(found.as_slice(), *latest, variable) {
        return Ok(());
    }
    *latest = later(*latest, variable.span.start.index());
    found.push(Variable {
        name: variable.item,
        span: variable.span,
    })?;
    Ok(())
}

// Those of these variables that are not used, each once.
fn unused_among<'a, S>(
    alloc: Global,
    used: &BTreeSet<&str>,
    definitions: &[(Spanning<&'a str>, VariableDefinition<'_, S>)],
) -> Result<Vec<Variable<'a>>, OutOfMemory>
    ensures { IfOk result (λ found. UnusedAmong (has_name used.now) (map (λ v. variable_at v.0) definitions.now)
        (map name_and_span found.items)) }
{
    let mut latest = 0;
    let mut found = Vec::new(alloc);
    for definition in definitions {
        add_variable(used, &definition.0, &mut latest, &mut found)?;
    }
    Ok(found)
}

// Reports these variables.
fn tell_all<'a>(
    variables: &[Variable<'a>],
    operation: Option<&'a str>,
    found: &mut Vec<UnusedVariable<'a>>,
) -> Result<(), OutOfMemory>
    ensures { OnOk result (map unused_of found.new.items ≡ map unused_of found.old.items
        ++ map (unused_by (option_copied operation.entry)) (map name_and_span variables.now)) }
{
    for variable in variables {
        found.push(UnusedVariable {
            name: variable.name,
            span: variable.span,
            operation,
        })?;
    }
    Ok(())
}

// Reports the variables of the last operation of a name that are not used in its reach.
fn add_unused<'a, S>(
    alloc: Global,
    document: Document<'a, S>,
    index: &DocumentIndex<'a>,
    name: Option<&'a str>,
    own: &[usize],
    search: &mut UseSearch<'a>,
    found: &mut Vec<UnusedVariable<'a>>,
) -> Result<(), OutOfMemory>
    requires { MayReach document.now index.now search.old.search (option_copied name) own.now }
    ensures told { OnOk result (AddsPart (UnusedIn document.now (option_copied name.entry))
        (map unused_of found.old.items) (map unused_of found.new.items)) }
    ensures ready { OnOk result (IsReady index.now.scopes search.new.search) }
{
    let all = index.uses.as_slice();
    match last_operation(document, own) {
        Some(last) => {
            reached_uses(document, &index.scopes, search, all, own)?;
            let used = used_names(alloc, search.uses.as_slice())?;
            let unused = unused_among(alloc, &used, variables(last))?;
            tell_all(unused.as_slice(), name, found)
        }
        None => Ok(()),
    }
}

// Whether the last operation of a name defines no variables, by the places of all operations of this name.
fn defines_none<S>(document: Document<'_, S>, own: &[usize]) -> bool
    ensures { IsTrue result → (name : Option (List ℕ)) → own.now ≡ places_of document.now (operation name)
        → DefinesNone document.now name }
{
    match last_operation(document, own) {
        Some(last) => variables(last).is_empty(),
        None => false,
    }
}

// The same, without a search if the operation defines no variables.
fn add_if_defined<'a, S>(
    alloc: Global,
    document: Document<'a, S>,
    index: &DocumentIndex<'a>,
    name: Option<&'a str>,
    own: &[usize],
    search: &mut UseSearch<'a>,
    found: &mut Vec<UnusedVariable<'a>>,
) -> Result<(), OutOfMemory>
    requires { MayReach document.now index.now search.old.search (option_copied name) own.now }
    ensures told { OnOk result (AddsPart (UnusedIn document.now (option_copied name.entry))
        (map unused_of found.old.items) (map unused_of found.new.items)) }
    ensures ready { OnOk result (IsReady index.now.scopes search.new.search) }
{
    if defines_none(document, own) {
        return Ok(());
    }
    add_unused(alloc, document, index, name, own, search, found)
}

/// For each name of operations, the variables that the last of them defines and that are not used in
/// their reach (section 5.8.4).
///
/// # Errors
///
/// Out of memory.
pub fn unused_variables<'a, S>(
    alloc: Global,
    document: Document<'a, S>,
) -> Result<Vec<UnusedVariable<'a>>, OutOfMemory>
    ensures { IfOk result (λ found. UnusedVariables document.now (map unused_of found.items)) }
{
    let names = number_names(alloc, document)?;
    let index = index_document(alloc, document, names)?;
    unused_in(alloc, document, &index)
}

/// The same as [`unused_variables`], by the index of the document.
///
/// # Errors
///
/// Out of memory.
pub fn unused_in<'a, S>(
    alloc: Global,
    document: Document<'a, S>,
    index: &DocumentIndex<'a>,
) -> Result<Vec<UnusedVariable<'a>>, OutOfMemory>
    requires { IsDocumentIndex document.now index.now }
    ensures { IfOk result (λ found. UnusedVariables document.now (map unused_of found.items)) }
{
    let scopes = &index.scopes;
    let mut search = new_use_search(alloc, scopes)?;
    let mut found = Vec::new(alloc);
    for number in 0..scopes.names.len() {
        let name = scopes.names[number];
        let own = operation_places(scopes, number);
        add_if_defined(alloc, document, index, name, own, &mut search, &mut found)?;
    }
    Ok(found)
}
