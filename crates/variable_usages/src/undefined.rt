//! Variables that are used but not defined (section 5.8.3).
ghost use Rattle.std.specs.Prelude.{◌≡◌, ◌<◌, ◌⊎◌, ◌++◌, IfOk, IsTrue, OnOk, map, option_copied, vec_len};
ghost use Rattle.std.specs.List.{flat_map};
ghost use Rattle.operation_scopes.specs.Searches.{IsReady};
ghost use Rattle.variable_usages.specs.DocumentIndex.{IsDocumentIndex, MayReach};
ghost use Rattle.variable_usages.specs.InReachUses.{AddsPart};
ghost use Rattle.variable_usages.specs.Names.{has_name};
ghost use Rattle.variable_usages.specs.Uses.{use_of};
ghost use Rattle.variable_usages.specs.Undefined.{TellsUndefined, UndefinedIn, UndefinedNumbered, UndefinedVariables};
ghost use Rattle.variable_usages.specs.Undefined.{UsesNothing, told_undefined, undefined_of};

use crate::document_index::{DocumentIndex, index_document};
use crate::names::{is_named, name_set, variables};
use crate::uses::{UseSearch, VariableUse, new_use_search, reached_uses};
use fragment_graph::numbers::number_names;
use language::error::OutOfMemory;
use language::position::SourcePosition;
use language::tree::Document;
use operation_scopes::index::{last_operation, operation_places};
use std::alloc::Global;
use std::collections::BTreeSet;

/// A variable that an operation uses and does not define.
#[derive(Clone, Copy, Debug)]
pub struct UndefinedVariable<'a> {
    /// The name of the variable, without the dollar sign.
    pub name: &'a str,
    /// The name of the operation.
    pub operation: Option<&'a str>,
    /// The start of the argument value that uses the variable.
    pub place: SourcePosition,
    /// The start of the last operation of that name.
    pub operation_place: SourcePosition,
}

// Reports a use whose variable is not defined.
fn tell<'a>(
    defined: &BTreeSet<&str>,
    operation: Option<&'a str>,
    start: SourcePosition,
    used: VariableUse<'a>,
    found: &mut Vec<UndefinedVariable<'a>>,
) -> Result<(), OutOfMemory>
    ensures { OnOk result (TellsUndefined (has_name defined.now) (option_copied operation.entry) start
        used.entry (map undefined_of found.old.items) (map undefined_of found.new.items)) }
{
    if !is_named(defined, used.name) {
        found.push(UndefinedVariable {
            name: used.name,
            operation,
            place: used.place,
            operation_place: start,
        })?;
    }
    Ok(())
}

// Reports those of these uses whose variables are not defined.
fn tell_all<'a>(
    defined: &BTreeSet<&str>,
    operation: Option<&'a str>,
    start: SourcePosition,
    uses: &[VariableUse<'a>],
    found: &mut Vec<UndefinedVariable<'a>>,
) -> Result<(), OutOfMemory>
    ensures { OnOk result (map undefined_of found.new.items ≡ map undefined_of found.old.items
        ++ flat_map (told_undefined (has_name defined.now) (option_copied operation.entry) start)
        (map use_of uses.now)) }
{
    for used in uses {
        tell(defined, operation, start, *used, found)?;
    }
    Ok(())
}

// Reports the uses in the reach of the operations of a name whose variables are not defined.
fn add_undefined<'a, S>(
    alloc: Global,
    document: Document<'a, S>,
    index: &DocumentIndex<'a>,
    name: Option<&'a str>,
    own: &[usize],
    search: &mut UseSearch<'a>,
    found: &mut Vec<UndefinedVariable<'a>>,
) -> Result<(), OutOfMemory>
    requires { MayReach document.now index.now search.old.search (option_copied name) own.now }
    ensures told { OnOk result (AddsPart (UndefinedIn document.now (option_copied name.entry))
        (map undefined_of found.old.items) (map undefined_of found.new.items)) }
    ensures ready { OnOk result (IsReady index.now.scopes search.new.search) }
{
    let all = index.uses.as_slice();
    match last_operation(document, own) {
        Some(last) => {
            reached_uses(document, &index.scopes, search, all, own)?;
            let defined = name_set(alloc, variables(last))?;
            tell_all(
                &defined,
                name,
                last.span.start,
                search.uses.as_slice(),
                found,
            )
        }
        None => Ok(()),
    }
}

// Reports those of the name with this number.
fn add_numbered<'a, S>(
    alloc: Global,
    document: Document<'a, S>,
    index: &DocumentIndex<'a>,
    number: usize,
    search: &mut UseSearch<'a>,
    found: &mut Vec<UndefinedVariable<'a>>,
) -> Result<(), OutOfMemory>
    requires indexed { IsDocumentIndex document.now index.now }
    requires ready { IsReady index.now.scopes search.old.search }
    requires numbered { number < vec_len index.now.scopes.names }
    ensures told { OnOk result (AddsPart (UndefinedNumbered document.now index.now.scopes number)
        (map undefined_of found.old.items) (map undefined_of found.new.items)) }
    ensures ready { OnOk result (IsReady index.now.scopes search.new.search) }
{
    let name = index.scopes.names[number];
    let own = operation_places(&index.scopes, number);
    add_undefined(alloc, document, index, name, own, search, found)
}

/// The part of [`undefined_in`] for the operations of one name, by its place in `index.scopes.names`, counted from 0.
///
/// # Errors
///
/// Out of memory. The search can't be used again then.
pub fn undefined_by<'a, S>(
    alloc: Global,
    document: Document<'a, S>,
    index: &DocumentIndex<'a>,
    number: usize,
    search: &mut UseSearch<'a>,
) -> Result<Vec<UndefinedVariable<'a>>, OutOfMemory>
    requires indexed { IsDocumentIndex document.now index.now }
    requires ready { IsReady index.now.scopes search.old.search }
    requires numbered { number < vec_len index.now.scopes.names }
    ensures told { IfOk result (λ found. UndefinedNumbered document.now index.now.scopes number
        (map undefined_of found.items)) }
    ensures ready { OnOk result (IsReady index.now.scopes search.new.search) }
{
    let mut found = Vec::new(alloc);
    add_numbered(alloc, document, index, number, search, &mut found)?;
    Ok(found)
}

/// For each name of operations, the uses in their reach of variables that the last of them does not
/// define (section 5.8.3).
///
/// # Errors
///
/// Out of memory.
pub fn undefined_variables<'a, S>(
    alloc: Global,
    document: Document<'a, S>,
) -> Result<Vec<UndefinedVariable<'a>>, OutOfMemory>
    ensures { IfOk result (λ found. UndefinedVariables document.now (map undefined_of found.items)) }
{
    let names = number_names(alloc, document)?;
    let index = index_document(alloc, document, names)?;
    undefined_in(alloc, document, &index)
}

/// Whether some definition uses a variable, by the list of uses of each definition.
pub fn is_any_used(all: &[Vec<VariableUse<'_>>]) -> bool
    ensures none { IsTrue result ⊎ UsesNothing all.now }
    ensures some { IsTrue result → UsesNothing all.now → ⊥ }
{
    for uses in all {
        if !uses.is_empty() {
            return true;
        }
    }
    false
}

/// The same as [`undefined_variables`], by the index of the document. Returns at once if the document
/// uses no variables.
///
/// If many operations reach the same uses, the list is far longer than the document. [`undefined_by`] lists those of
/// one name at a time.
///
/// # Errors
///
/// Out of memory.
pub fn undefined_in<'a, S>(
    alloc: Global,
    document: Document<'a, S>,
    index: &DocumentIndex<'a>,
) -> Result<Vec<UndefinedVariable<'a>>, OutOfMemory>
    requires { IsDocumentIndex document.now index.now }
    ensures { IfOk result (λ found. UndefinedVariables document.now (map undefined_of found.items)) }
{
    let scopes = &index.scopes;
    let all = index.uses.as_slice();
    let mut found = Vec::new(alloc);
    if !is_any_used(all) {
        return Ok(found);
    }
    let mut search = new_use_search(alloc, scopes)?;
    for number in 0..scopes.names.len() {
        add_numbered(alloc, document, index, number, &mut search, &mut found)?;
    }
    Ok(found)
}
