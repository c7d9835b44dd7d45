//! The numbering of the names of the fragments of a document.
ghost use Rattle.std.specs.Prelude.{◌≡◌, [], length, OnOk, IfOk, Some, slice_get};
ghost use Rattle.std.specs.Option.{unwrap_or};
ghost use Rattle.name_tables.specs.Adding.{Adds};
ghost use Rattle.name_tables.specs.Maps.{index_of};
ghost use Rattle.fragment_graph.specs.Numbers.{number_of, names_of, defined_index, AddsDefinition, NumberedDefinitions};

use crate::numbers::{NumberedNames, Numbers};
use language::tree::Definition;
use name_tables::map::NameMap;
use std::alloc::{AllocError, Global};
use std::rc::Rc;

/// The number of a name, counted from 0, if some fragment has it.
pub fn number(numbers: &Numbers<'_>, name: &str) -> Option<usize>
    ensures { result ≡ number_of numbers.now name.now }
{
    numbers.map.index(name)
}

/// The name of a number; the empty string for a number past the last.
pub fn name<'a>(numbers: &Numbers<'a>, number: usize) -> &'a str
    ensures { result.now ≡ unwrap_or (slice_get (names_of numbers.now) number) [] }
{
    match numbers.map.entry(number) {
        Some((name, _)) => name,
        None => "",
    }
}

/// The number of distinct names.
pub fn name_count(numbers: &Numbers<'_>) -> usize
    ensures { result ≡ length (names_of numbers.now) }
{
    numbers.map.len()
}

// Adds a name, unless the map has it. Returns its index.
fn add_name<'a>(map: &mut NameMap<'a, ()>, name: &'a str) -> Result<usize, AllocError>
    ensures adds { OnOk result (Adds name.entry tt map.old map.new) }
    ensures index { IfOk result (λ k. index_of map.new name.now ≡ Some k) }
{
    let next = map.len();
    match map.insert(name, ())? {
        Some(earlier) => Ok(earlier),
        None => Ok(next),
    }
}

// Adds the name of a definition, if it is a fragment. Returns its index.
fn add_definition<'a, S>(
    map: &mut NameMap<'a, ()>,
    definition: &'a Definition<'_, S>,
) -> Result<Option<usize>, AllocError>
    ensures adds { OnOk result (AddsDefinition definition.now map.old map.new) }
    ensures index { IfOk result (λ o. o ≡ defined_index map.new definition.now) }
{
    match definition {
        Definition::Fragment(fragment) => {
            let index = add_name(map, fragment.item.name.item)?;
            Ok(Some(index))
        }
        Definition::Operation(_) => Ok(None),
    }
}

/// Numbers the names of the fragments of a document, from 0 in the order in which they come first.
///
/// # Errors
///
/// Out of memory.
pub fn number_names<'a, S>(
    alloc: Global,
    document: &'a [Definition<'_, S>],
) -> Result<NumberedNames<'a>, AllocError>
    ensures { IfOk result (λ n. NumberedDefinitions document.now n.numbers n.defined.items) }
{
    let mut map = NameMap::with_slots(alloc, document.len())?;
    let mut defined = Vec::with_capacity(alloc, document.len())?;
    for definition in document {
        defined.push(add_definition(&mut map, definition)?)?;
    }
    let shared = Rc::new(alloc, map)?;
    Ok(NumberedNames {
        numbers: Numbers { map: shared },
        defined,
    })
}
