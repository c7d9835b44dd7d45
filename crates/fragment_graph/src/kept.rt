//! The numbered names of the fragments of a document, shared by the rules.
ghost use Rattle.std.specs.Prelude.{◌≡◌, true, IfOk, List, ℕ, Some, slice_get};
ghost use Rattle.std.specs.Option.{is_some};
ghost use Rattle.fragment_graph.specs.Numbers.{number_of, names_of, WellNumbered};
ghost use Rattle.fragment_graph.specs.Kept.{IsCopy, IsNumberOf, AreNumbersOf, is_kept};

use crate::numbers::{NumberedNames, Numbers, name, name_count, number, number_names};
use language::tree::{Definition, Document};
use std::alloc::{AllocError, Global};

/// The numbered names of the fragments of a document, so that all rules together number them once.
#[derive(Drop)]
pub struct KeptNames<'a> {
    names: NumberedNames<'a>,
    ghost numbered: { WellNumbered names.numbers },
    ghost exact: { (name : List ℕ) → is_some (number_of names.numbers name) ≡ is_kept names name },
}

impl<'a> KeptNames<'a> {
    ghost use Rattle.std.specs.Prelude.{◌≡◌, IfOk};
    ghost use Rattle.fragment_graph.specs.Kept.{fragment_names, is_among};
    ghost use Rattle.fragment_graph.specs.KeptNames.{kept_by};
    ghost use Rattle.fragment_graph.specs.Numbers.{NumberedDefinitions};

    /// Numbers the names of the fragments of a document.
    ///
    /// # Errors
    ///
    /// Out of memory.
    pub fn new<S>(
        alloc: Global,
        document: &'a [Definition<'_, S>],
    ) -> Result<KeptNames<'a>, AllocError>
        ensures { IfOk result (λ k. kept_by k ≡ fragment_names document.now) }
    {
        let names = number_names(alloc, document)?;
        Ok(KeptNames { names })
    }

    /// Whether some fragment has this name.
    pub fn has(&self, name: &str) -> bool
        ensures { result ≡ is_among (kept_by self.now) name.now }
    {
        number(&self.names.numbers, name).is_some()
    }

    /// The numbered names of the fragments of a document: a copy of the kept names, if they are those of
    /// this document.
    ///
    /// # Errors
    ///
    /// Out of memory.
    pub fn names_of<S>(
        &self,
        alloc: Global,
        document: Document<'a, S>,
    ) -> Result<NumberedNames<'a>, AllocError>
        ensures { IfOk result (λ n. NumberedDefinitions document.now n.numbers n.defined.items) }
    {
        if are_numbers_of(&self.names, document) {
            copied(alloc, &self.names)
        } else {
            number_names(alloc, document)
        }
    }
}

// The same numbers, which share the map.
fn shared_numbers<'a>(numbers: &Numbers<'a>) -> Result<Numbers<'a>, AllocError>
    ensures numbers { IfOk result (λ n. (name : List ℕ) → number_of n name ≡ number_of numbers.now name) }
    ensures names { IfOk result (λ n. names_of n ≡ names_of numbers.now) }
{
    let map = numbers.map.clone()?;
    Ok(Numbers { map })
}

// A copy of numbered names.
fn copied<'a>(alloc: Global, names: &NumberedNames<'a>) -> Result<NumberedNames<'a>, AllocError>
    ensures { IfOk result (IsCopy names.now) }
{
    let numbers = shared_numbers(&names.numbers)?;
    let defined = Vec::from_slice(alloc, names.defined.as_slice())?;
    Ok(NumberedNames { numbers, defined })
}

// Whether the name has this number.
fn is_number(numbers: &Numbers<'_>, number: usize, named: &str) -> bool
    ensures { result ≡ true → slice_get (names_of numbers.now) number ≡ Some named.now }
{
    number < name_count(numbers) && name(numbers, number) == named
}

// Whether this is the number of the name of a definition: `None` for an operation.
fn is_number_of<S>(
    numbers: &Numbers<'_>,
    number: Option<usize>,
    definition: &Definition<'_, S>,
) -> bool
    ensures { result ≡ true → IsNumberOf numbers.now number definition.now }
{
    match (definition, number) {
        (Definition::Operation(_), None) => true,
        (Definition::Fragment(fragment), Some(number)) => {
            is_number(numbers, number, fragment.item.name.item)
        }
        _ => false,
    }
}

// Whether the numbered names are those of a document, definition by definition.
fn are_numbers_of<S>(names: &NumberedNames<'_>, document: Document<'_, S>) -> bool
    ensures { result ≡ true → AreNumbersOf names.now.numbers names.now.defined.items document.now }
{
    if names.defined.len() != document.len() {
        return false;
    }
    for place in 0..document.len() {
        if !is_number_of(&names.numbers, names.defined[place], &document[place]) {
            return false;
        }
    }
    true
}
