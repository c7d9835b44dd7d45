//! The type conditions of a document's fragments.

ghost use Rattle.std.specs.Prelude.{◌≡◌, IfOk, length, None, option_copied};
ghost use Rattle.std.specs.List.{All};
ghost use Rattle.fragment_graph.specs.DocumentGraph.{IsNumbered};
ghost use Rattle.fragment_graph.specs.Numbers.{defined_number, names_of, NumberedDefinitions, WellNumbered};
ghost use Rattle.rules_fragments.specs.Conditions.{conditions_at, conditions_of, kept_at};
ghost use Rattle.rules_fragments.specs.PossibleFragmentSpreads.{conditions_in, no_conditions, with_definition};

use fragment_graph::numbers::{NumberedNames, Numbers, name_count, number};
use language::error::OutOfMemory;
use language::tree::Definition;
use meta::MetaTypeOf;
use schema::model::SchemaTypeOf;
use std::alloc::Global;

/// The type condition of the fragments of each name, by the number of the name. Of several fragments of a name, the
/// last one whose condition is a known type counts.
#[derive(Drop)]
pub(crate) struct Conditions<'a, S, C> {
    numbers: Option<Numbers<'a>>,
    types: Vec<Option<&'a MetaTypeOf<S, C>>>,
}

impl<'a, S, C> Conditions<'a, S, C> {
    /// No conditions.
    pub(crate) fn new(alloc: Global) -> Conditions<'a, S, C>
        ensures { conditions_of result ≡ no_conditions }
    {
        Conditions {
            numbers: None,
            types: Vec::new(alloc),
        }
    }

    /// The conditions of the fragments of a document, whose names are numbered.
    ///
    /// # Errors
    ///
    /// Out of memory.
    pub(crate) fn of(
        alloc: Global,
        schema: &'a SchemaTypeOf<S, C>,
        document: &'a [Definition<'a, S>],
        names: NumberedNames<'a>,
    ) -> Result<Conditions<'a, S, C>, OutOfMemory>
        requires { NumberedDefinitions document.now names.numbers names.defined.items }
        ensures { IfOk result (λ c. conditions_of c ≡ conditions_in schema.now no_conditions document.now) }
    {
        let types = types_of(alloc, schema, document, &names)?;
        Ok(Conditions {
            numbers: Some(names.numbers),
            types,
        })
    }

    /// The condition of the fragments of a name, where it is a known type.
    pub(crate) fn get(&self, name: &str) -> Option<&'a MetaTypeOf<S, C>>
        ensures { option_copied result ≡ conditions_of self.now name.now }
    {
        match &self.numbers {
            Some(numbers) => type_at(self.types.as_slice(), number(numbers, name)),
            None => None,
        }
    }
}

// The type that is kept at a number.
fn type_at<'a, S, C>(
    types: &[Option<&'a MetaTypeOf<S, C>>],
    number: Option<usize>,
) -> Option<&'a MetaTypeOf<S, C>>
    ensures { result ≡ kept_at types.now number }
{
    *types.get(number?)?
}

// No type at each of so many numbers.
fn no_types<'a, S, C>(
    alloc: Global,
    count: usize,
) -> Result<Vec<Option<&'a MetaTypeOf<S, C>>>, OutOfMemory>
    ensures len { IfOk result (λ v. length v.items ≡ count) }
    ensures none { IfOk result (λ v. All (λ o. o ≡ None) v.items) }
{
    Ok(vec![in alloc; None; count]?)
}

// Keeps the condition of a definition at the number of its name, if it is a known type.
fn note_type<'a, S, C>(
    schema: &'a SchemaTypeOf<S, C>,
    numbers: &Numbers<'_>,
    definition: &Definition<'_, S>,
    number: Option<usize>,
    types: &mut Vec<Option<&'a MetaTypeOf<S, C>>>,
)
    requires numbered { WellNumbered numbers.now }
    requires number { number ≡ defined_number numbers.now definition.now }
    requires has { IsNumbered numbers.now definition.now }
    requires sized { length types.old.items ≡ length (names_of numbers.now) }
    ensures noted { conditions_at numbers.now types.new.items
        ≡ with_definition schema.now (conditions_at numbers.now types.old.items) definition.now }
    ensures sized { length types.new.items ≡ length types.old.items }
{
    if let Definition::Fragment(fragment) = definition {
        if let Some(t) = schema.concrete_type_by_name(fragment.item.type_condition.item) {
            if let Some(number) = number {
                types[number] = Some(t);
            }
        }
    }
}

// The conditions of a document's fragments.
fn types_of<'a, S, C>(
    alloc: Global,
    schema: &'a SchemaTypeOf<S, C>,
    document: &[Definition<'_, S>],
    names: &NumberedNames<'_>,
) -> Result<Vec<Option<&'a MetaTypeOf<S, C>>>, OutOfMemory>
    requires { NumberedDefinitions document.now names.now.numbers names.now.defined.items }
    ensures { IfOk result (λ v. conditions_at names.now.numbers v.items
        ≡ conditions_in schema.now no_conditions document.now) }
{
    let numbers = &names.numbers;
    let mut types = no_types(alloc, name_count(numbers))?;
    for place in 0..document.len() {
        note_type(
            schema,
            numbers,
            &document[place],
            names.defined[place],
            &mut types,
        );
    }
    Ok(types)
}
