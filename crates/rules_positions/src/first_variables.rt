//! The first definition of each variable, in all operations of a name together.

ghost use Rattle.std.specs.Prelude.{◌≡◌, ◌∷◌, [], IfOk, OnOk, option_copied};
ghost use Rattle.std.specs.Bool.{Decides};
ghost use Rattle.std.specs.List.{flat_map};
ghost use Rattle.rules_positions.specs.DefinedVariables.{variables_at, variables_in};
ghost use Rattle.rules_positions.specs.FirstVariables.{kept_first, KeepsFirst, Notes};

use language::error::OutOfMemory;
use language::position::Spanning;
use language::tree::{Definition, VariableDefinition};
use std::alloc::Global;
use std::collections::BTreeMap;

/// A variable with its definition.
pub type VariableEntry<'a, S> = (Spanning<&'a str>, VariableDefinition<'a, S>);

/// The first definition of each variable. The names come from outside, so the map is an ordered one.
#[derive(Drop)]
pub struct FirstVariables<'a, S> {
    entries: BTreeMap<&'a str, &'a VariableEntry<'a, S>>,
}

impl<'a, S> FirstVariables<'a, S> {
    // No definition.
    fn none(alloc: Global) -> FirstVariables<'a, S>
        ensures { KeepsFirst [] result }
    {
        FirstVariables {
            entries: BTreeMap::new(alloc),
        }
    }

    /// Whether no variable is defined.
    pub fn is_empty(&self) -> bool
        ensures { Decides result (KeepsFirst [] self.now) }
    {
        self.entries.is_empty()
    }

    /// The first definition of a variable.
    pub fn get(&self, variable: &str) -> Option<&'a VariableEntry<'a, S>>
        ensures { option_copied result ≡ kept_first self.now variable.now }
    {
        match self.entries.get(variable) {
            Some(entry) => Some(*entry),
            None => None,
        }
    }

    // Notes a definition, unless its variable has one.
    fn note(&mut self, entry: &'a VariableEntry<'a, S>) -> Result<(), OutOfMemory>
        ensures { OnOk result (Notes (entry.now ∷ []) self.old self.new) }
    {
        match self.entries.get(entry.0.item) {
            Some(_) => Ok(()),
            None => {
                self.entries.insert(entry.0.item, entry)?;
                Ok(())
            }
        }
    }

    // Notes each of these.
    fn note_all(&mut self, entries: &'a [VariableEntry<'a, S>]) -> Result<(), OutOfMemory>
        ensures { OnOk result (Notes entries.now self.old self.new) }
    {
        for entry in entries {
            self.note(entry)?;
        }
        Ok(())
    }

    // Notes the variables of a definition.
    fn note_definition(&mut self, definition: &'a Definition<'a, S>) -> Result<(), OutOfMemory>
        ensures { OnOk result (Notes (variables_in definition.now) self.old self.new) }
    {
        if let Definition::Operation(operation) = definition {
            if let Some(written) = &operation.item.variable_definitions {
                self.note_all(written.item.items.as_slice())?;
            }
        }
        Ok(())
    }

    // Notes the variables of the definition at a place.
    fn note_place(
        &mut self,
        document: &'a [Definition<'a, S>],
        place: usize,
    ) -> Result<(), OutOfMemory>
        ensures { OnOk result (Notes (variables_at document.now place) self.old self.new) }
    {
        match document.get(place) {
            Some(definition) => self.note_definition(definition),
            None => Ok(()),
        }
    }

    /// The first definitions among the definitions at these places of a document, which are 0-based indexes.
    ///
    /// # Errors
    ///
    /// Out of memory.
    pub fn at(
        alloc: Global,
        document: &'a [Definition<'a, S>],
        places: &[usize],
    ) -> Result<FirstVariables<'a, S>, OutOfMemory>
        ensures { IfOk result (KeepsFirst (flat_map (variables_at document.now) places.now)) }
    {
        let mut variables = FirstVariables::none(alloc);
        for place in places {
            variables.note_place(document, *place)?;
        }
        Ok(variables)
    }
}
