//! What is told of each kind of fault.
ghost use Rattle.std.specs.Prelude.{◌≡◌, ◌++◌, ◌∷◌, [], List, OnOk, map};
ghost use Rattle.graphql_reader.specs.declared.type_system.TypeSystemDefinition.{TypeSystemDefinition};
ghost use Rattle.sdl_directive_values.specs.Faults.{value_fault};
ghost use Rattle.sdl_directives.specs.Fault.{fault_value as use_value};
ghost use Rattle.type_system_report.specs.Fault.{fault_value};
ghost use Rattle.type_system_defaults.specs.Faults.{default_fault};
ghost use Rattle.sdl_own_faults.specs.Fault.{placed_value};
ghost use Rattle.sdl_faults.specs.Told.{ToldFault, told_circle, told_default, told_directive_circle, told_fault};
ghost use Rattle.sdl_faults.specs.Told.{told_given, told_own, told_use, told_values};

use crate::located::{LocatedFault, tell, tell_at, tell_there};
use crate::places::{place_of_field, places_of};
use graphql_reader::type_system::TypeSystemDefinition;
use language_types::error::OutOfMemory;
use sdl_directive_circles::DirectiveCircle;
use sdl_directive_values::ValueFault;
use sdl_directives::PlacedDirectiveFault;
use sdl_own_faults::OwnFault;
use std::alloc::Global;
use type_system_defaults::DefaultFault;
use type_system_inputs::InputCircle;
use type_system_report::Fault;

/// A fault of which something is told.
pub(crate) trait Tell {
    // Its places in a document, and its text.
    ghost telling: { List TypeSystemDefinition → Self → ToldFault };

    /// Appends what is told.
    ///
    /// # Errors
    ///
    /// Out of memory.
    fn tell(
        &self,
        alloc: Global,
        document: &[TypeSystemDefinition<'_>],
        told: &mut Vec<LocatedFault>,
    ) -> Result<(), OutOfMemory>
        ensures { OnOk result (told_values told.new.items
            ≡ told_values told.old.items ++ Self.telling document.now self.now ∷ []) };
}

/// Appends what is told of these faults.
pub(crate) fn tell_each<F: Tell>(
    alloc: Global,
    document: &[TypeSystemDefinition<'_>],
    faults: &[F],
    told: &mut Vec<LocatedFault>,
) -> Result<(), OutOfMemory>
    ensures { OnOk result (told_values told.new.items ≡ told_values told.old.items
        ++ map (F.telling document.now) faults.now) }
{
    for fault in faults {
        fault.tell(alloc, document, told)?;
    }
    Ok(())
}

impl Tell for Fault<'_> {
    ghost telling = { λ document f. told_fault document (fault_value f) };

    fn tell(
        &self,
        alloc: Global,
        document: &[TypeSystemDefinition<'_>],
        told: &mut Vec<LocatedFault>,
    ) -> Result<(), OutOfMemory> {
        tell_at(alloc, document, self.coordinate, self, told)
    }
}

impl Tell for DefaultFault<'_> {
    ghost telling = { λ document f. told_default document (default_fault f) };

    fn tell(
        &self,
        alloc: Global,
        document: &[TypeSystemDefinition<'_>],
        told: &mut Vec<LocatedFault>,
    ) -> Result<(), OutOfMemory> {
        tell_at(alloc, document, self.coordinate, self, told)
    }
}

impl Tell for InputCircle<'_> {
    ghost telling = { told_circle };

    fn tell(
        &self,
        alloc: Global,
        document: &[TypeSystemDefinition<'_>],
        told: &mut Vec<LocatedFault>,
    ) -> Result<(), OutOfMemory> {
        let position = place_of_field(document, self.first);
        let others = places_of(alloc, document, self.others.as_slice())?;
        tell(alloc, position, others, self, told)
    }
}

impl Tell for OwnFault<'_> {
    ghost telling = { λ document f. told_own (placed_value f) };

    fn tell(
        &self,
        alloc: Global,
        _document: &[TypeSystemDefinition<'_>],
        told: &mut Vec<LocatedFault>,
    ) -> Result<(), OutOfMemory> {
        tell_there(alloc, self.position, &self.fault, told)
    }
}

impl Tell for PlacedDirectiveFault<'_> {
    ghost telling = { λ document f. told_use (use_value f) };

    fn tell(
        &self,
        alloc: Global,
        _document: &[TypeSystemDefinition<'_>],
        told: &mut Vec<LocatedFault>,
    ) -> Result<(), OutOfMemory> {
        tell_there(alloc, self.position, &self.fault, told)
    }
}

impl Tell for ValueFault<'_> {
    ghost telling = { λ document f. told_given (value_fault f) };

    fn tell(
        &self,
        alloc: Global,
        _document: &[TypeSystemDefinition<'_>],
        told: &mut Vec<LocatedFault>,
    ) -> Result<(), OutOfMemory> {
        tell_there(alloc, self.position, self, told)
    }
}

impl Tell for DirectiveCircle<'_> {
    ghost telling = { λ document c. told_directive_circle c };

    fn tell(
        &self,
        alloc: Global,
        _document: &[TypeSystemDefinition<'_>],
        told: &mut Vec<LocatedFault>,
    ) -> Result<(), OutOfMemory> {
        tell_there(alloc, self.position, self, told)
    }
}
