//! The uses of variables in a document, as they are recorded during the walk: a list for each definition.

ghost use Rattle.std.specs.Prelude.{◌≡◌, ◌++◌, ◌∷◌, [], OnOk};
ghost use Rattle.rules_positions.specs.JudgedUses.{values_in};
ghost use Rattle.rules_positions.specs.RecordedUses.{with_use};

use language::error::OutOfMemory;
use std::alloc::Global;

/// A use of a variable, as a rule records it.
pub trait VariableUse: Drop {
    // What it says, which may be less than what it holds.
    ghost value_type: { Type 0 };

    ghost value: { Self → value_type };
}

/// Begins a definition, in which there is no use yet.
///
/// # Errors
///
/// Out of memory.
pub fn begin_definition<U: VariableUse>(
    alloc: Global,
    uses: &mut Vec<Vec<U>>,
) -> Result<(), OutOfMemory>
    ensures { OnOk result (values_in U.value uses.new.items ≡ values_in U.value uses.old.items ++ [] ∷ []) }
{
    uses.push(Vec::new(alloc))?;
    Ok(())
}

/// Adds a use to the definition that began last.
///
/// # Errors
///
/// Out of memory.
pub fn add_use<U: VariableUse>(uses: &mut Vec<Vec<U>>, found: U) -> Result<(), OutOfMemory>
    ensures { OnOk result
        (values_in U.value uses.new.items ≡ with_use (U.value found) (values_in U.value uses.old.items)) }
{
    let count = uses.len();
    if count > 0 {
        uses[count - 1].push(found)?;
    }
    Ok(())
}
