//! How a rule reports a fault.
ghost use Rattle.std.specs.Prelude.{◌≡◌, ◌++◌, ◌∷◌, [], OnOk};
ghost use Rattle.type_system_report.specs.Fault.{coordinate_value, kind_value, reported};

use crate::fault::{Coordinate, Fault, FaultKind, FaultOf};
use language::error::OutOfMemory;

/// Appends a fault.
///
/// # Errors
///
/// Out of memory. Nothing was appended then.
pub fn report<'a>(
    faults: &mut Vec<Fault<'a>>,
    coordinate: Coordinate<'a>,
    kind: FaultKind<'a>,
) -> Result<(), OutOfMemory>
    ensures { OnOk result (reported faults.new ≡ reported faults.old
        ++ record { coordinate = coordinate_value coordinate.entry; kind = kind_value kind.entry } ∷ []) }
{
    faults.push(FaultOf { coordinate, kind })?;
    Ok(())
}
