//! Faults with their places.
ghost use Rattle.std.specs.Prelude.{◌≡◌, ◌++◌, ◌∷◌, [], OnOk};
ghost use Rattle.type_system_report.specs.Fault.{coordinate_value, kind_value};
ghost use Rattle.sdl_own_faults.specs.Fault.{fault_at, reported};

use language_types::error::OutOfMemory;
use language_types::position::{SourcePosition, Spanning};
use type_system_report::{Coordinate, Fault, FaultKind, FaultOf};

/// A fault of a definition, and the position of the name at its coordinate there.
#[derive(Clone, Copy, Debug, PartialEq, Eq)]
pub struct OwnFault<'d> {
    pub position: SourcePosition,
    pub fault: Fault<'d>,
}

/// Appends a fault at a name.
pub(crate) fn report<'d>(
    faults: &mut Vec<OwnFault<'d>>,
    name: &Spanning<&str>,
    coordinate: Coordinate<'d>,
    kind: FaultKind<'d>,
) -> Result<(), OutOfMemory>
    ensures { OnOk result (reported faults.new ≡ reported faults.old
        ++ fault_at name.now (coordinate_value coordinate.entry) (kind_value kind.entry) ∷ []) }
{
    faults.push(OwnFault {
        position: name.span.start,
        fault: FaultOf { coordinate, kind },
    })?;
    Ok(())
}
