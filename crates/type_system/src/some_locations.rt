//! A directive has a location (GraphQL, October 2021, section 3.13).
ghost use Rattle.std.specs.Prelude.{◌≡◌, ◌++◌, OnOk};
ghost use Rattle.type_system_report.specs.Fault.{reported};
ghost use Rattle.type_system.specs.SomeLocations.{missing_locations};

use language::error::OutOfMemory;
use schema::model::DirectiveType;
use type_system_report::report::report;
use type_system_report::{CoordinateOf, Fault, FaultKindOf};

/// Reports a directive without a location.
pub(crate) fn report_missing_locations<'a, S>(
    faults: &mut Vec<Fault<'a>>,
    directive: &'a DirectiveType<S>,
) -> Result<(), OutOfMemory>
    ensures { OnOk result (reported faults.new ≡ reported faults.old ++ missing_locations directive.now) }
{
    if directive.locations.as_slice().is_empty() {
        let at = CoordinateOf::Directive(directive.name.as_str());
        report(faults, at, FaultKindOf::NoLocations)?;
    }
    Ok(())
}
