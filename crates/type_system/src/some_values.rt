//! An enum has a value (GraphQL, October 2021, section 3.9).
ghost use Rattle.std.specs.Prelude.{◌≡◌, ◌++◌, OnOk};
ghost use Rattle.type_system_report.specs.Fault.{reported};
ghost use Rattle.type_system.specs.SomeValues.{missing_values};

use language::error::OutOfMemory;
use schema::meta::MetaTypeOf;
use type_system_report::report::report;
use type_system_report::{CoordinateOf, Fault, FaultKindOf};

/// Reports an enum without a value.
pub(crate) fn report_missing_values<'a, S, C>(
    faults: &mut Vec<Fault<'a>>,
    meta: &'a MetaTypeOf<S, C>,
) -> Result<(), OutOfMemory>
    ensures { OnOk result (reported faults.new ≡ reported faults.old ++ missing_values meta.now) }
{
    if let MetaTypeOf::Enum(of) = meta {
        if of.values.as_slice().is_empty() {
            report(
                faults,
                CoordinateOf::Type(of.name.as_str()),
                FaultKindOf::NoValues,
            )?;
        }
    }
    Ok(())
}
