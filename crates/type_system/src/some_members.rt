//! A union has a member (GraphQL, October 2021, section 3.8).
ghost use Rattle.std.specs.Prelude.{◌≡◌, ◌++◌, OnOk};
ghost use Rattle.type_system_report.specs.Fault.{reported};
ghost use Rattle.type_system.specs.SomeMembers.{missing_members};

use language::error::OutOfMemory;
use schema::meta::MetaTypeOf;
use type_system_report::report::report;
use type_system_report::{CoordinateOf, Fault, FaultKindOf};

/// Reports a union without a member.
pub(crate) fn report_missing_members<'a, S, C>(
    faults: &mut Vec<Fault<'a>>,
    meta: &'a MetaTypeOf<S, C>,
) -> Result<(), OutOfMemory>
    ensures { OnOk result (reported faults.new ≡ reported faults.old ++ missing_members meta.now) }
{
    if let MetaTypeOf::Union(union) = meta {
        if union.of_type_names.as_slice().is_empty() {
            report(
                faults,
                CoordinateOf::Type(union.name.as_str()),
                FaultKindOf::NoMembers,
            )?;
        }
    }
    Ok(())
}
