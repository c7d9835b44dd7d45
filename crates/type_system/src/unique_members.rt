//! A union has each member once (GraphQL, October 2021, section 3.8).
ghost use Rattle.std.specs.Prelude.{◌≡◌, ◌++◌, OnOk, map, string_bytes};
ghost use Rattle.type_system_report.specs.Fault.{reported};
ghost use Rattle.type_system.specs.UniqueMembers.{repeated_member, repeated_members};

use language::error::OutOfMemory;
use schema::meta::MetaTypeOf;
use type_system_interfaces::listed::is_text_among;
use type_system_interfaces::members::{type_name, union_members};
use type_system_report::report::report;
use type_system_report::{CoordinateOf, Fault, FaultKindOf};

/// Reports each member of a union that stands again further on.
pub(crate) fn report_repeated_members<'a, S, C>(
    faults: &mut Vec<Fault<'a>>,
    meta: &'a MetaTypeOf<S, C>,
) -> Result<(), OutOfMemory>
    ensures { OnOk result (reported faults.new ≡ reported faults.old ++ repeated_members meta.now) }
{
    let mut rest = union_members(meta);
    while let Some((name, others)) = rest.split_first() {
        report_repeated_member(faults, meta, name.as_str(), others)?;
        rest = others;
    }
    Ok(())
}

fn report_repeated_member<'a, S, C>(
    faults: &mut Vec<Fault<'a>>,
    meta: &'a MetaTypeOf<S, C>,
    name: &'a str,
    others: &[String],
) -> Result<(), OutOfMemory>
    ensures { OnOk result (reported faults.new ≡ reported faults.old
        ++ repeated_member meta.now name.now (map string_bytes others.now)) }
{
    if is_text_among(others, name) {
        let at = CoordinateOf::Type(type_name(meta));
        report(faults, at, FaultKindOf::RepeatedMember(name))?;
    }
    Ok(())
}
