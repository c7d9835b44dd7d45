//! No enum value is named `true`, `false` or `null` (GraphQL, October 2021, section 3.9).
ghost use Rattle.std.specs.Prelude.{◌≡◌, ◌++◌, OnOk};
ghost use Rattle.type_system_report.specs.Fault.{reported};
ghost use Rattle.type_system.specs.ReservedValues.{is_reserved_value, reserved_value, reserved_values};

use language::error::OutOfMemory;
use schema::meta::{EnumValue, MetaTypeOf};
use type_system_interfaces::members::{enum_values, type_name};
use type_system_report::report::report;
use type_system_report::{CoordinateOf, Fault, FaultKindOf};

/// Reports each value of an enum that has a reserved name.
pub(crate) fn report_reserved_values<'a, S, C>(
    faults: &mut Vec<Fault<'a>>,
    meta: &'a MetaTypeOf<S, C>,
) -> Result<(), OutOfMemory>
    ensures { OnOk result (reported faults.new ≡ reported faults.old ++ reserved_values meta.now) }
{
    let of = type_name(meta);
    for value in enum_values(meta) {
        report_reserved_value(faults, of, value)?;
    }
    Ok(())
}

fn report_reserved_value<'a>(
    faults: &mut Vec<Fault<'a>>,
    of: &'a str,
    value: &'a EnumValue,
) -> Result<(), OutOfMemory>
    ensures { OnOk result (reported faults.new ≡ reported faults.old ++ reserved_value of.now value.now) }
{
    let name = value.name.as_str();
    if is_reserved_value(name) {
        report(
            faults,
            CoordinateOf::EnumValue(of, name),
            FaultKindOf::ReservedValue,
        )?;
    }
    Ok(())
}

fn is_reserved_value(name: &str) -> bool
    ensures { result ≡ is_reserved_value name.now }
{
    name == "true" || name == "false" || name == "null"
}
