//! The faults of what a type implements.
ghost use Rattle.std.specs.Prelude.{◌≡◌, ◌++◌, OnOk};
ghost use Rattle.type_system_interfaces.specs.All.{interface_faults};
ghost use Rattle.type_system_report.specs.Fault.{reported};

use crate::ancestors::report_wrong_ancestors;
use crate::implemented_types::report_wrong_interfaces;
use crate::interface_fields::report_unmet_interfaces;
use language_types::error::OutOfMemory;
use schema::meta::MetaTypeOf;
use schema::model::SchemaTypeOf;
use type_system_report::Fault;

/// Reports the faults of what a type implements: the entries that it may not implement, what it must implement
/// besides, and the fields of its interfaces that it does not meet.
///
/// # Errors
///
/// Out of memory. Some of the faults may have been appended then.
pub fn report_interface_faults<'a, S, C>(
    faults: &mut Vec<Fault<'a>>,
    schema: &'a SchemaTypeOf<S, C>,
    meta: &'a MetaTypeOf<S, C>,
) -> Result<(), OutOfMemory>
    ensures { OnOk result (reported faults.new ≡ reported faults.old ++ interface_faults schema.now meta.now) }
{
    report_wrong_interfaces(faults, schema, meta)?;
    report_wrong_ancestors(faults, schema, meta)?;
    report_unmet_interfaces(faults, schema, meta)
}
