//! A required argument or input field is not deprecated (GraphQL, October 2021, sections 3.6, 3.10 and 3.13).
ghost use Rattle.std.specs.Prelude.{◌≡◌, ◌++◌, OnOk};
ghost use Rattle.std.specs.List.{flat_map};
ghost use Rattle.type_system_report.specs.Fault.{reported};
ghost use Rattle.type_system.specs.RequiredMembers.{deprecated_argument, deprecated_arguments};
ghost use Rattle.type_system.specs.RequiredMembers.{deprecated_directive_argument, deprecated_directive_arguments};
ghost use Rattle.type_system.specs.RequiredMembers.{deprecated_input_field, deprecated_members, is_required_deprecated};

use language::error::OutOfMemory;
use schema::meta::{Argument, Field, MetaTypeOf};
use schema::model::DirectiveType;
use type_system_interfaces::members::{arguments, fields, input_fields, is_required, type_name};
use type_system_report::report::report;
use type_system_report::{CoordinateOf, Fault, FaultKindOf};

/// Reports the required arguments and input fields of a type that are deprecated.
pub(crate) fn report_deprecated_members<'a, S, C>(
    faults: &mut Vec<Fault<'a>>,
    meta: &'a MetaTypeOf<S, C>,
) -> Result<(), OutOfMemory>
    ensures { OnOk result (reported faults.new ≡ reported faults.old ++ deprecated_members meta.now) }
{
    let of = type_name(meta);
    report_of_fields(faults, of, fields(meta))?;
    report_input_fields(faults, of, input_fields(meta))
}

fn is_required_deprecated<S>(argument: &Argument<S>) -> bool
    ensures { result ≡ is_required_deprecated argument.now }
{
    is_required(argument) && argument.deprecation_status.is_deprecated()
}

fn report_of_fields<'a, S>(
    faults: &mut Vec<Fault<'a>>,
    of: &'a str,
    fields: &'a [Field<S>],
) -> Result<(), OutOfMemory>
    ensures { OnOk result (reported faults.new ≡ reported faults.old
        ++ flat_map (deprecated_arguments of.now) fields.now) }
{
    for field in fields {
        report_arguments(faults, of, field.name.as_str(), arguments(field))?;
    }
    Ok(())
}

fn report_arguments<'a, S>(
    faults: &mut Vec<Fault<'a>>,
    of: &'a str,
    field: &'a str,
    arguments: &'a [Argument<S>],
) -> Result<(), OutOfMemory>
    ensures { OnOk result (reported faults.new ≡ reported faults.old
        ++ flat_map (deprecated_argument of.now field.now) arguments.now) }
{
    for argument in arguments {
        report_argument(faults, of, field, argument)?;
    }
    Ok(())
}

fn report_argument<'a, S>(
    faults: &mut Vec<Fault<'a>>,
    of: &'a str,
    field: &'a str,
    argument: &'a Argument<S>,
) -> Result<(), OutOfMemory>
    ensures { OnOk result (reported faults.new ≡ reported faults.old
        ++ deprecated_argument of.now field.now argument.now) }
{
    if is_required_deprecated(argument) {
        let at = CoordinateOf::Argument(of, field, argument.name.as_str());
        report(faults, at, FaultKindOf::DeprecatedArgument)?;
    }
    Ok(())
}

fn report_input_fields<'a, S>(
    faults: &mut Vec<Fault<'a>>,
    of: &'a str,
    fields: &'a [Argument<S>],
) -> Result<(), OutOfMemory>
    ensures { OnOk result (reported faults.new ≡ reported faults.old
        ++ flat_map (deprecated_input_field of.now) fields.now) }
{
    for field in fields {
        report_input_field(faults, of, field)?;
    }
    Ok(())
}

fn report_input_field<'a, S>(
    faults: &mut Vec<Fault<'a>>,
    of: &'a str,
    field: &'a Argument<S>,
) -> Result<(), OutOfMemory>
    ensures { OnOk result (reported faults.new ≡ reported faults.old ++ deprecated_input_field of.now field.now) }
{
    if is_required_deprecated(field) {
        let at = CoordinateOf::Field(of, field.name.as_str());
        report(faults, at, FaultKindOf::DeprecatedInputField)?;
    }
    Ok(())
}

/// Reports the required arguments of a directive that are deprecated.
pub(crate) fn report_deprecated_directive<'a, S>(
    faults: &mut Vec<Fault<'a>>,
    directive: &'a DirectiveType<S>,
) -> Result<(), OutOfMemory>
    ensures { OnOk result (reported faults.new ≡ reported faults.old ++ deprecated_directive_arguments directive.now) }
{
    let of = directive.name.as_str();
    for argument in &directive.arguments {
        report_directive_argument(faults, of, argument)?;
    }
    Ok(())
}

fn report_directive_argument<'a, S>(
    faults: &mut Vec<Fault<'a>>,
    of: &'a str,
    argument: &'a Argument<S>,
) -> Result<(), OutOfMemory>
    ensures { OnOk result (reported faults.new ≡ reported faults.old
        ++ deprecated_directive_argument of.now argument.now) }
{
    if is_required_deprecated(argument) {
        let at = CoordinateOf::DirectiveArgument(of, argument.name.as_str());
        report(faults, at, FaultKindOf::DeprecatedArgument)?;
    }
    Ok(())
}
