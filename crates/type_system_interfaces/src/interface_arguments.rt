//! A field has the arguments of the interface's field, with the same types (GraphQL, October 2021, sections 3.6 and
//! 3.7).
ghost use Rattle.std.specs.Prelude.{◌≡◌, ◌++◌, OnOk};
ghost use Rattle.language_types.specs.Types.{shape};
ghost use Rattle.type_system_report.specs.Fault.{reported};
ghost use Rattle.type_system_interfaces.specs.InterfaceArguments.{other_type, unmet_argument, unmet_arguments};
ghost use Rattle.type_system_interfaces.specs.Pair.{pair_value};
ghost use Rattle.type_system_interfaces.specs.SameTypes.{is_same_type};

use crate::layers::are_layers_same;
use crate::members::arguments;
use crate::pair::FieldPair;
use language_types::error::OutOfMemory;
use language_types::types::Type;
use schema::meta::Argument;
use schema::meta::named::first_named;
use type_system_report::report::report;
use type_system_report::{Fault, FaultKindOf};

/// Reports each argument of the interface's field that the field lacks, or has with another type.
pub(crate) fn report_unmet_arguments<'a, S>(
    faults: &mut Vec<Fault<'a>>,
    pair: &FieldPair<'a, S>,
) -> Result<(), OutOfMemory>
    ensures { OnOk result (reported faults.new ≡ reported faults.old ++ unmet_arguments (pair_value pair.now)) }
{
    for wanted in arguments(pair.wanted) {
        report_unmet_argument(faults, pair, wanted)?;
    }
    Ok(())
}

fn report_unmet_argument<'a, S>(
    faults: &mut Vec<Fault<'a>>,
    pair: &FieldPair<'a, S>,
    wanted: &'a Argument<S>,
) -> Result<(), OutOfMemory>
    ensures { OnOk result (reported faults.new ≡ reported faults.old
        ++ unmet_argument (pair_value pair.now) wanted.now) }
{
    let name = wanted.name.as_str();
    match first_named(arguments(pair.given), name) {
        Some(given) => report_other_type(faults, pair, wanted, given),
        None => report(
            faults,
            pair.given_field(),
            FaultKindOf::MissingArgument(pair.wanted_argument(name)),
        ),
    }
}

fn report_other_type<'a, S>(
    faults: &mut Vec<Fault<'a>>,
    pair: &FieldPair<'a, S>,
    wanted: &'a Argument<S>,
    given: &'a Argument<S>,
) -> Result<(), OutOfMemory>
    ensures { OnOk result (reported faults.new ≡ reported faults.old
        ++ other_type (pair_value pair.now) wanted.now given.now) }
{
    let name = wanted.name.as_str();
    if !is_same_type(&wanted.arg_type, &given.arg_type) {
        report(
            faults,
            pair.given_argument(name),
            FaultKindOf::WrongArgumentType(
                pair.wanted_argument(name),
                wanted.arg_type.as_borrowed(),
                given.arg_type.as_borrowed(),
            ),
        )?;
    }
    Ok(())
}

fn is_same_type(left: &Type, right: &Type) -> bool
    ensures { result ≡ is_same_type (shape left.now) (shape right.now) }
{
    left.innermost_name() == right.innermost_name()
        && are_layers_same(left.modifiers(), right.modifiers())
}
