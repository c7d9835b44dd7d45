//! A field requires no argument that the interface's field lacks (GraphQL, October 2021, sections 3.6 and 3.7).
ghost use Rattle.std.specs.Prelude.{◌≡◌, ◌++◌, OnOk};
ghost use Rattle.type_system_interfaces.specs.AddedArguments.{added_argument, added_arguments, is_added};
ghost use Rattle.type_system_report.specs.Fault.{reported};
ghost use Rattle.type_system_interfaces.specs.Pair.{pair_value};

use crate::members::{arguments, is_required};
use crate::pair::FieldPair;
use language_types::error::OutOfMemory;
use schema::meta::named::first_named;
use schema::meta::{Argument, Field};
use type_system_report::report::report;
use type_system_report::{Fault, FaultKindOf};

/// Reports each required argument of the field that the interface's field lacks.
pub(crate) fn report_added_arguments<'a, S>(
    faults: &mut Vec<Fault<'a>>,
    pair: &FieldPair<'a, S>,
) -> Result<(), OutOfMemory>
    ensures { OnOk result (reported faults.new ≡ reported faults.old ++ added_arguments (pair_value pair.now)) }
{
    for given in arguments(pair.given) {
        report_added_argument(faults, pair, given)?;
    }
    Ok(())
}

fn report_added_argument<'a, S>(
    faults: &mut Vec<Fault<'a>>,
    pair: &FieldPair<'a, S>,
    given: &'a Argument<S>,
) -> Result<(), OutOfMemory>
    ensures { OnOk result (reported faults.new ≡ reported faults.old
        ++ added_argument (pair_value pair.now) given.now) }
{
    if is_added(pair.wanted, given) {
        let at = pair.given_argument(given.name.as_str());
        report(faults, at, FaultKindOf::AddedArgument(pair.wanted_field()))?;
    }
    Ok(())
}

fn is_added<S>(wanted: &Field<S>, given: &Argument<S>) -> bool
    ensures { result ≡ is_added wanted.now given.now }
{
    is_required(given) && first_named(arguments(wanted), given.name.as_str()).is_none()
}
