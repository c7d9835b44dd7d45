//! Laws of faults.

ghost use Rattle.schema.specs.Catalog.{Catalog};
ghost use Rattle.variable_values.specs.Asks.{AcceptedWhereAsked};
ghost use Rattle.variable_values.specs.Laws.{OneList};

use meta::check::CheckedScalar;

/// A value has one list of faults against a type: where the empty list is one, it is the only one.
pub fn one_list_of_faults<S: CheckedScalar>()
    ensures { (schema : Catalog S S.Check) → OneList schema S.may_answer S.text S.str_of }
{}

/// Where a value has no fault, each check that is run accepts the value that it is given.
pub fn accepted_where_asked<S: CheckedScalar>()
    ensures { (schema : Catalog S S.Check) → AcceptedWhereAsked schema S.may_answer S.text S.str_of }
{}
