//! Laws of values of variables.

ghost use Rattle.schema.specs.Catalog.{Catalog};
ghost use Rattle.variable_values_laws.specs.Laws.{AcceptedWhereConform, EmptyIffConform, FaultlessIffConforms};
ghost use Rattle.variable_values_laws.specs.Laws.{NoErrorIffConform, NoneIffConforms, OneSortedAnswer, OneListOfErrors};

use meta::check::CheckedScalar;

/// A value has no faults against a type if and only if it conforms to the type, and then it has no other list of
/// faults.
pub fn faultless_values_conform<S: CheckedScalar>()
    ensures faultless { (schema : Catalog S S.Check) → FaultlessIffConforms schema S.may_answer S.text S.str_of }
    ensures collection { (schema : Catalog S S.Check) → NoneIffConforms schema S.may_answer S.text S.str_of }
{}

/// An operation has no errors if and only if the values of all its variables conform to their types.
pub fn conforming_variables<S: CheckedScalar>()
    ensures { (schema : Catalog S S.Check) → NoErrorIffConform schema S.may_answer S.text S.str_of }
{}

/// Where the values of an operation's variables conform, each check that is run accepts the value that it is given.
pub fn accepted_where_conforming<S: CheckedScalar>()
    ensures { (schema : Catalog S S.Check) → AcceptedWhereConform schema S.may_answer S.text S.str_of }
{}

/// The values of an operation's variables have one list of errors.
pub fn one_list_of_errors<S: CheckedScalar>()
    ensures { (schema : Catalog S S.Check) → OneListOfErrors schema S.may_answer S.text S.str_of }
{}

/// Unless it runs out of memory, `validate_input_values` has one result: its contract allows one list of errors,
/// which is empty if and only if the values of all variables conform.
pub fn one_answer<S: CheckedScalar>()
    ensures alone { (schema : Catalog S S.Check) → OneSortedAnswer schema S.may_answer S.text S.str_of }
    ensures empty { (schema : Catalog S S.Check) → EmptyIffConform schema S.may_answer S.text S.str_of }
{}
