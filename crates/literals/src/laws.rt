//! Laws about faults.

ghost use Rattle.language_values.specs.ValuesPrinted.{printed_value};
ghost use Rattle.literals.specs.Laws.{AnswersAll, OneFault, SomeFault};
ghost use Rattle.schema.specs.Catalog.{Catalog};

use meta::check::CheckedScalar;

/// A value has at most one first fault against a type, and none if it conforms: any two results for one
/// value and one type are the same.
pub fn one_fault<S: CheckedScalar>()
    ensures { (schema : Catalog S S.Check) → OneFault schema S.may_answer (printed_value S.text S.str_of) }
{}

/// If each check accepts or refuses each value, then every value conforms to each type of the schema or
/// has a fault against it.
pub fn some_fault<S: CheckedScalar>()
    ensures { (schema : Catalog S S.Check) → AnswersAll S.may_answer
        → SomeFault schema S.may_answer (printed_value S.text S.str_of) }
{}
