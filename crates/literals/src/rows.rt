//! The cases of a value and a type.
ghost use Rattle.std.specs.Prelude.{◌≡◌, ℕ, List, Option, is_some};
ghost use Rattle.language_values.specs.declared.value.InputValue.{out-InputValue};
ghost use Rattle.language_values.specs.Values.{list_items};
ghost use Rattle.language_values.specs.ValuesPrinted.{printed_value};
ghost use Rattle.schema.specs.Catalog.{Catalog};
ghost use Rattle.literals.specs.Expected.{expected_type};
ghost use Rattle.literals.specs.Judged.{other_length};
ghost use Rattle.literals.specs.Rows.{IsRowOf, IsStepOf, IsShorter, item_count, HasMeta, HasStepMeta, IsListRow};
ghost use Rattle.literals.specs.Rows.{IsListStep};

use crate::expected::{Expected, Layer};
use language_values::value::InputValue;
use meta::check::CheckedScalar;
use meta::kinds::MetaTypeOf;

/// The case of a value and a type, after the modifiers that the value passes are removed.
pub enum Row<'t, 'a, S, C> {
    /// The value conforms, whatever its items are.
    Conforms,
    /// A null, where this type is non-null.
    Null(Expected<'t, 'a, S, C>),
    /// A list that is not of the expected length: the expected length, then the actual one.
    Length(usize, usize),
    /// A list, whose items have to conform to this type.
    Items(Expected<'t, 'a, S, C>),
    /// A value for a type without modifiers.
    Plain(&'a MetaTypeOf<S, C>),
}

/// What the outermost layer of a type does with a value.
pub enum Step<'t, 'a, S, C> {
    /// It decides the case.
    Decides(Row<'t, 'a, S, C>),
    /// The value passes it, and is one for the type inside.
    Passes(Expected<'t, 'a, S, C>),
}

/// The number of items that a value has for a list type; `None` for null and for a variable, which may
/// be any list.
fn count_items<S>(value: &InputValue<S>) -> Option<usize>
    ensures { result ≡ item_count (out-InputValue S value.now) }
{
    match value {
        InputValue::Null => None,
        InputValue::Variable(_) => None,
        InputValue::List(items) => Some(items.len()),
        InputValue::Scalar(_) => Some(1),
        InputValue::Enum(_) => Some(1),
        InputValue::Object(_) => Some(1),
    }
}

fn is_list<S>(value: &InputValue<S>) -> bool
    ensures { result ≡ is_some (list_items value.now) }
{
    matches!(value, InputValue::List(_))
}

/// The expected length, if the actual one differs from it.
fn length_expected(size: Option<usize>, found: usize) -> Option<usize>
    ensures { result ≡ other_length size found }
{
    match size {
        None => None,
        Some(wanted) => { if wanted == found { None } else { Some(wanted) } }
    }
}

/// The case of a value and a type. A loop, since the types of variables are as deep as a document says.
pub fn row_of<'t, 'a, S: CheckedScalar>(
    expected: Expected<'t, 'a, S, S::Check>,
    value: &InputValue<S>,
) -> Row<'t, 'a, S, S::Check>
    ensures row { (schema : Catalog S S.Check) (fault : Option (List ℕ))
        → IsRowOf schema S.may_answer (printed_value S.text S.str_of) value.now (expected_type expected.entry) result
        fault }
    ensures metadata { HasMeta (expected_type expected.entry) result }
    ensures items { IsListRow value.now result }
{
    let mut at = expected;
    loop {
        match step_of(at, value) {
            Step::Decides(row) => return row,
            Step::Passes(inner) => at = inner,
        }
    }
}

// What the outermost layer of a type does with a value.
fn step_of<'t, 'a, S: CheckedScalar>(
    expected: Expected<'t, 'a, S, S::Check>,
    value: &InputValue<S>,
) -> Step<'t, 'a, S, S::Check>
    ensures step { (schema : Catalog S S.Check) (fault : Option (List ℕ))
        → IsStepOf schema S.may_answer (printed_value S.text S.str_of) value.now (expected_type expected.entry) result
        fault }
    ensures metadata { HasStepMeta (expected_type expected.entry) result }
    ensures items { IsListStep value.now result }
    ensures shorter { IsShorter (expected_type expected.entry) result }
{
    match expected.layer() {
        Layer::Plain(meta) => Step::Decides(Row::Plain(meta)),
        Layer::NonNull(inner) => {
            if value.is_null() {
                Step::Decides(Row::Null(expected))
            } else {
                Step::Passes(inner)
            }
        }
        Layer::List(inner, size) => match count_items(value) {
            None => Step::Decides(Row::Conforms),
            Some(found) => match length_expected(size, found) {
                Some(wanted) => Step::Decides(Row::Length(wanted, found)),
                None => {
                    if is_list(value) {
                        Step::Decides(Row::Items(inner))
                    } else {
                        Step::Passes(inner)
                    }
                }
            },
        },
    }
}
