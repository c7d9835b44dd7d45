//! What a type says of a value, its modifiers taken off.
ghost use Rattle.std.specs.Prelude.{◌≡◌, List, Some, true};
ghost use Rattle.language_types.specs.Types.{borrowed_shape, shape};
ghost use Rattle.schema_validation.specs.Names.{argument_type};
ghost use Rattle.meta.specs.Kinds.{is_input_meta};
ghost use Rattle.schema.specs.Catalog.{Catalog, type_in};
ghost use Rattle.variable_values.specs.Faults.{Fault};
ghost use Rattle.variable_values.specs.Rows.{HasName, HasStepName, IsIn, IsKnownRow, IsListRow, IsListStep, IsRowOf};
ghost use Rattle.variable_values.specs.Rows.{IsShorter, IsStepOf};
ghost use Rattle.variable_values.specs.Inputs.{is_input_in};

use language::types::{BorrowedType, TypeModifier};
use language::value::InputValue;
use meta::arguments::Argument;
use meta::check::CheckedScalar;
use meta::kinds::MetaTypeOf;
use schema::model::SchemaType;

/// What a type says of a value that stands under all its modifiers.
#[derive(Clone, Copy)]
pub enum Row<'t> {
    /// No fault.
    Nothing,
    /// A null, where this type is never null.
    Null(BorrowedType<'t>),
    /// A list of items of this type, for which this length is expected.
    Items(BorrowedType<'t>, Option<usize>),
    /// A value for the type of this name.
    Named(&'t str),
}

/// What the outermost modifier of a type does with a value.
#[derive(Clone, Copy)]
pub enum Step<'t> {
    /// It decides what the type says.
    Decides(Row<'t>),
    /// The value passes it, and is one for the type inside.
    Passes(BorrowedType<'t>),
}

/// What a type says of a value. A loop, since the types of variables are as deep as a document says.
pub fn row_of<'t, S: CheckedScalar>(expected: BorrowedType<'t>, value: &InputValue<S>) -> Row<'t>
    ensures row { (schema : Catalog S S.Check) (fs : List Fault)
        → IsRowOf schema S.may_answer S.text S.str_of value.now (borrowed_shape expected.entry) result fs }
    ensures name { HasName (borrowed_shape expected.entry) result }
    ensures items { IsListRow value.now result }
{
    let mut at = expected;
    loop {
        match step_of(at, value) {
            Step::Decides(row) => return row,
            Step::Passes(inner) => at = inner,
        }
    }
}

// What the outermost modifier of a type does with a value.
fn step_of<'t, S: CheckedScalar>(expected: BorrowedType<'t>, value: &InputValue<S>) -> Step<'t>
    ensures step { (schema : Catalog S S.Check) (fs : List Fault)
        → IsStepOf schema S.may_answer S.text S.str_of value.now (borrowed_shape expected.entry) result fs }
    ensures name { HasStepName (borrowed_shape expected.entry) result }
    ensures items { IsListStep value.now result }
    ensures shorter { IsShorter (borrowed_shape expected.entry) result }
{
    match expected.modifier() {
        None => Step::Decides(Row::Named(expected.innermost_name())),
        Some(TypeModifier::NonNull) => {
            if value.is_null() {
                Step::Decides(Row::Null(expected))
            } else {
                Step::Passes(expected.borrow_inner())
            }
        }
        Some(TypeModifier::List(size)) => match value {
            InputValue::Null => Step::Decides(Row::Nothing),
            InputValue::List(_) => Step::Decides(Row::Items(expected.borrow_inner(), *size)),
            _ => Step::Passes(expected.borrow_inner()),
        },
    }
}

/// What a type says of a value, where its name is that of an input type.
pub fn known_row<'t, S: CheckedScalar>(
    schema: &SchemaType<S>,
    expected: BorrowedType<'t>,
    value: &InputValue<S>,
) -> Row<'t>
    requires { is_input_in schema.now (borrowed_shape expected).name ≡ true }
    ensures row { (fs : List Fault)
        → IsRowOf schema.now S.may_answer S.text S.str_of value.now (borrowed_shape expected.entry) result fs }
    ensures known { IsKnownRow schema.now result }
    ensures items { IsListRow value.now result }
{
    row_of(expected, value)
}

/// The input type of a name.
pub fn input_type<'t, S: CheckedScalar>(
    schema: &'t SchemaType<S>,
    name: &str,
) -> &'t MetaTypeOf<S, S::Check>
    requires { is_input_in schema.now name.now ≡ true }
    ensures named { type_in name.now schema.now ≡ Some result.now }
    ensures known { IsIn schema.now result.now }
    ensures input { is_input_meta result.now ≡ true }
{
    match schema.concrete_type_by_name(name) {
        None => unreachable!(),
        Some(meta) => meta,
    }
}

/// The type of a field of an input object.
pub fn type_of_field<'t, S: CheckedScalar>(
    schema: &SchemaType<S>,
    field: &'t Argument<S>,
) -> BorrowedType<'t>
    requires { is_input_in schema.now (argument_type field.now) ≡ true }
    ensures made { borrowed_shape result ≡ shape field.now.arg_type }
    ensures known { is_input_in schema.now (borrowed_shape result).name ≡ true }
{
    let _ = schema;
    field.arg_type.as_borrowed()
}
