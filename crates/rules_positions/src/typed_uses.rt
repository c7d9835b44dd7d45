//! The variables in the values of a document, where a type is expected.

ghost use Rattle.rules_positions.specs.TypedUses.{use_value, UseValue};

use crate::recorded_uses::VariableUse;
use language::position::SourcePosition;
use language::types::BorrowedType;

/// A variable in a value, with its place and the type that is expected there.
#[derive(Drop)]
pub struct TypedUse<'a> {
    pub variable: &'a str,
    pub place: SourcePosition,
    pub expected: BorrowedType<'a>,
}

impl<'a> VariableUse for TypedUse<'a> {
    ghost value_type = { UseValue };

    ghost value = { use_value };
}
