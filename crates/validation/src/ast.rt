//! The trees of a document.

pub use language::tree::{
    Arguments, Definition, Directive, Document, Field, Fragment, FragmentSpread, InlineFragment,
    Operation, OperationType, Selection, VariableDefinition, VariableDefinitions,
};
pub use language::types::{BorrowedType, Type, TypeModifier};
pub use language::value::InputValue;
