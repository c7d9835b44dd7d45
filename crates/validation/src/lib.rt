//! Validation of documents against schemas (GraphQL, October 2021, section 5): the calls that try every rule, by
//! juniper's dialect and by the specification's, and the names of the crates below under juniper's paths.
//!
//! It re-exports the crates below that its users name, too, with their laws. What stands above it, and the readers of
//! texts, are re-exported by `graphql`.
#![tactic(auto)]

pub mod ast;
pub mod dialects;
pub mod parser;
mod root_node;
pub mod rules;
pub mod specified_rules;
pub mod value;

pub use crate::dialects::{DialectRules, visit_dialect_rules};
pub use crate::root_node::{RootNode, RootNodeOf, visit_root_rules};
pub use crate::rules::{AllRules, visit_all_rules};
pub use crate::specified_rules::{SpecifiedRules, visit_specified_rules};
pub use events;
pub use language;
pub use language::error::{CheckError, OutOfMemory};
pub use language::scalar::ScalarValue;
pub use language::tree::{Definition, Document, Operation, OperationType, Selection};
pub use language::types::{BorrowedType, Type, TypeModifier};
pub use language::value::{DefaultScalarValue, InputValue, Variables};
pub use literals::validate_literal_value;
pub use merge_walk_laws;
pub use meta;
pub use meta::check::CheckedScalar;
pub use rules_document;
pub use rules_first_stage::laws;
pub use schema;
pub use schema::error::SchemaError;
pub use schema::model::{Dialect, SchemaType};
pub use variable_values;
pub use variable_values::{has_input_types, validate_input_values};
pub use walk;
pub use walk::{
    Criterion, Event, Fresh, Machine, MultiVisitorCons, MultiVisitorNil, Rule, RuleError,
    SettledRule, ValidatorContext, ValidatorContextOf, Visitor, visit,
};
