//! Errors of validation, the context of a walk, visitors, and the walk over a document.
#![tactic(auto)]

pub mod context;
mod kept_errors;
pub mod laws;
pub mod multi_visitor;
pub mod rule;
pub mod rule_error;
pub mod visitor;
pub mod walk;

pub use context::{ValidatorContext, ValidatorContextOf};
pub use events::Event;
pub use kept_errors::fill_limit;
pub use language::error::OutOfMemory;
pub use multi_visitor::{MultiVisitorCons, MultiVisitorNil};
pub use rule::{Criterion, Rule, SettledRule};
pub use rule_error::RuleError;
pub use visitor::{Fresh, Machine, Visitor};
pub use walk::{visit, visit_rules, visit_settled, walk_with};
