//! Why two fields of one response name can't be merged, whatever stands below them, and the messages for it (GraphQL,
//! October 2021, section 5.3.2).
#![tactic(auto)]

pub mod alike;
mod arguments;
pub mod direct;
pub mod entry;
mod equal_values;
pub mod kinds;
pub mod numbered;
pub mod objects;
pub mod own_fields;
pub mod texts;
mod type_conflict;
