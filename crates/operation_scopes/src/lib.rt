//! The scopes of a document, which are its operations and fragments by name, and the definitions that
//! each operation reaches. A place is the index of a definition in its document, counted from 0.
#![tactic(auto)]

pub mod index;
pub mod operation_numbers;
pub mod places;
pub mod reach;
pub mod scope;
