//! The rules on fragments and on the types that a document names (GraphQL, October 2021, sections 5.5 and 5.8.2), each
//! in a module of its own.
#![tactic(auto)]

mod conditions;
pub mod fragments_on_composite_types;
pub mod known_fragment_names;
pub mod known_type_names;
pub mod possible_fragment_spreads;
pub mod unique_fragment_names;
