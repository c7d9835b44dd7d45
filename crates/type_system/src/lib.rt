//! Faults of a type system: where a schema is other than GraphQL, October 2021, section 3 asks.
#![tactic(auto)]

pub mod all;
mod introspected;
mod output_types;
mod required_members;
mod reserved_names;
mod reserved_values;
mod root_types;
mod some_fields;
mod some_locations;
mod some_members;
mod some_values;
mod unique_members;

pub use all::{directive_faults, schema_faults, type_system_faults};
pub use type_system_report::{Coordinate, CoordinateOf, Fault, FaultKind, FaultKindOf, FaultOf};
