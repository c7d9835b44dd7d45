//! Schemas.

pub mod dialect;
mod made;
pub mod schemas;
mod type_calls;
pub mod types;

pub use dialect::Dialect;
pub use schema_validation::directives::{DirectiveLocation, DirectiveType};
pub use schemas::{SchemaType, SchemaTypeOf};
pub use types::{TypeType, TypeTypeOf};
