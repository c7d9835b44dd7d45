//! Metadata of types (GraphQL, October 2021, sections 3.4 to 3.13), and the checks of their values.
#![tactic(auto)]

pub mod arguments;
pub mod check;
pub mod default_check;
pub mod deprecation;
pub mod enum_values;
pub mod enums;
pub mod fields;
pub mod inputs;
pub mod interfaces;
pub mod kinds;
pub mod named;
pub mod objects;
mod places;
pub mod scalars;
pub mod texts;
pub mod unions;
pub mod wrappers;

pub use arguments::Argument;
pub use default_check::{DefaultCheck, InputValueParseFn, ScalarTokenKind, ScalarTokenParseFn};
pub use deprecation::DeprecationStatus;
pub use enum_values::EnumValue;
pub use enums::{EnumMeta, EnumMetaOf};
pub use fields::Field;
pub use inputs::{InputObjectMeta, InputObjectMetaOf};
pub use interfaces::InterfaceMeta;
pub use kinds::{MetaType, MetaTypeOf, TypeKind};
pub use objects::ObjectMeta;
pub use scalars::{ScalarMeta, ScalarMetaOf};
pub use unions::UnionMeta;
pub use wrappers::{ListMeta, NullableMeta, PlaceholderMeta};
