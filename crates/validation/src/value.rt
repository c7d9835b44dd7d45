//! Scalars, and the values that variables have.

pub use language::scalar::ScalarValue;
pub use language::value::{DefaultScalarValue, InputValue, Variables};
