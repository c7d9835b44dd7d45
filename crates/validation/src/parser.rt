//! Positions in a text, and what readers of documents share.

pub use language::error::ParseError;
pub use language::position::{SourcePosition, Span, Spanning};
pub use language::scalar::ScalarToken;
