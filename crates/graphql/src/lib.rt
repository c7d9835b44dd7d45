//! GraphQL (October 2021) as a server needs it: schemas and documents are read from their texts, and documents are
//! validated against a schema.
//!
//! [`read_schema`] reads type system definitions, and [`read_document`] reads a document. Where it refuses a text,
//! [`expected_tokens`] tells what may stand there. A [`RootNode`] validates documents, [`validate_text`] reads and
//! validates the document of a text, and [`validate_input_values`] checks the values of variables. `validation` is
//! re-exported whole, for rules of one's own and for schemas that are built by hand. `merge_field_laws` and
//! `variable_values_laws` say more of merging and of values, for proofs of one's own.
#![tactic(auto)]

pub use answers::validate_text;
pub use expected_tokens::{Expected, Keyword, Punctuator, expected_tokens, goes_on};
pub use graphql_reader::{
    Found, NESTING_LIMIT, ReadError, SourceScalar, SyntaxError, SyntaxFault, read_constant,
    read_document, read_document_within,
};
pub use introspection::{IntrospectionError, schema_text};
pub use merge_field_laws;
pub use sdl_reader::{Defined, Faults, PlacedFault, SchemaFault, SchemaReadError, read_schema};
pub use validation;
pub use validation::{
    Definition, InputValue, OutOfMemory, RootNode, RuleError, SchemaType, Variables,
    validate_input_values,
};
pub use variable_values_laws;
