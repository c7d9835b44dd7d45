//! The sample schema of dogs, cats and humans.

use language::value::DefaultScalarValue;
use meta::default_check::DefaultCheck;
use samples::build::Checks;
use samples::checks::{
    check_boolean, check_complex_input, check_dog_command, check_id, check_int, check_pair_input,
    check_string, refuse_token,
};
use samples::pets::types;
use schema::error::SchemaError;
use schema::model::SchemaType;
use std::alloc::Global;

/// The check of each type.
fn checks() -> Checks {
    Checks {
        int: DefaultCheck::with_token(check_int, refuse_token),
        string: DefaultCheck::with_token(check_string, refuse_token),
        boolean: DefaultCheck::with_token(check_boolean, refuse_token),
        id: DefaultCheck::with_token(check_id, refuse_token),
        dog_command: DefaultCheck::new(check_dog_command),
        complex_input: DefaultCheck::new(check_complex_input),
        pair_input: DefaultCheck::new(check_pair_input),
    }
}

/// The schema, each type of which has its own check.
pub fn schema(alloc: Global) -> Result<SchemaType<DefaultScalarValue>, SchemaError> {
    SchemaType::<DefaultScalarValue>::new(
        alloc,
        types(alloc, checks())?,
        "QueryRoot",
        "_EmptyMutation",
        "_EmptySubscription",
    )
}
