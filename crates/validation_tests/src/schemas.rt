//! The sample schemas.

use language::value::DefaultScalarValue;
use meta::default_check::DefaultCheck;
use samples::build::Checks;
use samples::checks::{
    check_boolean, check_complex_input, check_dog_command, check_id, check_int, check_pair_input,
    check_string, refuse_token,
};
use samples::{boxes, pets};
use schema::error::SchemaError;
use schema::model::SchemaType;
use std::alloc::Global;

/// The check of each type.
pub fn checks() -> Checks {
    Checks {
        int: DefaultCheck::with_token(check_int, refuse_token),
        string: DefaultCheck::with_token(check_string, refuse_token),
        boolean: DefaultCheck::with_token(check_boolean, refuse_token),
        id: DefaultCheck::with_token(check_id, refuse_token),
        dog_command: DefaultCheck::new(check_dog_command),
        complex_input: DefaultCheck::new(check_complex_input),
        pair_input: DefaultCheck::new(check_pair_input),
    }
}

/// The schema `boxes` or `pets`, each type of which has its own check.
pub fn schema(alloc: Global, sample: &str) -> Result<SchemaType<DefaultScalarValue>, SchemaError> {
    let types = match sample {
        "boxes" => boxes::types(alloc, checks()),
        _ => pets::types(alloc, checks()),
    };
    SchemaType::<DefaultScalarValue>::new(
        alloc,
        types?,
        "QueryRoot",
        "_EmptyMutation",
        "_EmptySubscription",
    )
}
