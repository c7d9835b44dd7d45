//! The schemas of the sample lists, with the same check for every type.
use language_types::error::OutOfMemory;
use language_values::value::DefaultScalarValue;
use meta::MetaType;
use meta::default_check::DefaultCheck;
use samples::build::Checks;
use samples::checks::{check_string, refuse_token};
use samples::{demo, pets};
use schema::error::SchemaError;
use schema::model::SchemaType;
use std::alloc::Global;
use std::process::Abort;

pub type Schema = SchemaType<DefaultScalarValue>;

fn scalar_check() -> DefaultCheck {
    DefaultCheck::with_token(check_string, refuse_token)
}

pub fn input_check() -> DefaultCheck {
    DefaultCheck::new(check_string)
}

fn checks() -> Checks {
    Checks {
        int: scalar_check(),
        string: scalar_check(),
        boolean: scalar_check(),
        id: scalar_check(),
        dog_command: input_check(),
        complex_input: input_check(),
        pair_input: input_check(),
    }
}

pub fn demo_types(alloc: Global) -> Result<Vec<MetaType>, OutOfMemory> {
    demo::types(alloc, checks())
}

pub fn pets_types(alloc: Global) -> Result<Vec<MetaType>, OutOfMemory> {
    pets::types(alloc, checks())
}

/// The schema of a list with these roots, or why it is refused. All tests call this function, since a
/// call of the builder is expensive to prove.
pub fn schema_of(
    alloc: Global,
    types: Vec<MetaType>,
    query: &str,
    mutation: &str,
    subscription: &str,
) -> Result<Schema, SchemaError> {
    Schema::new(alloc, types, query, mutation, subscription)
}

/// The same with the query root alone.
pub fn schema_of_queries(alloc: Global, types: Vec<MetaType>) -> Result<Schema, SchemaError> {
    schema_of(
        alloc,
        types,
        "QueryRoot",
        "_EmptyMutation",
        "_EmptySubscription",
    )
}

/// The schema of the list `pets`.
pub fn pets_schema(rt: &impl Abort, alloc: Global) -> Schema {
    let types = pets_types(alloc).expect(rt, "the list");
    schema_of_queries(alloc, types).expect(rt, "a schema")
}
