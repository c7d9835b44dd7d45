//! A schema with custom scalars that take any literal, and an input object with a default.
ghost use Rattle.std.specs.Prelude.{[], true};
ghost use Rattle.meta.specs.Answers.{AnswersBy};

use language::error::{CheckError, OutOfMemory};
use language_values::value::{DefaultScalarValue, InputValue};
use meta::default_check::DefaultCheck;
use meta::{MetaType, ScalarMetaOf};
use samples::build::with_int;
use samples::checks::{check_boolean, check_complex_input, check_int, check_string, refuse_token};
use samples::rows::{ArgumentRow, ObjectRow, add_objects, input_object};
use schema::error::SchemaError;
use schema::model::SchemaType;
use std::alloc::Global;

const O: [ArgumentRow; 3] = [("a", "Int! = 0"), ("b", "Int!"), ("c", "[O!]")];

const ROOT: [ObjectRow; 1] = [(
    "QueryRoot",
    &[],
    &[
        ("any", "Int", &[("v", "JSON")]),
        ("map", "Int", &[("v", "Map")]),
        ("obj", "Int", &[("o", "O")]),
    ],
)];

// Accepts every value.
fn check_any(_alloc: Global, value: &InputValue<DefaultScalarValue>) -> Result<(), CheckError>
    ensures { AnswersBy (λ v. true) [] value.now result }
{
    let _ = value;
    Ok(())
}

// A scalar with this check, which takes any literal.
fn custom(alloc: Global, name: &str, check: DefaultCheck) -> Result<MetaType, OutOfMemory> {
    Ok(
        ScalarMetaOf::with_check(alloc, name, check)?
            .with_any_literal()
            .into_meta(),
    )
}

fn types(alloc: Global) -> Result<Vec<MetaType>, OutOfMemory> {
    let string = DefaultCheck::with_token(check_string, refuse_token);
    let boolean = DefaultCheck::with_token(check_boolean, refuse_token);
    let int = DefaultCheck::with_token(check_int, refuse_token);
    let mut types = with_int(alloc, string, boolean, int)?;
    let any = DefaultCheck::with_token(check_any, refuse_token);
    types.push(custom(alloc, "JSON", any)?)?;
    let map = DefaultCheck::with_token(check_complex_input, refuse_token);
    types.push(custom(alloc, "Map", map)?)?;
    let object = DefaultCheck::new(check_complex_input);
    types.push(input_object(alloc, "O", &O, object)?)?;
    add_objects(alloc, &mut types, &ROOT)?;
    Ok(types)
}

/// The schema.
pub fn schema(alloc: Global) -> Result<SchemaType<DefaultScalarValue>, SchemaError> {
    SchemaType::<DefaultScalarValue>::new(
        alloc,
        types(alloc)?,
        "QueryRoot",
        "_EmptyMutation",
        "_EmptySubscription",
    )
}
