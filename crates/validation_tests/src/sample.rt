//! A schema and a document that has every kind of node, for the tests.

use language::error::OutOfMemory;
use language::types::Type;
use language::value::DefaultScalarValue;
use meta::default_check::DefaultCheck;
use meta::{Argument, MetaType};
use samples::build::{FieldMeta, common, object, own_fields, scalar};
use samples::checks::{check_string, refuse_token};
use samples::rows::{ArgumentRow, ObjectRow, add_objects, field, input_object, written};
use schema::error::SchemaError;
use schema::model::SchemaType;
use std::alloc::Global;

/// A node of every kind, each scalar with a text of its own.
pub const DOCUMENT: &[u8] = b"\
query Q($a: [Int]! = [\"one\"] @skip(if: \"two\"), $b: Pair) @include(if: $a) {
  pet: dog(pair: {a: \"three\", zz: {a: SIT}}, sizes: [[null]], other: \"four\") @nope(x: \"five\") {
    name(x: \"six\")
    ...F @skip(if: \"seven\")
    ... on Cat @skip { meows }
    ... @include { friends { name } }
  }
  unknown(x: [\"eight\"]) { y }
}
mutation M { feed { name } }
subscription S { dog { name } }
fragment F on Dog @skip { __typename }
";

const PAIR: [ArgumentRow; 2] = [("a", "Int!"), ("a", "String")];

const DOG_AND_FEED: [ObjectRow; 2] = [
    (
        "Dog",
        &[],
        &[
            ("name", "String", &[("x", "Int"), ("x", "String")]),
            ("name", "Int", &[]),
            ("friends", "[Dog!]!", &[]),
        ],
    ),
    ("MutationRoot", &[], &[("feed", "Dog", &[])]),
];

/// `QueryRoot { dog(pair: Pair!, sizes: [[Int]!]): Dog! }`
fn query_root(alloc: Global) -> Result<MetaType, OutOfMemory> {
    let mut fields = own_fields(alloc)?;
    fields.push(dog_field(alloc)?)?;
    object(alloc, "QueryRoot", &[], fields)
}

fn dog_field(alloc: Global) -> Result<FieldMeta, OutOfMemory> {
    let dog = field(alloc, &("dog", "Dog!", &[("pair", "Pair!")]))?;
    dog.argument(Argument::new(alloc, "sizes", sizes(alloc)?)?)
}

/// `[[Int]!]`
fn sizes(alloc: Global) -> Result<Type, OutOfMemory> {
    written(alloc, "[Int]")?.wrap_non_null()?.wrap_list(None)
}

/// The check of each scalar.
fn scalar_check() -> DefaultCheck {
    DefaultCheck::with_token(check_string, refuse_token)
}

/// `Int`, and what each schema has.
fn scalars(alloc: Global) -> Result<Vec<MetaType>, OutOfMemory> {
    let mut types = common(alloc, scalar_check(), scalar_check())?;
    types.push(scalar(alloc, "Int", scalar_check())?)?;
    Ok(types)
}

/// The types of the walks.
fn sample_types(alloc: Global) -> Result<Vec<MetaType>, OutOfMemory> {
    let mut types = scalars(alloc)?;
    let pair = input_object(alloc, "Pair", &PAIR, DefaultCheck::new(check_string))?;
    types.push(pair)?;
    types.push(query_root(alloc)?)?;
    add_objects(alloc, &mut types, &DOG_AND_FEED)?;
    Ok(types)
}

/// The schema of the walks, which has a root of mutations and none of subscriptions.
pub fn sample_schema(alloc: Global) -> Result<SchemaType<DefaultScalarValue>, SchemaError> {
    SchemaType::<DefaultScalarValue>::new(
        alloc,
        sample_types(alloc)?,
        "QueryRoot",
        "MutationRoot",
        "_EmptySubscription",
    )
}
