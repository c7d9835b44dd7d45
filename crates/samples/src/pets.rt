//! Dogs, cats and humans, with arguments of every kind.
use crate::build::{Checks, with_int};
use crate::rows::{
    ArgumentRow, InterfaceRow, ObjectRow, UnionRow, add_interfaces, add_objects, add_unions,
    input_object,
};
use language::error::OutOfMemory;
use meta::default_check::DefaultCheck;
use meta::{EnumMetaOf, EnumValue, MetaType};
use std::alloc::Global;

const INTERFACES: [InterfaceRow; 2] = [
    ("Being", &[("name", "String", &[("surname", "Boolean")])]),
    ("Pet", &[("name", "String", &[("surname", "Boolean")])]),
];

const BEINGS: [ObjectRow; 3] = [
    (
        "Dog",
        &["Being", "Pet"],
        &[
            ("name", "String", &[("surname", "Boolean")]),
            ("nickname", "String", &[]),
            ("barkVolume", "Int", &[]),
            ("barks", "Boolean", &[]),
            (
                "doesKnowCommand",
                "Boolean",
                &[("dogCommand", "DogCommand")],
            ),
        ],
    ),
    (
        "Cat",
        &["Being", "Pet"],
        &[
            ("name", "String", &[("surname", "Boolean")]),
            ("nickname", "String", &[]),
            ("meows", "Boolean", &[]),
            ("meowVolume", "Int", &[]),
        ],
    ),
    (
        "Human",
        &["Being"],
        &[
            ("name", "String", &[("surname", "Boolean")]),
            ("pets", "[Pet]", &[]),
            ("relatives", "[Human]", &[]),
            ("iq", "Int", &[]),
        ],
    ),
];

const UNIONS: [UnionRow; 2] = [
    ("CatOrDog", &["Cat", "Dog"]),
    ("DogOrHuman", &["Dog", "Human"]),
];

const COMPLEX_INPUT: [ArgumentRow; 3] = [
    ("requiredField", "Boolean!"),
    ("intField", "Int"),
    ("stringListField", "[String]"),
];

const PAIR_INPUT: [ArgumentRow; 2] = [("b", "Int!"), ("a", "Int!")];

const ROOTS: [ObjectRow; 2] = [
    (
        "ComplicatedArgs",
        &[],
        &[
            ("intArgField", "String", &[("intArg", "Int")]),
            ("nonNullIntArgField", "String", &[("nonNullIntArg", "Int!")]),
            ("enumArgField", "String", &[("enumArg", "DogCommand")]),
            (
                "stringListArgField",
                "String",
                &[("stringListArg", "[String]")],
            ),
            (
                "complexArgField",
                "String",
                &[("complexArg", "ComplexInput")],
            ),
            ("pairArgField", "String", &[("pairArg", "PairInput")]),
            (
                "multipleReqs",
                "String",
                &[("req1", "Int!"), ("req2", "Int!")],
            ),
            (
                "multipleOpts",
                "String",
                &[("opt1", "Int = 0"), ("opt2", "Int = 0")],
            ),
        ],
    ),
    (
        "QueryRoot",
        &[],
        &[
            ("human", "Human", &[("id", "String")]),
            ("dog", "Dog", &[]),
            ("cat", "Cat", &[]),
            ("pet", "Pet", &[]),
            ("catOrDog", "CatOrDog", &[]),
            ("dogOrHuman", "DogOrHuman", &[]),
            ("complicatedArgs", "ComplicatedArgs", &[]),
        ],
    ),
];

/// The types of dogs, cats and humans, with arguments of every kind.
///
/// # Errors
///
/// Out of memory.
pub fn types(alloc: Global, checks: Checks) -> Result<Vec<MetaType>, OutOfMemory> {
    let mut types = with_int(alloc, checks.string, checks.boolean, checks.int)?;
    types.push(dog_command(alloc, checks.dog_command)?)?;
    add_beings(alloc, &mut types)?;
    add_inputs(alloc, &mut types, checks.complex_input, checks.pair_input)?;
    Ok(types)
}

fn dog_command(alloc: Global, check: DefaultCheck) -> Result<MetaType, OutOfMemory> {
    let mut values = Vec::new(alloc);
    for name in ["SIT", "HEEL", "DOWN"] {
        values.push(EnumValue::new(alloc, name)?)?;
    }
    Ok(EnumMetaOf::with_check(alloc, "DogCommand", values, check)?.into_meta())
}

fn add_beings(alloc: Global, types: &mut Vec<MetaType>) -> Result<(), OutOfMemory> {
    add_interfaces(alloc, types, &INTERFACES)?;
    add_objects(alloc, types, &BEINGS)?;
    add_unions(alloc, types, &UNIONS)
}

// The input objects, and the objects whose arguments take them.
fn add_inputs(
    alloc: Global,
    types: &mut Vec<MetaType>,
    complex: DefaultCheck,
    pair: DefaultCheck,
) -> Result<(), OutOfMemory> {
    types.push(input_object(alloc, "ComplexInput", &COMPLEX_INPUT, complex)?)?;
    types.push(input_object(alloc, "PairInput", &PAIR_INPUT, pair)?)?;
    add_objects(alloc, types, &ROOTS)
}
