//! The smallest list, and a document with one error.
use crate::build::{Checks, common};
use crate::documents::{Query, alone, dog, query, spread};
use crate::rows::{ObjectRow, add_objects};
use language::error::OutOfMemory;
use meta::MetaType;
use std::alloc::Global;

const DOG_AND_ROOT: [ObjectRow; 2] = [
    ("Dog", &[], &[("name", "String", &[])]),
    ("QueryRoot", &[], &[("dog", "Dog", &[])]),
];

/// The types of a dog with a name.
///
/// # Errors
///
/// Out of memory.
pub fn types(alloc: Global, checks: Checks) -> Result<Vec<MetaType>, OutOfMemory> {
    let mut types = common(alloc, checks.string, checks.boolean)?;
    add_objects(alloc, &mut types, &DOG_AND_ROOT)?;
    Ok(types)
}

/// `{ dog { ...A } }`
///
/// # Errors
///
/// Out of memory.
pub fn document<'a>(alloc: Global) -> Result<Vec<Query<'a>>, OutOfMemory> {
    let selection = dog(alloc, 2, 12, spread(8, "A"))?;
    alone(alloc, query(alloc, None, 0, 16, selection)?)
}
