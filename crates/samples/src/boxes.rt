//! Nested boxes and a connection: fields with the same response name whose types conflict.
use crate::build::{Checks, scalar, with_int};
use crate::rows::{InterfaceRow, ObjectRow, add_interfaces, add_objects};
use language::error::OutOfMemory;
use meta::MetaType;
use std::alloc::Global;

const INTERFACES: [InterfaceRow; 3] = [
    (
        "SomeBox",
        &[
            ("deepBox", "SomeBox", &[]),
            ("unrelatedField", "String", &[]),
            ("otherField", "String", &[]),
        ],
    ),
    ("NonNullStringBox1", &[("scalar", "String!", &[])]),
    ("NonNullStringBox2", &[("scalar", "String!", &[])]),
];

const BOXES: [ObjectRow; 4] = [
    (
        "StringBox",
        &["SomeBox"],
        &[
            ("scalar", "String", &[]),
            ("deepBox", "StringBox", &[]),
            ("unrelatedField", "String", &[]),
            ("listStringBox", "[StringBox]", &[]),
            ("stringBox", "StringBox", &[]),
            ("intBox", "IntBox", &[]),
        ],
    ),
    (
        "IntBox",
        &["SomeBox"],
        &[
            ("scalar", "Int", &[]),
            ("deepBox", "IntBox", &[]),
            ("unrelatedField", "String", &[]),
            ("listStringBox", "[StringBox]", &[]),
            ("stringBox", "StringBox", &[]),
            ("intBox", "IntBox", &[]),
        ],
    ),
    (
        "NonNullStringBox1Impl",
        &["NonNullStringBox1", "SomeBox"],
        &[
            ("scalar", "String!", &[]),
            ("deepBox", "SomeBox", &[]),
            ("unrelatedField", "String", &[]),
        ],
    ),
    (
        "NonNullStringBox2Impl",
        &["NonNullStringBox2", "SomeBox"],
        &[
            ("scalar", "String!", &[]),
            ("deepBox", "SomeBox", &[]),
            ("unrelatedField", "String", &[]),
        ],
    ),
];

const CONNECTION: [ObjectRow; 4] = [
    ("Node", &[], &[("id", "ID", &[]), ("name", "String", &[])]),
    ("Edge", &[], &[("node", "Node", &[])]),
    ("Connection", &[], &[("edges", "[Edge]", &[])]),
    (
        "QueryRoot",
        &[],
        &[
            ("someBox", "SomeBox", &[]),
            ("connection", "Connection", &[]),
        ],
    ),
];

/// The types of nested boxes and of a connection.
///
/// # Errors
///
/// Out of memory.
pub fn types(alloc: Global, checks: Checks) -> Result<Vec<MetaType>, OutOfMemory> {
    let mut types = with_int(alloc, checks.string, checks.boolean, checks.int)?;
    types.push(scalar(alloc, "ID", checks.id)?)?;
    add_boxes(alloc, &mut types)?;
    Ok(types)
}

fn add_boxes(alloc: Global, types: &mut Vec<MetaType>) -> Result<(), OutOfMemory> {
    add_interfaces(alloc, types, &INTERFACES)?;
    add_objects(alloc, types, &BOXES)?;
    add_objects(alloc, types, &CONNECTION)
}
