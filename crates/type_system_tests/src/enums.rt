//! Enums whose values have the names of other literals.
use crate::told::tells;
use language_types::error::OutOfMemory;
use meta::default_check::DefaultCheck;
use meta::{EnumMetaOf, EnumValue, MetaType};
use samples::build::common;
use samples::checks::{check_string, refuse_token};
use samples::rows::{ObjectRow, add_objects};
use schema::error::SchemaError;
use schema::model::SchemaType;
use std::alloc::Global;
use std::process::Abort;
use type_system::type_system_faults;
use type_system_validity::{has_valid_definitions, is_valid_type_system};

const ROOT: [ObjectRow; 1] = [("QueryRoot", &[], &[("name", "String", &[])])];

fn scalar_check() -> DefaultCheck {
    DefaultCheck::with_token(check_string, refuse_token)
}

fn enum_of(alloc: Global, values: &[&str]) -> Result<MetaType, OutOfMemory> {
    let mut listed = Vec::new(alloc);
    for value in values {
        listed.push(EnumValue::new(alloc, value)?)?;
    }
    let check = DefaultCheck::new(check_string);
    Ok(EnumMetaOf::with_check(alloc, "Size", listed, check)?.into_meta())
}

fn types_of(alloc: Global, values: &[&str]) -> Result<Vec<MetaType>, OutOfMemory> {
    let mut types = common(alloc, scalar_check(), scalar_check())?;
    add_objects(alloc, &mut types, &ROOT)?;
    types.push(enum_of(alloc, values)?)?;
    Ok(types)
}

fn schema_of(alloc: Global, values: &[&str]) -> Result<SchemaType, SchemaError> {
    let types = types_of(alloc, values)?;
    SchemaType::new(
        alloc,
        types,
        "QueryRoot",
        "_EmptyMutation",
        "_EmptySubscription",
    )
}

// Asserts that a schema with an enum of these values has these faults, a line for each, and is valid where it has none.
fn judge(rt: &impl Abort, alloc: Global, values: &[&str], want: &str) {
    let schema = schema_of(alloc, values).expect(rt, "a schema");
    let faults = type_system_faults(alloc, &schema).expect(rt, "memory");
    tells(rt, alloc, faults.as_slice(), want);
    let has_valid = has_valid_definitions(alloc, &schema).expect(rt, "memory");
    assert_eq!(rt; has_valid, want.is_empty());
    let is_valid = is_valid_type_system(alloc, &schema).expect(rt, "memory");
    assert_eq!(rt; is_valid, want.is_empty());
}

#[test]
fn values_are_no_other_literals(rt: HostRuntime) {
    let alloc = rt.alloc();
    judge(&rt, alloc, &["TRUE"], "");
    judge(
        &rt,
        alloc,
        &["true", "S", "null", "false"],
        "Size.true: Enum type Size cannot include value: true\n\
         Size.null: Enum type Size cannot include value: null\n\
         Size.false: Enum type Size cannot include value: false\n",
    );
}
