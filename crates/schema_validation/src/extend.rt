//! The addition of `__schema` and `__type` to the query root (section 4.1).
ghost use Rattle.std.specs.Prelude.{◌≡◌, ◌<◌, ◌&&◌, IfErr, IfOk, true, length};
ghost use Rattle.std.specs.List.{HoldsAt};
ghost use Rattle.schema_validation.specs.Accepted.{is_named, is_object_listed};
ghost use Rattle.schema_validation.specs.Added.{HasAddedFields, IsExtended};
ghost use Rattle.meta.specs.Kinds.{is_object_meta};

use crate::added::{make_schema_field, make_type_field};
use crate::error::SchemaError;
use meta::kinds::MetaTypeOf;
use meta::objects::ObjectMeta;
use std::alloc::Global;

fn extend_object<S: Drop>(
    alloc: Global,
    object: ObjectMeta<S>,
) -> Result<ObjectMeta<S>, SchemaError>
    ensures added { IfOk result (λ o. HasAddedFields object o) }
    ensures err { IfErr result (λ e. e ≡ SchemaError.OutOfMemory) }
{
    let schema_field = make_schema_field(alloc)?;
    let type_field = make_type_field(alloc)?;
    let extended = object.add_field(schema_field)?;
    let whole = extended.add_field(type_field)?;
    Ok(whole)
}

/// The index of the first object type of this name.
fn object_index<S, C>(types: &[MetaTypeOf<S, C>], name: &str) -> usize
    requires { is_object_listed types.now name.now ≡ true }
    ensures within { result < length types.now }
    ensures object { HoldsAt (λ t. (is_named name.now t && is_object_meta t) ≡ true) types.now result }
{
    for (i, meta) in types.iter().enumerate() {
        if meta.name() == Some(name) && matches!(meta, MetaTypeOf::Object(_)) {
            return i;
        }
    }
    unreachable!()
}

/// The list of types, with `__schema` and `__type` added to the object type of this name.
///
/// # Errors
///
/// Out of memory.
pub fn with_added_fields<S: Drop, C: Drop>(
    alloc: Global,
    types: Vec<MetaTypeOf<S, C>>,
    query: &str,
) -> Result<Vec<MetaTypeOf<S, C>>, SchemaError>
    requires { is_object_listed types.items query.now ≡ true }
    ensures extended { IfOk result (λ v. IsExtended query.now types.items v.items) }
    ensures err { IfErr result (λ e. e ≡ SchemaError.OutOfMemory) }
{
    let mut types = types;
    let at = object_index(types.as_slice(), query);
    match types.remove(at) {
        MetaTypeOf::Object(object) => {
            let extended = extend_object(alloc, object)?;
            types.insert(at, MetaTypeOf::Object(extended))?;
            Ok(types)
        }
        _ => unreachable!(),
    }
}
