//! Required input fields that an object lacks (section 5.6.4).
ghost use Rattle.std.specs.Prelude.{◌≡◌, IfOk, option_map, string_bytes};
ghost use Rattle.language_types.specs.References.{list_copied};
ghost use Rattle.meta.specs.Kinds.{input_fields_of};
ghost use Rattle.schema.specs.Possible.{is_among};
ghost use Rattle.literals.specs.Judged.{keys_of, printed_name};
ghost use Rattle.literals.specs.Missing.{is_lacking, is_required, missing, missing_fault};

use crate::texts::missing_fields_fault;
use language_types::error::OutOfMemory;
use language_types::position::Spanning;
use language_values::value::InputValue;
use meta::arguments::Argument;
use meta::kinds::MetaTypeOf;
use std::alloc::Global;

/// The fault of an object without some required input fields; `None` if it has them all.
///
/// # Errors
///
/// Out of memory.
pub fn lacking<S, C>(
    alloc: Global,
    meta: &MetaTypeOf<S, C>,
    entries: &[(Spanning<String>, Spanning<InputValue<S>>)],
) -> Result<Option<String>, OutOfMemory>
    ensures { IfOk result (λ fault. option_map string_bytes fault
        ≡ missing_fault (printed_name meta.now) (missing (keys_of entries.now) (input_fields_of meta.now))) }
{
    let mut names: Vec<&str> = Vec::new(alloc);
    for field in fields_of(meta) {
        let name = field.name.as_str();
        if is_lacked(entries, names.as_slice(), field) {
            names.push(name)?;
        }
    }
    if names.is_empty() {
        Ok(None)
    } else {
        Ok(Some(missing_fields_fault(alloc, meta, names.as_slice())?))
    }
}

/// The fields of an input object; the empty list for any other kind of type.
fn fields_of<'t, S, C>(meta: &'t MetaTypeOf<S, C>) -> &'t [Argument<S>]
    ensures { result.now ≡ input_fields_of meta.now }
{
    match meta {
        MetaTypeOf::InputObject(object) => object.input_fields.as_slice(),
        _ => &[],
    }
}

/// Whether the field is required, is not a key of the object, and is not in the list of names.
fn is_lacked<S>(
    entries: &[(Spanning<String>, Spanning<InputValue<S>>)],
    names: &[&str],
    field: &Argument<S>,
) -> bool
    ensures { result ≡ is_lacking (keys_of entries.now) (list_copied names.now) field.now }
{
    let name = field.name.as_str();
    is_needed(field) && !is_key(entries, name) && !is_noted(names, name)
}

/// Whether the field is required: it is non-null and has no default value.
fn is_needed<S>(field: &Argument<S>) -> bool
    ensures { result ≡ is_required field.now }
{
    field.arg_type.is_non_null() && field.default_value.is_none()
}

fn is_key<S>(entries: &[(Spanning<String>, Spanning<InputValue<S>>)], name: &str) -> bool
    ensures { result ≡ is_among (keys_of entries.now) name.now }
{
    for (key, _) in entries {
        if key.item.as_str() == name {
            return true;
        }
    }
    false
}

fn is_noted(names: &[&str], name: &str) -> bool
    ensures { result ≡ is_among (list_copied names.now) name.now }
{
    for noted in names {
        if *noted == name {
            return true;
        }
    }
    false
}
