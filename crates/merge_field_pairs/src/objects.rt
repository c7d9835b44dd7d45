//! The object type around a field, by a number.
ghost use Rattle.std.specs.Prelude.{◌≡◌, option_and_then, option_copied};
ghost use Rattle.merge_field_pairs.specs.Entries.{plain, object_name};
ghost use Rattle.merge_field_pairs.specs.Objects.{object_number};

use crate::entry::Entry;
use meta::kinds::MetaTypeOf;
use name_tables::slots::slot_of;

// So many numbers there are; two names may share one. A set of them takes 2 KB.
const NUMBERS: usize = 1 << 14;

/// The name of a type, if it is an object type.
pub(crate) fn name_of_object<'a, S, C>(parent: Option<&'a MetaTypeOf<S, C>>) -> Option<&'a str>
    ensures { option_copied result ≡ option_and_then object_name (option_copied parent.entry) }
{
    match parent {
        Some(MetaTypeOf::Object(object)) => Some(object.name.as_str()),
        _ => None,
    }
}

/// A number for the object type around a field, from 1 on, by its name; 0 where there is none.
pub fn object_number<S, C>(field: &Entry<'_, S, C>) -> usize
    ensures { result ≡ object_number (plain field.now) }
{
    match name_of_object(field.parent) {
        Some(name) => slot_of(name, NUMBERS) + 1,
        None => 0,
    }
}
