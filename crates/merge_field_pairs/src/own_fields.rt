//! A field of a selection set under the type of the set, and the types of the sets below it and in inline fragments.
ghost use Rattle.std.specs.Prelude.{◌≡◌, option_copied};
ghost use Rattle.merge_field_pairs.specs.Entries.{plain};
ghost use Rattle.merge_field_pairs.specs.OwnFields.{metadata_under, entry_under, type_inside, type_below};

use crate::entry::Entry;
use language::position::Spanning;
use language::tree::Field;
use meta::Field as FieldMeta;
use meta::kinds::MetaTypeOf;
use schema::model::SchemaTypeOf;

/// The type of the set below a field: the innermost of the field's type, where that is known.
pub fn type_below_field<'a, S, C>(
    schema: &'a SchemaTypeOf<S, C>,
    entry: &Entry<'a, S, C>,
) -> Option<&'a MetaTypeOf<S, C>>
    ensures { option_copied result ≡ type_below schema.now (plain entry.now) }
{
    match entry.metadata {
        Some(metadata) => schema.concrete_type_by_name(metadata.field_type.innermost_name()),
        None => None,
    }
}

/// A field under the type of its set.
pub fn entry_of_field<'a, S, C>(
    parent: Option<&'a MetaTypeOf<S, C>>,
    field: &'a Spanning<Field<'a, S>>,
) -> Entry<'a, S, C>
    ensures { plain result ≡ entry_under (option_copied parent.entry) field.now }
{
    let metadata = metadata_of_field(parent, field.item.name.item);
    Entry {
        parent,
        field,
        metadata,
    }
}

fn metadata_of_field<'a, S, C>(
    parent: Option<&'a MetaTypeOf<S, C>>,
    name: &str,
) -> Option<&'a FieldMeta<S>>
    ensures { option_copied result ≡ metadata_under (option_copied parent.entry) name.now }
{
    parent?.field_by_name(name)
}

/// The type inside an inline fragment: that of its condition if it is known, else the type around it.
pub fn type_inside_fragment<'a, S, C>(
    schema: &'a SchemaTypeOf<S, C>,
    parent: Option<&'a MetaTypeOf<S, C>>,
    condition: &Option<Spanning<&str>>,
) -> Option<&'a MetaTypeOf<S, C>>
    ensures { option_copied result ≡ type_inside schema.now (option_copied parent.entry) condition.now }
{
    match condition {
        Some(name) => match schema.concrete_type_by_name(name.item) {
            Some(meta) => Some(meta),
            None => parent,
        },
        None => parent,
    }
}
