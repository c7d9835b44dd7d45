//! A field of a selection set with what the schema says of it.
ghost use Rattle.std.specs.Prelude.{◌≡◌, IsTrue, ◌↔◌, true};
ghost use Rattle.merge_field_pairs.specs.Entries.{plain, response_of, exclusive_of, are_two_objects};

use language::position::Spanning;
use language::tree::Field;
use meta::Field as FieldMeta;
use meta::kinds::MetaTypeOf;

/// A field of a selection set, with the type of the set and its own metadata, where they are known.
#[derive_where(Clone, Copy)]
pub struct Entry<'a, S, C> {
    pub parent: Option<&'a MetaTypeOf<S, C>>,
    pub field: &'a Spanning<Field<'a, S>>,
    pub metadata: Option<&'a FieldMeta<S>>,
}

impl<'a, S, C> Entry<'a, S, C> {
    /// The response name: the alias, or the name.
    pub fn response_name(&self) -> &'a str
        ensures { result.now ≡ response_of (plain self.now) }
    {
        let field = self.field;
        match &field.item.alias {
            Some(alias) => alias.item,
            None => field.item.name.item,
        }
    }
}

/// Whether two fields have one response name.
pub fn have_one_response_name<S, C>(left: &Entry<'_, S, C>, right: &Entry<'_, S, C>) -> bool
    ensures { IsTrue result ↔ (response_of (plain left.now) ≡ response_of (plain right.now)) }
{
    left.response_name() == right.response_name()
}

/// Whether no response contains both: their surroundings exclude each other, or they stand in two object types of
/// different names.
pub fn are_exclusive<S, C>(exclusive: bool, left: &Entry<'_, S, C>, right: &Entry<'_, S, C>) -> bool
    ensures value { result ≡ exclusive_of exclusive (plain left.now) (plain right.now) }
    ensures either_order { result ≡ exclusive_of exclusive (plain right.now) (plain left.now) }
    ensures more_where_exclusive { IsTrue result → IsTrue (exclusive_of true (plain left.now) (plain right.now)) }
{
    exclusive || are_two_object_types(left, right)
}

fn are_two_object_types<S, C>(left: &Entry<'_, S, C>, right: &Entry<'_, S, C>) -> bool
    ensures { result ≡ are_two_objects (plain left.now).parent (plain right.now).parent }
{
    match (left.parent, right.parent) {
        (Some(MetaTypeOf::Object(l)), Some(MetaTypeOf::Object(r))) => {
            l.name.as_str() != r.name.as_str()
        }
        _ => false,
    }
}
