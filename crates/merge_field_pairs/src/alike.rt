//! Fields that are plainly alike, so that no two of them conflict, wherever they stand.
ghost use Rattle.std.specs.Prelude.{◌≡◌, IsTrue, option_map, option_copied};
ghost use Rattle.std.specs.Bool.{Decides, OnTrue};
ghost use Rattle.language_types.specs.Types.{shape};
ghost use Rattle.merge_field_pairs.specs.Entries.{plain};
ghost use Rattle.merge_field_pairs.specs.SimpleArguments.{HasSimpleArguments};
ghost use Rattle.merge_field_pairs.specs.Alike.{AreAlike, known_type};

use crate::arguments::agree_either_way;
use crate::entry::Entry;
use language::scalar::ScalarValue;
use language::types::Type;
use meta::Field as FieldMeta;

/// Whether two fields have one name, the same arguments whichever is looked at first, and one type, or both an unknown
/// type. Where an argument is a list or an object, `false` says nothing: it may be nested too deep to be compared here.
pub fn are_alike<S: ScalarValue, C>(left: &Entry<'_, S, C>, right: &Entry<'_, S, C>) -> bool
    ensures value { OnTrue result (AreAlike S.eq (plain left.now) (plain right.now)) }
    ensures found { HasSimpleArguments (plain left.now) → HasSimpleArguments (plain right.now)
        → AreAlike S.eq (plain left.now) (plain right.now) → IsTrue result }
{
    let (l, r) = (left.field, right.field);
    l.item.name.item == r.item.name.item
        && have_one_type(left.metadata, right.metadata)
        && agree_either_way(&l.item.arguments, &r.item.arguments)
}

fn have_one_type<S>(left: Option<&FieldMeta<S>>, right: Option<&FieldMeta<S>>) -> bool
    ensures { Decides result (known_type (option_copied left.entry) ≡ known_type (option_copied right.entry)) }
{
    match (left, right) {
        (Some(l), Some(r)) => are_one_type(&l.field_type, &r.field_type),
        (None, None) => true,
        _ => false,
    }
}

fn are_one_type(left: &Type, right: &Type) -> bool
    ensures { Decides result (shape left.now ≡ shape right.now) }
{
    left.innermost_name() == right.innermost_name() && left.modifiers() == right.modifiers()
}
