//! Fields of one kind, which nothing that is asked of two fields tells apart.
ghost use Rattle.std.specs.Prelude.{◌≡◌, IsTrue, option_and_then, option_copied};
ghost use Rattle.std.specs.Bool.{Decides, OnTrue};
ghost use Rattle.merge_field_pairs.specs.Entries.{plain, object_name};
ghost use Rattle.merge_field_pairs.specs.Kinds.{IsKin};
ghost use Rattle.merge_field_pairs.specs.SimpleArguments.{HasSimpleArguments};

use crate::alike::are_alike;
use crate::entry::Entry;
use crate::objects::name_of_object;
use language::scalar::ScalarValue;
use meta::kinds::MetaTypeOf;

/// Whether two fields are alike, and stand in object types of one name, or both in no object type. So with any third
/// field the one conflicts where the other does. Where an argument is a list or an object, `false` says nothing.
pub fn are_kin<S: ScalarValue, C>(left: &Entry<'_, S, C>, right: &Entry<'_, S, C>) -> bool
    ensures value { OnTrue result (IsKin S.eq (plain left.now) (plain right.now)) }
    ensures found { HasSimpleArguments (plain left.now) → HasSimpleArguments (plain right.now)
        → IsKin S.eq (plain left.now) (plain right.now) → IsTrue result }
{
    // The names of the types first: they cost less than the arguments.
    have_one_object(left.parent, right.parent) && are_alike(left, right)
}

// Whether both are object types of one name, or neither is an object type.
fn have_one_object<S, C>(left: Option<&MetaTypeOf<S, C>>, right: Option<&MetaTypeOf<S, C>>) -> bool
    ensures { Decides result
        (option_and_then object_name (option_copied left.entry)
        ≡ option_and_then object_name (option_copied right.entry)) }
{
    match (name_of_object(left), name_of_object(right)) {
        (Some(l), Some(r)) => l == r,
        (None, None) => true,
        _ => false,
    }
}
