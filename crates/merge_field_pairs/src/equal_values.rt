//! Whether two values are equal, where that is plain: without memory, and in a time linear in values of one order.
ghost use Rattle.std.specs.Prelude.{◌≡◌, ◌&&◌, length, nat_eq, string_bytes, true};
ghost use Rattle.std.specs.Bool.{OnTrue};
ghost use Rattle.std.specs.List.{list_all};
ghost use Rattle.std.specs.Cmp.Lexicographic.{pointwise};
ghost use Rattle.language_values.specs.ValuesEqual.{unlocated_eq, entry_in};
ghost use Rattle.merge_field_pairs.specs.SimpleArguments.{IsSimple};

use language::position::Spanning;
use language::scalar::ScalarValue;
use language::value::InputValue;

/// Whether two values are equal, positions aside. Of lists and objects `false` says nothing: it is the answer where
/// they are nested deeper than so many levels, so that the machine's stack bears it.
#[cycle(equal_values)]
pub fn are_plainly_equal<S: ScalarValue>(
    left: &InputValue<S>,
    right: &InputValue<S>,
    levels: u32,
) -> bool
    ensures value { OnTrue result (unlocated_eq S.eq left.now right.now ≡ true) }
    ensures found { IsSimple left.now → result ≡ unlocated_eq S.eq left.now right.now }
{
    match (left, right) {
        (InputValue::Null, InputValue::Null) => true,
        (InputValue::Scalar(a), InputValue::Scalar(b)) => a == b,
        (InputValue::Enum(a), InputValue::Enum(b)) => a == b,
        (InputValue::Variable(a), InputValue::Variable(b)) => a == b,
        (InputValue::List(xs), InputValue::List(ys)) => {
            levels > 0 && are_items_equal(xs.as_slice(), ys.as_slice(), levels - 1)
        }
        (InputValue::Object(xs), InputValue::Object(ys)) => {
            levels > 0 && are_entries_equal(xs.as_slice(), ys.as_slice(), levels - 1)
        }
        _ => false,
    }
}

#[cycle(equal_values)]
fn are_items_equal<S: ScalarValue>(
    left: &[Spanning<InputValue<S>>],
    right: &[Spanning<InputValue<S>>],
    levels: u32,
) -> bool
    ensures { OnTrue result (pointwise (λ x y. unlocated_eq S.eq x.item y.item) left.now right.now ≡ true) }
{
    if left.len() != right.len() {
        return false;
    }
    for (i, x) in left.iter().enumerate() {
        if !are_plainly_equal(&x.item, &right[i].item, levels) {
            return false;
        }
    }
    true
}

#[cycle(equal_values)]
fn are_entries_equal<S: ScalarValue>(
    left: &[(Spanning<String>, Spanning<InputValue<S>>)],
    right: &[(Spanning<String>, Spanning<InputValue<S>>)],
    levels: u32,
) -> bool
    ensures { OnTrue result ((nat_eq (length left.now) (length right.now)
        && list_all (λ x. entry_in (unlocated_eq S.eq x.1.item) (string_bytes x.0.item) right.now) left.now) ≡ true) }
{
    if left.len() != right.len() {
        return false;
    }
    for (i, (key, value)) in left.iter().enumerate() {
        if !is_found(key.item.as_str(), &value.item, right, i, levels) {
            return false;
        }
    }
    true
}

// Whether an entry has this key and an equal value. Most often it stands at the same place as on the left.
#[cycle(equal_values)]
fn is_found<S: ScalarValue>(
    key: &str,
    value: &InputValue<S>,
    entries: &[(Spanning<String>, Spanning<InputValue<S>>)],
    place: usize,
    levels: u32,
) -> bool
    ensures { OnTrue result (entry_in (unlocated_eq S.eq value.now) key.now entries.now ≡ true) }
{
    if place < entries.len() && entries[place].0.item.as_str() == key {
        return are_plainly_equal(value, &entries[place].1.item, levels);
    }
    for (k, v) in entries {
        if k.item.as_str() == key {
            return are_plainly_equal(value, &v.item, levels);
        }
    }
    false
}
