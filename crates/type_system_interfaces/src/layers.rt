//! Types by their modifiers.
ghost use Rattle.std.specs.Prelude.{◌≡◌, reverse};
ghost use Rattle.schema.specs.Layers.{are_layers_below};
ghost use Rattle.type_system_interfaces.specs.SameTypes.{are_layers_same};

use language_types::types::TypeModifier;

/// Whether the one type is a subtype of the other, by their modifiers and whether their names are.
pub(crate) fn are_layers_below(
    sub_type: &[TypeModifier],
    super_type: &[TypeModifier],
    are_names_below: bool,
) -> bool
    ensures { result ≡ are_layers_below are_names_below (reverse sub_type.now) (reverse super_type.now) }
{
    match (sub_type.split_last(), super_type.split_last()) {
        (None, None) => are_names_below,
        (Some((TypeModifier::NonNull, inner)), Some((TypeModifier::NonNull, outer))) => {
            are_layers_below(inner, outer, are_names_below)
        }
        (Some((TypeModifier::List(_), inner)), Some((TypeModifier::List(_), outer))) => {
            are_layers_below(inner, outer, are_names_below)
        }
        (Some((TypeModifier::NonNull, inner)), _) => {
            are_layers_below(inner, super_type, are_names_below)
        }
        _ => false,
    }
}

/// Whether the modifiers are the same, whatever sizes of lists are expected.
pub(crate) fn are_layers_same(left: &[TypeModifier], right: &[TypeModifier]) -> bool
    ensures { result ≡ are_layers_same (reverse left.now) (reverse right.now) }
{
    match (left.split_last(), right.split_last()) {
        (None, None) => true,
        (Some((TypeModifier::NonNull, left)), Some((TypeModifier::NonNull, right))) => {
            are_layers_same(left, right)
        }
        (Some((TypeModifier::List(_), left)), Some((TypeModifier::List(_), right))) => {
            are_layers_same(left, right)
        }
        _ => false,
    }
}
