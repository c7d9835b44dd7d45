//! Which types are subtypes of which (section 3.6).
ghost use Rattle.std.specs.Prelude.{◌≡◌, ◌↔◌, IsTrue, ◌&&◌, reverse};
ghost use Rattle.language_types.specs.Types.{TypeShape, borrowed_shape};
ghost use Rattle.schema_validation.specs.Accepted.{is_listed};
ghost use Rattle.meta.specs.Kinds.{is_abstract_meta};
ghost use Rattle.schema.specs.Possible.{is_among, possible_names};
ghost use Rattle.schema.specs.Layers.{are_layers_below};
ghost use Rattle.schema.specs.Subtype.{may_be, is_name_below, IsSubtype};

use crate::model::schemas::SchemaTypeOf;
use language::types::{BorrowedType, TypeModifier};
use meta::kinds::MetaTypeOf;

/// Whether the one type is a subtype of the other, by their modifiers and whether their names are.
fn are_modifiers_below(
    sub_type: &[TypeModifier],
    super_type: &[TypeModifier],
    are_names_below: bool,
) -> bool
    ensures { result ≡ are_layers_below are_names_below (reverse sub_type.now) (reverse super_type.now) }
{
    match (sub_type.split_last(), super_type.split_last()) {
        (None, None) => are_names_below,
        (Some((TypeModifier::NonNull, inner)), Some((TypeModifier::NonNull, outer))) => {
            are_modifiers_below(inner, outer, are_names_below)
        }
        (Some((TypeModifier::List(_), inner)), Some((TypeModifier::List(_), outer))) => {
            are_modifiers_below(inner, outer, are_names_below)
        }
        (Some((TypeModifier::NonNull, inner)), _) => {
            are_modifiers_below(inner, super_type, are_names_below)
        }
        _ => false,
    }
}

impl<S, C> SchemaTypeOf<S, C> {
    /// Whether the first type is a subtype of the second (sections 3.6 and 5.8.5), so that its values
    /// may be used where the second is expected. Expected sizes of lists do not matter.
    ///
    /// The relation is reflexive and transitive, even for names that the schema does not have.
    pub fn is_subtype(&self, sub_type: BorrowedType<'_>, super_type: BorrowedType<'_>) -> bool
        ensures subtype { IsTrue result
            ↔ IsSubtype self.now.types (borrowed_shape sub_type.entry) (borrowed_shape super_type.entry) }
        ensures reflexive { borrowed_shape sub_type.entry ≡ borrowed_shape super_type.entry → IsTrue result }
        ensures transitive { (t : TypeShape) → IsSubtype self.now.types (borrowed_shape sub_type.entry) t
            → IsSubtype self.now.types t (borrowed_shape super_type.entry) → IsTrue result }
    {
        let are_names_below = self.is_named_subtype(
            sub_type.innermost_name(),
            super_type.innermost_name(),
        );
        are_modifiers_below(
            sub_type.modifiers(),
            super_type.modifiers(),
            are_names_below,
        )
    }

    /// Whether the names are equal, or the schema has both types and the first is a possible type of
    /// the second, which is an interface or a union.
    pub fn is_named_subtype(&self, sub_type_name: &str, super_type_name: &str) -> bool
        ensures { result ≡ is_name_below self.now.types sub_type_name.now super_type_name.now }
    {
        sub_type_name == super_type_name
            || self.is_known(sub_type_name) && self.may_be_named(super_type_name, sub_type_name)
    }

    /// Whether the schema has a type of this name, as [`SchemaTypeOf::make_type`] requires.
    pub fn is_known(&self, name: &str) -> bool
        ensures { result ≡ is_listed self.now.types name.now }
    {
        self.concrete_type_by_name(name).is_some()
    }

    /// Whether the first name is that of an interface or a union, and the second a possible type of it.
    fn may_be_named(&self, super_type_name: &str, sub_type_name: &str) -> bool
        ensures { result ≡ may_be self.now.types super_type_name.now sub_type_name.now }
    {
        match self.concrete_type_by_name(super_type_name) {
            Some(meta) => self.is_abstract_and_possible(meta, sub_type_name),
            None => false,
        }
    }

    fn is_abstract_and_possible(&self, meta: &MetaTypeOf<S, C>, name: &str) -> bool
        ensures { result ≡ (is_abstract_meta meta.now && is_among (possible_names self.now.types meta.now) name.now) }
    {
        meta.is_abstract() && self.is_possible_name(meta, name)
    }
}
