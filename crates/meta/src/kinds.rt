//! Metadata of types of any kind.
ghost use Rattle.std.specs.Prelude.{◌≡◌, IfOk, IsSome, Some, option_copied};
ghost use Rattle.language_types.specs.Types.{shape};
ghost use Rattle.meta.specs.Kinds.{name_of_meta, description_of_meta, url_of_meta, kind_of_meta, field_named};
ghost use Rattle.meta.specs.Kinds.{input_field_named, type_of_meta, check_of_meta, is_composite_meta, is_leaf_meta};
ghost use Rattle.meta.specs.Kinds.{is_abstract_meta, is_input_meta, is_any_literal_meta, is_builtin_meta};
ghost use Rattle.meta.specs.Kinds.{is_builtin_name, list_type_of};

use crate::arguments::Argument;
use crate::check::CheckedScalar;
use crate::enums::EnumMetaOf;
use crate::fields::Field;
use crate::inputs::InputObjectMetaOf;
use crate::interfaces::InterfaceMeta;
use crate::objects::ObjectMeta;
use crate::places::first_by_places;
use crate::scalars::ScalarMetaOf;
use crate::texts::as_text;
use crate::unions::UnionMeta;
use crate::wrappers::{ListMeta, NullableMeta, PlaceholderMeta};
use language_types::error::OutOfMemory;
use language_types::types::Type;
use language_values::value::DefaultScalarValue;
use std::alloc::Global;

/// The kind of a type, as introspection reports it (section 4.2.2).
#[derive(Clone, Debug, PartialEq, Eq, Drop)]
pub enum TypeKind {
    /// A scalar (section 3.5).
    Scalar,
    /// A list (section 3.11).
    List,
    /// An object (section 3.6).
    Object,
    /// An enum (section 3.9).
    Enum,
    /// An interface (section 3.7).
    Interface,
    /// A union (section 3.8).
    Union,
    /// An input object (section 3.10).
    InputObject,
}

/// Metadata of a type (section 3.4).
#[derive(Drop)]
pub enum MetaTypeOf<S, C> {
    /// A scalar (section 3.5).
    Scalar(ScalarMetaOf<C>),
    /// A list (section 3.11).
    List(ListMeta),
    /// A nullable type (section 3.12).
    Nullable(NullableMeta),
    /// An object (section 3.6).
    Object(ObjectMeta<S>),
    /// An enum (section 3.9).
    Enum(EnumMetaOf<C>),
    /// An interface (section 3.7).
    Interface(InterfaceMeta<S>),
    /// A union (section 3.8).
    Union(UnionMeta),
    /// An input object (section 3.10).
    InputObject(InputObjectMetaOf<S, C>),
    /// Stands for a type whose metadata does not exist yet; a schema refuses it.
    Placeholder(PlaceholderMeta),
}

/// Metadata of a type, with the checks of the scalar type `S`.
pub type MetaType<S = DefaultScalarValue> = MetaTypeOf<S, <S as CheckedScalar>::Check>;

impl<S, C> MetaTypeOf<S, C> {
    /// The name; `None` for a list, a nullable type or a placeholder.
    pub fn name(&self) -> Option<&str>
        ensures { option_copied result ≡ name_of_meta self.now }
    {
        match self {
            MetaTypeOf::Scalar(meta) => Some(meta.name.as_str()),
            MetaTypeOf::List(_) => None,
            MetaTypeOf::Nullable(_) => None,
            MetaTypeOf::Object(meta) => Some(meta.name.as_str()),
            MetaTypeOf::Enum(meta) => Some(meta.name.as_str()),
            MetaTypeOf::Interface(meta) => Some(meta.name.as_str()),
            MetaTypeOf::Union(meta) => Some(meta.name.as_str()),
            MetaTypeOf::InputObject(meta) => Some(meta.name.as_str()),
            MetaTypeOf::Placeholder(_) => None,
        }
    }

    /// The description, if there is one; `None` for a list, a nullable type or a placeholder.
    pub fn description(&self) -> Option<&str>
        ensures { option_copied result ≡ description_of_meta self.now }
    {
        match self {
            MetaTypeOf::Scalar(meta) => as_text(&meta.description),
            MetaTypeOf::List(_) => None,
            MetaTypeOf::Nullable(_) => None,
            MetaTypeOf::Object(meta) => as_text(&meta.description),
            MetaTypeOf::Enum(meta) => as_text(&meta.description),
            MetaTypeOf::Interface(meta) => as_text(&meta.description),
            MetaTypeOf::Union(meta) => as_text(&meta.description),
            MetaTypeOf::InputObject(meta) => as_text(&meta.description),
            MetaTypeOf::Placeholder(_) => None,
        }
    }

    /// The URL of the specification of a scalar, if there is one (section 3.13.4).
    pub fn specified_by_url(&self) -> Option<&str>
        ensures { option_copied result ≡ url_of_meta self.now }
    {
        match self {
            MetaTypeOf::Scalar(meta) => as_text(&meta.specified_by_url),
            _ => None,
        }
    }

    /// Whether the type is a scalar whose check is asked of lists and objects, too.
    pub fn takes_any_literal(&self) -> bool
        ensures { result ≡ is_any_literal_meta self.now }
    {
        match self {
            MetaTypeOf::Scalar(meta) => meta.takes_any_literal(),
            _ => false,
        }
    }

    /// The kind of a type that is neither nullable nor a placeholder.
    pub fn type_kind(&self) -> TypeKind
        requires { IsSome (kind_of_meta self.now) }
        ensures { Some result ≡ kind_of_meta self.now }
    {
        match self {
            MetaTypeOf::Scalar(_) => TypeKind::Scalar,
            MetaTypeOf::List(_) => TypeKind::List,
            MetaTypeOf::Object(_) => TypeKind::Object,
            MetaTypeOf::Enum(_) => TypeKind::Enum,
            MetaTypeOf::Interface(_) => TypeKind::Interface,
            MetaTypeOf::Union(_) => TypeKind::Union,
            MetaTypeOf::InputObject(_) => TypeKind::InputObject,
            MetaTypeOf::Nullable(_) => unreachable!(),
            MetaTypeOf::Placeholder(_) => unreachable!(),
        }
    }

    /// The first field of this name; `None` unless the type is an object or an interface. The look-up takes
    /// logarithmic time in the number of fields.
    pub fn field_by_name(&self, name: &str) -> Option<&Field<S>>
        ensures { option_copied result ≡ field_named name.now self.now }
    {
        match self {
            MetaTypeOf::Object(meta) => first_by_places(&meta.fields, &meta.places, name),
            MetaTypeOf::Interface(meta) => first_by_places(&meta.fields, &meta.places, name),
            _ => None,
        }
    }

    /// The first input field of this name; `None` unless the type is an input object. The look-up takes logarithmic
    /// time in the number of fields.
    pub fn input_field_by_name(&self, name: &str) -> Option<&Argument<S>>
        ensures { option_copied result ≡ input_field_named name.now self.now }
    {
        match self {
            MetaTypeOf::InputObject(meta) => first_by_places(
                &meta.input_fields,
                &meta.places,
                name,
            ),
            _ => None,
        }
    }

    /// The type that the metadata describes (section 3.4.1). For a type with a name it is that name,
    /// non-null; for a list the non-null list of its type, with its size. A nullable type gives its
    /// type without an outermost non-null, and a placeholder its type as it is.
    ///
    /// # Errors
    ///
    /// Out of memory.
    pub fn as_type(&self, alloc: Global) -> Result<Type, OutOfMemory>
        ensures { IfOk result (λ t. shape t ≡ type_of_meta self.now) }
    {
        match self {
            MetaTypeOf::Scalar(meta) => Type::non_null(alloc, meta.name.as_str()),
            MetaTypeOf::List(meta) => list_type(meta),
            MetaTypeOf::Nullable(meta) => Ok(meta.of_type.clone()?.into_nullable()),
            MetaTypeOf::Object(meta) => Type::non_null(alloc, meta.name.as_str()),
            MetaTypeOf::Enum(meta) => Type::non_null(alloc, meta.name.as_str()),
            MetaTypeOf::Interface(meta) => Type::non_null(alloc, meta.name.as_str()),
            MetaTypeOf::Union(meta) => Type::non_null(alloc, meta.name.as_str()),
            MetaTypeOf::InputObject(meta) => Type::non_null(alloc, meta.name.as_str()),
            MetaTypeOf::Placeholder(meta) => Ok(meta.of_type.clone()?),
        }
    }

    /// The check of a scalar, an enum or an input object; `None` for any other kind.
    pub fn input_value_parse_fn(&self) -> Option<&C>
        ensures { option_copied result ≡ check_of_meta self.now }
    {
        match self {
            MetaTypeOf::Scalar(meta) => Some(meta.input_value_parse_fn()),
            MetaTypeOf::Enum(meta) => Some(meta.input_value_parse_fn()),
            MetaTypeOf::InputObject(meta) => Some(meta.input_value_parse_fn()),
            _ => None,
        }
    }

    /// Whether a field of the type takes a selection set: an object, an interface or a union (sections
    /// 3.6 to 3.8).
    pub fn is_composite(&self) -> bool
        ensures { result ≡ is_composite_meta self.now }
    {
        matches!(
            self,
            MetaTypeOf::Object(_) | MetaTypeOf::Interface(_) | MetaTypeOf::Union(_)
        )
    }

    /// Whether the type is a scalar or an enum.
    pub fn is_leaf(&self) -> bool
        ensures { result ≡ is_leaf_meta self.now }
    {
        matches!(self, MetaTypeOf::Scalar(_) | MetaTypeOf::Enum(_))
    }

    /// Whether the type is an interface or a union.
    pub fn is_abstract(&self) -> bool
        ensures { result ≡ is_abstract_meta self.now }
    {
        matches!(self, MetaTypeOf::Interface(_) | MetaTypeOf::Union(_))
    }

    /// Whether an argument may have the type: a scalar, an enum or an input object (section 3.4.2).
    pub fn is_input(&self) -> bool
        ensures { result ≡ is_input_meta self.now }
    {
        matches!(
            self,
            MetaTypeOf::Scalar(_) | MetaTypeOf::Enum(_) | MetaTypeOf::InputObject(_)
        )
    }

    /// Whether the name begins with `__`, or is that of a standard scalar, `_EmptyMutation` or
    /// `_EmptySubscription`.
    pub fn is_builtin(&self) -> bool
        ensures { result ≡ is_builtin_meta self.now }
    {
        match self.name() {
            Some(name) => is_builtin_type_name(name),
            None => false,
        }
    }
}

/// The non-null list of its type.
fn list_type(meta: &ListMeta) -> Result<Type, OutOfMemory>
    ensures { IfOk result (λ t. shape t ≡ list_type_of meta.now) }
{
    let items = meta.of_type.clone()?;
    items.wrap_list(meta.expected_size)?.wrap_non_null()
}

fn is_builtin_type_name(name: &str) -> bool
    ensures { result ≡ is_builtin_name name.now }
{
    name.starts_with("__")
        || name == "Boolean"
        || name == "String"
        || name == "Int"
        || name == "Float"
        || name == "ID"
        || name == "_EmptyMutation"
        || name == "_EmptySubscription"
}
