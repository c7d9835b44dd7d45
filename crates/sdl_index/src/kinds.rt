//! The kinds of the types of a document, by name.
use crate::error::Defined;
use crate::parts::{DefinedType, Parts};
use graphql_reader::type_system::TypeBody;
use language::error::OutOfMemory;
use name_tables::map::NameMap;
use std::alloc::Global;

/// A kind of type (section 3.4).
#[derive(Clone, Copy, Debug, PartialEq, Eq)]
pub enum TypeKind {
    Scalar,
    Object,
    Interface,
    Union,
    Enum,
    InputObject,
}

impl TypeKind {
    /// The kind of a type with these parts.
    pub fn of(body: &TypeBody<'_>) -> TypeKind {
        match body {
            TypeBody::Scalar => TypeKind::Scalar,
            TypeBody::Object(_) => TypeKind::Object,
            TypeBody::Interface(_) => TypeKind::Interface,
            TypeBody::Union(_) => TypeKind::Union,
            TypeBody::Enum(_) => TypeKind::Enum,
            TypeBody::InputObject(_) => TypeKind::InputObject,
        }
    }

    /// Whether it is an input type (section 3.4.2).
    pub fn is_input(self) -> bool {
        matches!(
            self,
            TypeKind::Scalar | TypeKind::Enum | TypeKind::InputObject
        )
    }

    /// What a type of this kind lists.
    pub fn lists(self) -> Defined {
        match self {
            TypeKind::Enum => Defined::EnumValue,
            TypeKind::InputObject => Defined::InputField,
            _ => Defined::Field,
        }
    }
}

/// The kinds of types by name. Of several types with one name the first counts.
#[derive(Drop)]
pub struct KnownTypes<'a> {
    kinds: NameMap<'a, TypeKind>,
}

impl<'a> KnownTypes<'a> {
    /// The types of a document, and the standard types.
    ///
    /// # Errors
    ///
    /// Out of memory.
    pub fn of_parts(alloc: Global, parts: &Parts<'_, 'a>) -> Result<KnownTypes<'a>, OutOfMemory> {
        let mut known = KnownTypes {
            kinds: NameMap::with_slots(alloc, parts.types.len())?,
        };
        known.add_all(parts.types.as_slice())?;
        known.add_all(parts.standard.as_slice())?;
        Ok(known)
    }

    fn add_all(&mut self, types: &[DefinedType<'_, 'a>]) -> Result<(), OutOfMemory> {
        for defined in types {
            let item = defined.item;
            self.kinds.insert(item.name.item, TypeKind::of(&item.body))?;
        }
        Ok(())
    }

    /// The kind of the type with this name, if there is one.
    pub fn kind(&self, name: &str) -> Option<TypeKind> {
        let index = self.kinds.index(name)?;
        match self.kinds.entry(index) {
            Some((_, kind)) => Some(kind),
            None => None,
        }
    }
}
