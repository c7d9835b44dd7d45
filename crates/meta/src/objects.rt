//! Objects.
ghost use Rattle.std.specs.Prelude.{◌≡◌, ◌++◌, ◌∷◌, IfOk, None, Some, [], map, option_map, string_bytes};
ghost use Rattle.language_types.specs.Types.{shape};
ghost use Rattle.meta.specs.Places.{ArePlaces};

use crate::fields::Field;
use crate::kinds::MetaTypeOf;
use crate::places::{Places, places_of};
use crate::texts::innermost_names;
use language_types::error::OutOfMemory;
use language_types::types::Type;
use std::alloc::Global;

/// Metadata of an object (section 3.6).
#[derive(Drop)]
pub struct ObjectMeta<S> {
    pub name: String,
    pub description: Option<String>,
    pub fields: Vec<Field<S>>,
    /// The names of the interfaces that it implements, in order.
    pub interface_names: Vec<String>,
    // Where the names of the fields stand.
    pub(crate) places: Places,
    ghost ordered: { ArePlaces (map (λ f. string_bytes f.name) fields.items) places },
}

impl<S: Drop> ObjectMeta<S> {
    /// An object of this name with these fields, no description and no interfaces (section 3.6).
    ///
    /// # Errors
    ///
    /// Out of memory.
    pub fn new(alloc: Global, name: &str, fields: Vec<Field<S>>) -> Result<Self, OutOfMemory>
        ensures name { IfOk result (λ m. string_bytes m.name ≡ name.now) }
        ensures description { IfOk result (λ m. m.description ≡ None) }
        ensures fields { IfOk result (λ m. m.fields ≡ fields) }
        ensures interfaces { IfOk result (λ m. m.interface_names.items ≡ []) }
    {
        let places = places_of(alloc, &fields)?;
        Ok(ObjectMeta {
            name: String::from_str(alloc, name)?,
            description: None,
            fields,
            interface_names: Vec::new(alloc),
            places,
        })
    }

    /// Replaces the description (section 3.2).
    ///
    /// # Errors
    ///
    /// Out of memory.
    pub fn description(mut self, text: &str) -> Result<Self, OutOfMemory>
        ensures text { IfOk result (λ m. option_map string_bytes m.description ≡ Some text.now) }
        ensures name { IfOk result (λ m. m.name ≡ self.name) }
        ensures fields { IfOk result (λ m. m.fields ≡ self.fields) }
        ensures interfaces { IfOk result (λ m. m.interface_names ≡ self.interface_names) }
    {
        self.description = Some(String::from_str(*self.name.allocator(), text)?);
        Ok(self)
    }

    /// Replaces the interfaces by those that these types name, whatever their modifiers (section 3.6).
    ///
    /// # Errors
    ///
    /// Out of memory.
    pub fn interfaces(mut self, interfaces: Vec<Type>) -> Result<Self, OutOfMemory>
        ensures interfaces { IfOk result (λ m. map string_bytes m.interface_names.items
            ≡ map (λ t. (shape t).name) interfaces.items) }
        ensures name { IfOk result (λ m. m.name ≡ self.name) }
        ensures description { IfOk result (λ m. m.description ≡ self.description) }
        ensures fields { IfOk result (λ m. m.fields ≡ self.fields) }
    {
        self.interface_names = innermost_names(*self.name.allocator(), interfaces.as_slice())?;
        Ok(self)
    }
}

impl<S: Drop> ObjectMeta<S> {
    /// Adds a field at the end, even if another has its name (section 3.6).
    ///
    /// # Errors
    ///
    /// Out of memory.
    pub fn add_field(self, field: Field<S>) -> Result<Self, OutOfMemory>
        ensures name { IfOk result (λ m. m.name ≡ self.name) }
        ensures description { IfOk result (λ m. m.description ≡ self.description) }
        ensures fields { IfOk result (λ m. m.fields.items ≡ self.fields.items ++ field ∷ []) }
        ensures interfaces { IfOk result (λ m. m.interface_names ≡ self.interface_names) }
    {
        let ObjectMeta {
            name,
            description,
            mut fields,
            interface_names,
            places: _,
        } = self;
        fields.push(field)?;
        let places = places_of(*name.allocator(), &fields)?;
        Ok(ObjectMeta {
            name,
            description,
            fields,
            interface_names,
            places,
        })
    }
}

impl<S> ObjectMeta<S> {
    /// The object as metadata of any kind.
    pub fn into_meta<C>(self) -> MetaTypeOf<S, C>
        ensures { result ≡ MetaTypeOf.Object self }
    {
        MetaTypeOf::Object(self)
    }
}
