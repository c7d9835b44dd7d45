//! Unions.
ghost use Rattle.std.specs.Prelude.{◌≡◌, IfOk, None, Some, map, option_map, string_bytes};
ghost use Rattle.language_types.specs.Types.{shape};

use crate::kinds::MetaTypeOf;
use crate::texts::innermost_names;
use language_types::error::OutOfMemory;
use language_types::types::Type;
use std::alloc::Global;

/// Metadata of a union (section 3.8).
#[derive(Drop)]
pub struct UnionMeta {
    pub name: String,
    pub description: Option<String>,
    /// The names of the members, in order.
    pub of_type_names: Vec<String>,
}

impl UnionMeta {
    /// A union of this name with no description, whose members are those that these types name,
    /// whatever their modifiers (section 3.8).
    ///
    /// # Errors
    ///
    /// Out of memory.
    pub fn new(alloc: Global, name: &str, types: Vec<Type>) -> Result<Self, OutOfMemory>
        ensures name { IfOk result (λ m. string_bytes m.name ≡ name.now) }
        ensures description { IfOk result (λ m. m.description ≡ None) }
        ensures members { IfOk result (λ m. map string_bytes m.of_type_names.items
            ≡ map (λ t. (shape t).name) types.items) }
    {
        Ok(UnionMeta {
            name: String::from_str(alloc, name)?,
            description: None,
            of_type_names: innermost_names(alloc, types.as_slice())?,
        })
    }

    /// Replaces the description (section 3.2).
    ///
    /// # Errors
    ///
    /// Out of memory.
    pub fn description(mut self, text: &str) -> Result<Self, OutOfMemory>
        ensures text { IfOk result (λ m. option_map string_bytes m.description ≡ Some text.now) }
        ensures others { IfOk result (λ m. m ≡ record self { description = m.description }) }
    {
        self.description = Some(String::from_str(*self.name.allocator(), text)?);
        Ok(self)
    }

    /// The union as metadata of any kind.
    pub fn into_meta<S, C>(self) -> MetaTypeOf<S, C>
        ensures { result ≡ MetaTypeOf.Union self }
    {
        MetaTypeOf::Union(self)
    }
}
