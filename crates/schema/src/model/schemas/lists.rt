//! Lists of the types of a schema.
ghost use Rattle.std.specs.Prelude.{◌≡◌, ℕ, List, ◌++◌, IfOk, OnOk, Some, option_to_list, true, map, string_bytes};
ghost use Rattle.language_types.specs.References.{list_copied};
ghost use Rattle.std.specs.List.{filter};
ghost use Rattle.std.specs.Option.{option_copied};
ghost use Rattle.schema.specs.Catalog.{type_in};
ghost use Rattle.meta.specs.Kinds.{name_of_meta, is_abstract_meta};
ghost use Rattle.schema.specs.Possible.{is_implementer, possible_names, types_named};

use crate::model::schemas::SchemaTypeOf;
use crate::model::schemas::possible::implements;
use language::error::OutOfMemory;
use meta::kinds::MetaTypeOf;
use std::alloc::Global;

fn push_if_found<'a, S, C>(
    list: &mut Vec<&'a MetaTypeOf<S, C>>,
    found: Option<&'a MetaTypeOf<S, C>>,
) -> Result<(), OutOfMemory>
    ensures { OnOk result (list_copied list.new.items ≡ list_copied list.old.items
        ++ option_to_list (option_copied found.entry)) }
{
    if let Some(meta) = found {
        list.push(meta)?;
    }
    Ok(())
}

impl<S, C> SchemaTypeOf<S, C> {
    /// The metadata of all types, in the order of the list that made the schema.
    ///
    /// # Errors
    ///
    /// Out of memory.
    pub fn concrete_type_list(&self, alloc: Global) -> Result<Vec<&MetaTypeOf<S, C>>, OutOfMemory>
        ensures { IfOk result (λ v. list_copied v.items ≡ self.now.types) }
    {
        let mut list = Vec::new(alloc);
        for listed in self.types.values() {
            list.push(listed)?;
        }
        Ok(list)
    }

    /// The types of these names, in order, where the schema has one.
    fn types_of_names(
        &self,
        alloc: Global,
        names: &[String],
    ) -> Result<Vec<&MetaTypeOf<S, C>>, OutOfMemory>
        ensures { IfOk result (λ v. list_copied v.items
            ≡ types_named self.now.types (map string_bytes names.now)) }
    {
        let mut list = Vec::new(alloc);
        for name in names {
            push_if_found(&mut list, self.concrete_type_by_name(name.as_str()))?;
        }
        Ok(list)
    }

    /// The object types that implement the interface of this name.
    fn implementers(
        &self,
        alloc: Global,
        interface: &str,
    ) -> Result<Vec<&MetaTypeOf<S, C>>, OutOfMemory>
        ensures { IfOk result (λ v. list_copied v.items ≡ filter (is_implementer interface.now) self.now.types) }
    {
        let mut list = Vec::new(alloc);
        for meta in self.types.values() {
            if implements(meta, interface) {
                list.push(meta)?;
            }
        }
        Ok(list)
    }

    /// The possible types of an interface or a union (section 5.5.2.3): the members of the union, in
    /// order, or the object types that implement the interface, in the order of the schema.
    ///
    /// Members that the schema does not have are left out; a union of the schema has none.
    ///
    /// # Errors
    ///
    /// Out of memory.
    pub fn possible_types(
        &self,
        alloc: Global,
        meta: &MetaTypeOf<S, C>,
    ) -> Result<Vec<&MetaTypeOf<S, C>>, OutOfMemory>
        requires { is_abstract_meta meta.now ≡ true }
        ensures types { IfOk result (λ v. list_copied v.items
            ≡ types_named self.now.types (possible_names self.now.types meta.now)) }
        ensures names { (n : List ℕ) → type_in n self.now ≡ Some meta.now
            → IfOk result (λ v. map (λ r. name_of_meta r.now) v.items
            ≡ map (λ k. Some k) (possible_names self.now.types meta.now)) }
    {
        self.types_of_possible_names(alloc, meta)
    }

    fn types_of_possible_names(
        &self,
        alloc: Global,
        meta: &MetaTypeOf<S, C>,
    ) -> Result<Vec<&MetaTypeOf<S, C>>, OutOfMemory>
        requires { is_abstract_meta meta.now ≡ true }
        ensures { IfOk result (λ v. list_copied v.items
            ≡ types_named self.now.types (possible_names self.now.types meta.now)) }
    {
        match meta {
            MetaTypeOf::Union(union) => self.types_of_names(alloc, union.of_type_names.as_slice()),
            MetaTypeOf::Interface(interface) => self.implementers(alloc, interface.name.as_str()),
            _ => unreachable!(),
        }
    }
}
