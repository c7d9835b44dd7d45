//! A schema: its types and its directives by name (section 3.3).
ghost use Rattle.std.specs.Prelude.{◌≡◌, ◌<◌, true, length, option_map, string_bytes};
ghost use Rattle.std.specs.List.{list_all};
ghost use Rattle.indexmap.specs.IndexMap.{values};
ghost use Rattle.schema_validation.specs.Accepted.{IsAccepted, is_input_listed};
ghost use Rattle.schema_validation.specs.Directives.{directive_name, directive_inputs};
ghost use Rattle.meta.specs.Kinds.{name_of_meta};
ghost use Rattle.schema.specs.Catalog.{kept_roots};
ghost use Rattle.schema_validation.specs.Named.{are_distinct, are_keyed};

mod changes;
mod lists;
mod ordered;
mod possible;
mod subtypes;

use crate::model::dialect::Dialect;
use crate::model::types::TypeTypeOf;
use indexmap::IndexMap;
use language::value::DefaultScalarValue;
use meta::check::CheckedScalar;
use meta::kinds::MetaTypeOf;
use meta::texts::copy_text;
use name_tables::slots::slot_of;
use schema_validation::accept::check_types;
use schema_validation::directives::DirectiveType;
use schema_validation::error::SchemaError;
use schema_validation::extend::with_added_fields;
use schema_validation::keyed::map_by_name;
use schema_validation::roots::RootNames;
use schema_validation::slots::type_slots;
use schema_validation::standard_directives::directives_by_name;
use std::alloc::Global;
use std::marker::Model;

/// A schema (section 3.3). No two of its types have the same name, and no two of its directives.
#[derive(Drop)]
pub struct SchemaTypeOf<S, C> {
    description: Option<String>,
    types: IndexMap<String, MetaTypeOf<S, C>>,
    slots: Vec<Option<usize>>,
    query: String,
    mutation: Option<String>,
    subscription: Option<String>,
    directives: IndexMap<String, DirectiveType<S>>,
    dialect: Dialect,
    ghost accepted: { IsAccepted (kept_roots query mutation subscription) (values types) },
    ghost directive_inputs_input: { list_all (is_input_listed (values types)) (directive_inputs (values directives))
        ≡ true },
    ghost keyed: { are_keyed name_of_meta types.entries ≡ true },
    ghost directives_keyed: { are_keyed directive_name directives.entries ≡ true },
    ghost directives_distinct: { are_distinct directive_name (values directives) ≡ true },
    ghost slotted: { 0 < length slots.items },
}

/// A schema, with the checks of the scalar type `S`.
pub type SchemaType<S = DefaultScalarValue> = SchemaTypeOf<S, <S as CheckedScalar>::Check>;

impl<S, C> Model for SchemaTypeOf<S, C> {
    ghost use Rattle.std.specs.Prelude.{option_map, string_bytes};
    ghost use Rattle.std.specs.Coded.{codes};
    ghost use Rattle.indexmap.specs.IndexMap.{values};
    ghost use Rattle.schema.specs.Catalog.{Catalog, kept_roots};
    ghost use Rattle.schema.specs.Codes.{coded_value};

    ghost Value = { Catalog S C };

    ghost coded = { Prim.hlevel (codes, coded_value) };

    ghost view = { λ s. record {
      description = option_map string_bytes s.description;
      types = values s.types;
      roots = kept_roots s.query s.mutation s.subscription;
      directives = values s.directives;
      dialect = s.dialect;
      accepted = s.accepted;
      directive_inputs_input = s.directive_inputs_input;
      directives_distinct = s.directives_distinct;
    } };
}

impl<S: Drop, C: Drop> SchemaTypeOf<S, C> {
    ghost use Rattle.std.specs.Prelude.{◌≡◌, None, IfErr, IfOk, IsOkUnless, OnOk, map};
    ghost use Rattle.schema_validation.specs.Accepted.{IsAccepted, IsTrueRefusal, roots_of};
    ghost use Rattle.schema_validation.specs.Added.{directive_shape, standard_directives};
    ghost use Rattle.schema.specs.Built.{IsSchemaOf};
    ghost use Rattle.schema_validation.specs.RootNames.{roots_asked};

    /// The schema of a list of types with these root types (section 3.3).
    ///
    /// It adds the fields `__schema` and `__type` to the query root, and the directives `skip`,
    /// `include`, `deprecated` and `specifiedBy`. The names `_EmptyMutation` and `_EmptySubscription`
    /// mean that there is no such root. The dialect is juniper's.
    ///
    /// # Errors
    ///
    /// `MissingRoot`, `QueryNotObject`, `UnnamedType`, `RepeatedType`, `UnknownType`,
    /// `UnionMemberNotObject` or `NotInputType` if it applies to the list; if several apply, it is not
    /// specified which one is returned. `OutOfMemory` is the only error for a list to which none
    /// applies.
    pub fn new(
        alloc: Global,
        types: Vec<MetaTypeOf<S, C>>,
        query: &str,
        mutation: &str,
        subscription: &str,
    ) -> Result<Self, SchemaError>
        ensures accepted { OnOk result (IsAccepted (roots_of query.now mutation.now subscription.now) types.items) }
        ensures built { IfOk result (IsSchemaOf (roots_of query.now mutation.now subscription.now) types.items) }
        ensures refused { IfErr result (IsTrueRefusal (roots_of query.now mutation.now subscription.now) types.items) }
        ensures memory_alone { IsAccepted (roots_of query.now mutation.now subscription.now) types.items
            → IsOkUnless result SchemaError.OutOfMemory }
        ensures no_refusal { OnOk result ((e : SchemaError)
            → IsTrueRefusal (roots_of query.now mutation.now subscription.now) types.items e
            → e ≡ SchemaError.OutOfMemory) }
    {
        Self::from_list(alloc, types, RootNames::new(query, mutation, subscription))
    }

    fn from_list(
        alloc: Global,
        types: Vec<MetaTypeOf<S, C>>,
        roots: RootNames<'_>,
    ) -> Result<Self, SchemaError>
        ensures accepted { OnOk result (IsAccepted (roots_asked roots.entry) types.items) }
        ensures built { IfOk result (IsSchemaOf (roots_asked roots.entry) types.items) }
        ensures refused { IfErr result (IsTrueRefusal (roots_asked roots.entry) types.items) }
    {
        check_types(alloc, types.as_slice(), roots)?;
        let types = with_added_fields(alloc, types, roots.query)?;
        Self::from_accepted(alloc, types, roots)
    }

    fn from_accepted(
        alloc: Global,
        types: Vec<MetaTypeOf<S, C>>,
        roots: RootNames<'_>,
    ) -> Result<Self, SchemaError>
        requires { IsAccepted (roots_asked roots) types.items }
        ensures types { IfOk result (λ s. s.types ≡ types.items) }
        ensures roots { IfOk result (λ s. s.roots ≡ roots_asked roots.entry) }
        ensures directives { IfOk result (λ s. map directive_shape s.directives ≡ standard_directives) }
        ensures description { IfOk result (λ s. s.description ≡ None) }
        ensures dialect { IfOk result (λ s. s.dialect ≡ Dialect.Juniper) }
        ensures err { IfErr result (λ e. e ≡ SchemaError.OutOfMemory) }
    {
        let query = String::from_str(alloc, roots.query)?;
        let mutation = copy_text(alloc, roots.mutation)?;
        let subscription = copy_text(alloc, roots.subscription)?;
        let directives = directives_by_name(alloc)?;
        let types = map_by_name(alloc, types)?;
        let slots = type_slots(alloc, &types)?;
        Ok(SchemaTypeOf {
            description: None,
            types,
            slots,
            query,
            mutation,
            subscription,
            directives,
            dialect: Dialect::Juniper,
        })
    }
}

impl<S, C> SchemaTypeOf<S, C> {
    ghost use Rattle.std.specs.Prelude.{◌≡◌, ◌↔◌, Some, IfSome, IsSome, true, option_copied, option_map};
    ghost use Rattle.schema.specs.Catalog.{type_in, root_in, directive_in};
    ghost use Rattle.schema.specs.Concrete.{concrete_of};
    ghost use Rattle.meta.specs.Kinds.{is_object_meta};

    /// The type of this name, without modifiers.
    pub fn type_by_name(&self, name: &str) -> Option<TypeTypeOf<'_, S, C>>
        ensures { option_map concrete_of result ≡ option_map (λ t. Some t) (type_in name.now self.now) }
    {
        match self.concrete_type_by_name(name) {
            Some(meta) => Some(TypeTypeOf::Concrete(meta)),
            None => None,
        }
    }

    /// The metadata of the type of this name.
    pub fn concrete_type_by_name(&self, name: &str) -> Option<&MetaTypeOf<S, C>>
        ensures { option_copied result ≡ type_in name.now self.now }
    {
        match self.type_in_slot(name) {
            Some(meta) => Some(meta),
            None => self.types.get(name),
        }
    }

    // The type in the slot of the name, if it has this name. `None` says nothing: a type of another
    // name may have the slot, so the map has to be asked.
    fn type_in_slot(&self, name: &str) -> Option<&MetaTypeOf<S, C>>
        ensures { IfSome result (λ meta. type_in name.now self.now ≡ Some meta.now) }
    {
        let place = (*self.slots.get(slot_of(name, self.slots.len()))?)?;
        let (key, meta) = self.types.get_index(place)?;
        if key.as_str() == name {
            Some(meta)
        } else {
            None
        }
    }

    /// The query root, without modifiers.
    pub fn query_type(&self) -> TypeTypeOf<'_, S, C>
        ensures { concrete_of result ≡ type_in self.now.roots.query self.now }
    {
        TypeTypeOf::Concrete(self.concrete_query_type())
    }

    /// The metadata of the query root, an object type.
    pub fn concrete_query_type(&self) -> &MetaTypeOf<S, C>
        ensures root { Some result.now ≡ type_in self.now.roots.query self.now }
        ensures object { is_object_meta result.now ≡ true }
    {
        match self.concrete_type_by_name(self.query.as_str()) {
            Some(meta) => meta,
            None => unreachable!(),
        }
    }

    /// The mutation root, if there is one, without modifiers.
    pub fn mutation_type(&self) -> Option<TypeTypeOf<'_, S, C>>
        ensures root { option_map concrete_of result
            ≡ option_map (λ t. Some t) (root_in self.now.roots.mutation self.now) }
        ensures asked { IsSome result ↔ IsSome self.now.roots.mutation }
    {
        match self.concrete_mutation_type() {
            Some(meta) => Some(TypeTypeOf::Concrete(meta)),
            None => None,
        }
    }

    /// The metadata of the mutation root, if there is one.
    pub fn concrete_mutation_type(&self) -> Option<&MetaTypeOf<S, C>>
        ensures root { option_copied result ≡ root_in self.now.roots.mutation self.now }
        ensures asked { IsSome result ↔ IsSome self.now.roots.mutation }
    {
        match &self.mutation {
            Some(name) => self.concrete_type_by_name(name.as_str()),
            None => None,
        }
    }

    /// The subscription root, if there is one, without modifiers.
    pub fn subscription_type(&self) -> Option<TypeTypeOf<'_, S, C>>
        ensures root { option_map concrete_of result
            ≡ option_map (λ t. Some t) (root_in self.now.roots.subscription self.now) }
        ensures asked { IsSome result ↔ IsSome self.now.roots.subscription }
    {
        match self.concrete_subscription_type() {
            Some(meta) => Some(TypeTypeOf::Concrete(meta)),
            None => None,
        }
    }

    /// The metadata of the subscription root, if there is one.
    pub fn concrete_subscription_type(&self) -> Option<&MetaTypeOf<S, C>>
        ensures root { option_copied result ≡ root_in self.now.roots.subscription self.now }
        ensures asked { IsSome result ↔ IsSome self.now.roots.subscription }
    {
        match &self.subscription {
            Some(name) => self.concrete_type_by_name(name.as_str()),
            None => None,
        }
    }

    /// The directive of this name.
    pub fn directive_by_name(&self, name: &str) -> Option<&DirectiveType<S>>
        ensures { option_copied result ≡ directive_in name.now self.now }
    {
        self.directives.get(name)
    }
}
