//! The types and the directives of a schema, sorted.
ghost use Rattle.std.specs.Prelude.{◌≡◌, IfOk, OnOk, true, map, IsPermutation, IsSorted};
ghost use Rattle.language_types.specs.References.{list_copied};
ghost use Rattle.meta.specs.Kinds.{name_of_meta};
ghost use Rattle.schema_validation.specs.Directives.{directive_name};
ghost use Rattle.schema_validation.specs.Named.{are_distinct};
ghost use Rattle.schema.specs.Ordered.{kind_rank, name_bytes, type_cmp, directive_cmp, metas_of};
ghost use Rattle.schema.specs.Wrapped.{plain_meta, wrapped_of};

use crate::model::schemas::SchemaTypeOf;
use crate::model::types::TypeTypeOf;
use language::error::OutOfMemory;
use meta::kinds::MetaTypeOf;
use schema_validation::directives::DirectiveType;
use std::alloc::Global;
use std::cmp::Ordering;

/// The rank of the kind in the sorted list of types.
fn rank_of<S, C>(meta: &MetaTypeOf<S, C>) -> u8
    ensures { result ≡ kind_rank meta.now }
{
    match meta {
        MetaTypeOf::Enum(_) => 0,
        MetaTypeOf::InputObject(_) => 1,
        MetaTypeOf::Interface(_) => 2,
        MetaTypeOf::Scalar(_) => 3,
        MetaTypeOf::Object(_) => 4,
        MetaTypeOf::Union(_) => 5,
        _ => 6,
    }
}

fn name_text<S, C>(meta: &MetaTypeOf<S, C>) -> &str
    ensures { result.now ≡ name_bytes meta.now }
{
    meta.name().unwrap_or("")
}

fn compare_types<S, C>(left: &MetaTypeOf<S, C>, right: &MetaTypeOf<S, C>) -> Ordering
    ensures { result ≡ type_cmp left.now right.now }
{
    match rank_of(left).cmp(&rank_of(right)) {
        Ordering::Equal => name_text(left).cmp(name_text(right)),
        by_kind => by_kind,
    }
}

fn compare_directives<S>(left: &DirectiveType<S>, right: &DirectiveType<S>) -> Ordering
    ensures { result ≡ directive_cmp left.now right.now }
{
    left.name.as_str().cmp(right.name.as_str())
}

/// Sorts metadata by kind, then by name.
fn sort_types<S, C>(metas: &mut Vec<&MetaTypeOf<S, C>>) -> Result<(), OutOfMemory>
    ensures permutation { IsPermutation (list_copied metas.old.items) (list_copied metas.new.items) }
    ensures sorted { OnOk result (IsSorted type_cmp (list_copied metas.new.items)) }
{
    metas.sort_by(|left, right| compare_types(*left, *right))?;
    Ok(())
}

fn sort_directives<S>(directives: &mut Vec<&DirectiveType<S>>) -> Result<(), OutOfMemory>
    ensures permutation { IsPermutation (list_copied directives.old.items) (list_copied directives.new.items) }
    ensures sorted { OnOk result (IsSorted directive_cmp (list_copied directives.new.items)) }
{
    directives.sort_by(|left, right| compare_directives(*left, *right))?;
    Ok(())
}

/// The types with this metadata, without modifiers.
fn plain_types<'a, S, C>(
    alloc: Global,
    metas: &[&'a MetaTypeOf<S, C>],
) -> Result<Vec<TypeTypeOf<'a, S, C>>, OutOfMemory>
    ensures { IfOk result (λ v. map wrapped_of v.items ≡ map (λ r. plain_meta r.now) metas.now) }
{
    let mut list = Vec::new(alloc);
    for meta in metas {
        list.push(TypeTypeOf::Concrete(*meta))?;
    }
    Ok(list)
}

impl<S: Drop, C: Drop> SchemaTypeOf<S, C> {
    /// Each type once, without modifiers: first the enums, then the input objects, the interfaces, the
    /// scalars, the objects and the unions. Types of a kind are sorted by the bytes of their names.
    ///
    /// # Errors
    ///
    /// Out of memory.
    pub fn type_list(&self, alloc: Global) -> Result<Vec<TypeTypeOf<'_, S, C>>, OutOfMemory>
        ensures plain { IfOk result (λ v. map wrapped_of v.items ≡ map plain_meta (metas_of v.items)) }
        ensures permutation { IfOk result (λ v. IsPermutation self.now.types (metas_of v.items)) }
        ensures distinct { IfOk result (λ v. are_distinct name_of_meta (metas_of v.items) ≡ true) }
        ensures sorted { IfOk result (λ v. IsSorted type_cmp (metas_of v.items)) }
    {
        let mut metas = self.concrete_type_list(alloc)?;
        sort_types(&mut metas)?;
        plain_types(alloc, metas.as_slice())
    }

    /// Each directive once, sorted by the bytes of their names.
    ///
    /// # Errors
    ///
    /// Out of memory.
    pub fn directive_list(&self, alloc: Global) -> Result<Vec<&DirectiveType<S>>, OutOfMemory>
        ensures permutation { IfOk result (λ v. IsPermutation self.now.directives (list_copied v.items)) }
        ensures distinct { IfOk result (λ v. are_distinct directive_name (list_copied v.items) ≡ true) }
        ensures sorted { IfOk result (λ v. IsSorted directive_cmp (list_copied v.items)) }
    {
        let mut directives = self.listed_directives(alloc)?;
        sort_directives(&mut directives)?;
        Ok(directives)
    }

    /// The directives, in the order in which they were added.
    fn listed_directives(&self, alloc: Global) -> Result<Vec<&DirectiveType<S>>, OutOfMemory>
        ensures { IfOk result (λ v. list_copied v.items ≡ self.now.directives) }
    {
        let mut list = Vec::new(alloc);
        for directive in self.directives.values() {
            list.push(directive)?;
        }
        Ok(list)
    }
}
