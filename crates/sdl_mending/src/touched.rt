//! What reasons touch.
ghost use Rattle.std.specs.Prelude.{◌≡◌, ◌∷◌, [], List, ℕ, IfOk, OnOk};
ghost use Rattle.std.specs.List.{flat_map};
ghost use Rattle.std.specs.List.Sorted.{IsNonDecreasingBy};
ghost use Rattle.language_types.specs.Names.{is_among};
ghost use Rattle.sdl_mending.specs.Touched.{Grows, has_type, named_by, root_names, span_of, touched_in, touched_types};
ghost use Rattle.sdl_mending.specs.Touched.{types_of};

use crate::places::{has_reason, places_of};
use graphql_reader::type_system::{RootOperationType, TypeSystemDefinition};
use language_types::error::OutOfMemory;
use language_types::position::Span;
use name_tables::map::NameMap;
use schema::error::SchemaError;
use sdl_index::error::{PlacedFault, SchemaFault};
use std::alloc::Global;

/// A type of introspection (section 4), which stands in where a text has no query root that is an object.
pub(crate) const STAND_IN: &str = "__Schema";

/// What the reasons touch for which a text makes no schema: types and directives, and whether the schema itself.
///
/// A type is touched if a reason stands in its definition or in an extension, if it is a root and a reason stands in
/// the definition of the schema where it is named, or if a reason is that it is of the wrong kind.
#[derive(Drop)]
pub struct Touched<'a> {
    pub(crate) types: NameMap<'a, ()>,
    pub(crate) directives: NameMap<'a, ()>,
    pub(crate) schema: bool,
    pub(crate) query: bool,
}

impl<'a> Touched<'a> {
    /// What these reasons touch in the document in which they stand.
    ///
    /// # Errors
    ///
    /// Out of memory.
    pub fn by_reasons(
        alloc: Global,
        document: &[TypeSystemDefinition<'a>],
        reasons: &'a [PlacedFault<'a>],
    ) -> Result<Touched<'a>, OutOfMemory>
        ensures { IfOk result (λ touched. (name : List ℕ)
            → has_type touched name ≡ is_among (touched_types document.now reasons.now) name) }
    {
        let places = places_of(alloc, reasons)?;
        let mut types = NameMap::with_slots(alloc, document.len())?;
        add_touched(document, places.as_slice(), &mut types)?;
        add_named(reasons, &mut types)?;
        Ok(Touched {
            types,
            directives: touched_directives(alloc, document, places.as_slice())?,
            schema: is_schema_touched(document, places.as_slice()),
            query: lacks_query(reasons),
        })
    }

    /// Whether a type is touched.
    pub fn has_type(&self, name: &str) -> bool
        ensures { result ≡ has_type self.now name.now }
    {
        self.types.index(name).is_some()
    }
}

fn add_touched<'a>(
    document: &[TypeSystemDefinition<'a>],
    places: &[usize],
    types: &mut NameMap<'a, ()>,
) -> Result<(), OutOfMemory>
    requires { IsNonDecreasingBy (λ i. i) places.now }
    ensures { OnOk result (Grows (flat_map (touched_in places.now) document.now) types.old types.new) }
{
    for definition in document {
        add_touched_in(definition, places, types)?;
    }
    Ok(())
}

fn add_touched_in<'a>(
    definition: &TypeSystemDefinition<'a>,
    places: &[usize],
    types: &mut NameMap<'a, ()>,
) -> Result<(), OutOfMemory>
    requires { IsNonDecreasingBy (λ i. i) places.now }
    ensures { OnOk result (Grows (touched_in places.now definition.now) types.old types.new) }
{
    if has_reason(places, span_of(definition)) {
        add_types(definition, types)?;
    }
    Ok(())
}

/// Where a definition or extension stands.
pub(crate) fn span_of(definition: &TypeSystemDefinition<'_>) -> Span
    ensures { result ≡ span_of definition.now }
{
    match definition {
        TypeSystemDefinition::Schema(defined) => defined.span,
        TypeSystemDefinition::Type(defined) => defined.span,
        TypeSystemDefinition::Directive(defined) => defined.span,
    }
}

fn add_types<'a>(
    definition: &TypeSystemDefinition<'a>,
    types: &mut NameMap<'a, ()>,
) -> Result<(), OutOfMemory>
    ensures { OnOk result (Grows (types_of definition.now) types.old types.new) }
{
    match definition {
        TypeSystemDefinition::Schema(defined) => add_roots(defined.item.roots.as_slice(), types),
        TypeSystemDefinition::Type(defined) => add_name(defined.item.name.item, types),
        TypeSystemDefinition::Directive(_) => Ok(()),
    }
}

fn add_roots<'a>(
    roots: &[RootOperationType<'a>],
    types: &mut NameMap<'a, ()>,
) -> Result<(), OutOfMemory>
    ensures { OnOk result (Grows (root_names roots.now) types.old types.new) }
{
    for root in roots {
        add_name(root.name.item, types)?;
    }
    Ok(())
}

fn add_name<'a>(name: &'a str, types: &mut NameMap<'a, ()>) -> Result<(), OutOfMemory>
    ensures { OnOk result (Grows (name.now ∷ []) types.old types.new) }
{
    types.insert(name, ())?;
    Ok(())
}

fn add_named<'a>(
    reasons: &'a [PlacedFault<'a>],
    types: &mut NameMap<'a, ()>,
) -> Result<(), OutOfMemory>
    ensures { OnOk result (Grows (flat_map named_by reasons.now) types.old types.new) }
{
    for reason in reasons {
        add_named_by(reason, types)?;
    }
    Ok(())
}

// The type that a reason says to be of the wrong kind, or to stand in.
fn add_named_by<'a>(
    reason: &'a PlacedFault<'a>,
    types: &mut NameMap<'a, ()>,
) -> Result<(), OutOfMemory>
    ensures { OnOk result (Grows (named_by reason.now) types.old types.new) }
{
    match &reason.fault {
        SchemaFault::NoQueryRoot => add_name(STAND_IN, types),
        SchemaFault::Refused(SchemaError::QueryNotObject) => add_name(STAND_IN, types),
        SchemaFault::Refused(SchemaError::NotInputType(name)) => add_name(name.as_str(), types),
        SchemaFault::Refused(SchemaError::UnionMemberNotObject(name)) => {
            add_name(name.as_str(), types)
        }
        _ => Ok(()),
    }
}

// The names of directives that have a definition in which a reason stands.
fn touched_directives<'a>(
    alloc: Global,
    document: &[TypeSystemDefinition<'a>],
    places: &[usize],
) -> Result<NameMap<'a, ()>, OutOfMemory>
    requires { IsNonDecreasingBy (λ i. i) places.now }
{
    let mut directives = NameMap::new(alloc);
    for definition in document {
        if let TypeSystemDefinition::Directive(defined) = definition {
            if has_reason(places, defined.span) {
                directives.insert(defined.item.name.item, ())?;
            }
        }
    }
    Ok(directives)
}

// Whether a reason stands in a definition or extension of the schema.
fn is_schema_touched(document: &[TypeSystemDefinition<'_>], places: &[usize]) -> bool
    requires { IsNonDecreasingBy (λ i. i) places.now }
{
    for definition in document {
        if let TypeSystemDefinition::Schema(defined) = definition {
            if has_reason(places, defined.span) {
                return true;
            }
        }
    }
    false
}

// Whether a reason is that there is no query root that is an object.
fn lacks_query(reasons: &[PlacedFault<'_>]) -> bool {
    for reason in reasons {
        match &reason.fault {
            SchemaFault::NoQueryRoot => return true,
            SchemaFault::Refused(SchemaError::QueryNotObject) => return true,
            _ => {}
        }
    }
    false
}
