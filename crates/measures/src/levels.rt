//! Where a selection set stands among the fields above it.
ghost use Rattle.std.specs.Prelude.{◌≡◌, length};
ghost use Rattle.std.specs.Option.{option_map_or};
ghost use Rattle.measures.specs.Measure.{capped, directive_count};
ghost use Rattle.measures.specs.Names.{is_entry, is_listing};
ghost use Rattle.measures.specs.Levels.{root, at_level, own_field, below_field, capped_level};

use crate::measure::Measures;
use language::tree::{Directive, Field};
use language_types::position::Spanning;

// What the fields above a set say of its measures.
#[derive(Clone, Copy, Debug)]
pub(crate) struct Level {
    /// The number of fields above.
    pub depth: u128,
    /// Whether there is none.
    pub is_root: bool,
    /// Whether `__schema` or `__type` is among them.
    pub is_entered: bool,
    /// The number of list fields of introspection below the first of these.
    pub entered: u128,
    /// The number of list fields of introspection.
    pub listed: u128,
}

// Where no field is above.
pub(crate) fn root_level() -> Level
    ensures { result ≡ root }
{
    Level {
        depth: 0,
        is_root: true,
        is_entered: false,
        entered: 0,
        listed: 0,
    }
}

// What the measures of a set add to those of the set at the root.
#[tactic(auto, unfolding(crate::specs::Measure::at_most, crate::specs::Levels::at_level))]
pub(crate) fn at_level(level: Level, of: Measures) -> Measures
    ensures { result ≡ capped (at_level level of) }
{
    Measures {
        depth: level.depth.saturating_add(of.depth),
        fields: of.fields,
        root_fields: if level.is_root { of.root_fields } else { 0 },
        aliases: of.aliases,
        directives: of.directives,
        introspection_depth: if level.is_entered {
            level.entered.saturating_add(of.listed_depth)
        } else {
            of.introspection_depth
        },
        listed_depth: level.listed.saturating_add(of.listed_depth),
    }
}

// Whether the field asks for the schema (section 4.1).
fn is_entry(name: &str) -> bool
    ensures { result ≡ is_entry name.now }
{
    name == "__schema" || name == "__type"
}

// Whether the field is a list of introspection that leads to more types (section 4.2).
fn is_listing(name: &str) -> bool
    ensures { result ≡ is_listing name.now }
{
    name == "fields" || name == "interfaces" || name == "possibleTypes" || name == "inputFields"
}

/// The number of directives on a node.
pub(crate) fn directive_count<S>(directives: &Option<Vec<Spanning<Directive<'_, S>>>>) -> u128
    ensures { result ≡ directive_count directives.now }
{
    match directives {
        Some(list) => list.len() as u128,
        None => 0,
    }
}

// What a field adds by itself.
#[tactic(auto, unfolding(crate::specs::Levels::own_field))]
pub(crate) fn own_field<S>(level: Level, field: &Field<'_, S>) -> Measures
    ensures { result
        ≡ own_field level (option_map_or (λ _. 1) field.now.alias 0) (directive_count field.now.directives) }
{
    Measures {
        depth: 0,
        fields: 1,
        root_fields: if level.is_root { 1 } else { 0 },
        aliases: if field.alias.is_some() { 1 } else { 0 },
        directives: directive_count(&field.directives),
        introspection_depth: 0,
        listed_depth: 0,
    }
}

// Where the selection set of a field of this name stands.
#[tactic(auto, unfolding(crate::specs::Levels::below_field, crate::specs::Levels::level_at_most))]
pub(crate) fn below_field(level: Level, name: &str) -> Level
    ensures { result ≡ capped_level (below_field level name.now) }
{
    let own: u128 = if is_listing(name) { 1 } else { 0 };
    Level {
        depth: level.depth.saturating_add(1),
        is_root: false,
        is_entered: level.is_entered || is_entry(name),
        entered: if level.is_entered {
            level.entered.saturating_add(own)
        } else {
            0
        },
        listed: level.listed.saturating_add(own),
    }
}
