//! The measures of a selection set, and how those of its parts are added up.
ghost use Rattle.std.specs.Prelude.{◌≡◌};
ghost use Rattle.measures.specs.Measure.{nothing, together, capped, only_directives};

/// What a selection set has once each spread in it is written out, copies included (section 2.8).
///
/// Each number counts up to `u128::MAX`, which also means more than that.
#[derive(Clone, Copy, Debug)]
pub struct Measures {
    /// The most fields on a path from the set to a leaf (section 2.5).
    pub depth: u128,
    /// The number of fields.
    pub fields: u128,
    /// The number of fields in the set itself, with inline fragments and spreads opened.
    pub root_fields: u128,
    /// The number of fields that have an alias (section 2.7).
    pub aliases: u128,
    /// The number of directives on fields, spreads and inline fragments (section 2.12).
    pub directives: u128,
    /// The most list fields of introspection on a path below `__schema` or `__type` (section 4.2).
    pub introspection_depth: u128,
    /// The most list fields of introspection on a path, wherever it begins.
    pub listed_depth: u128,
}

/// The measures of an empty set.
pub fn no_measures() -> Measures
    ensures { result ≡ nothing }
{
    Measures {
        depth: 0,
        fields: 0,
        root_fields: 0,
        aliases: 0,
        directives: 0,
        introspection_depth: 0,
        listed_depth: 0,
    }
}

// The measures of two sets that are joined.
#[tactic(auto, unfolding(crate::specs::Measure::together, crate::specs::Measure::at_most))]
pub(crate) fn joined(a: Measures, b: Measures) -> Measures
    ensures { result ≡ capped (together a b) }
{
    Measures {
        depth: a.depth.max(b.depth),
        fields: a.fields.saturating_add(b.fields),
        root_fields: a.root_fields.saturating_add(b.root_fields),
        aliases: a.aliases.saturating_add(b.aliases),
        directives: a.directives.saturating_add(b.directives),
        introspection_depth: a.introspection_depth.max(b.introspection_depth),
        listed_depth: a.listed_depth.max(b.listed_depth),
    }
}

// Directives that are on a selection.
#[tactic(auto, unfolding(crate::specs::Measure::only_directives))]
pub(crate) fn directives_alone(count: u128) -> Measures
    ensures { result ≡ only_directives count }
{
    Measures {
        directives: count,
        ..no_measures()
    }
}
