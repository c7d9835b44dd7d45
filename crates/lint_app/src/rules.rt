//! The rules of each dialect, for the scalars of queries.

ghost use Rattle.lint_app.specs.Rules.{SourceRules};

use graphql_reader::SourceScalar;
use validation::DialectRules;

/// The rules under a name that proofs of this crate can cite.
pub trait LintRules {
    // What those of a dialect report, and where they find nothing.
    ghost rules: { SourceRules };
}

impl LintRules for SourceScalar {
    ghost rules = { ⟦<SourceScalar as DialectRules<'static>>⟧.rules_of };
}
