//! The rules of each dialect, for the scalars of queries.

ghost use Rattle.answers.specs.Answers.{SourceRules};

use graphql_reader::SourceScalar;
use validation::DialectRules;

/// What is known of the rules of each dialect, under a name that contracts can cite.
pub trait AnswerRules {
    // What those of a dialect report, and where they find nothing.
    ghost rules: { SourceRules };
}

impl AnswerRules for SourceScalar {
    ghost rules = { ⟦<SourceScalar as DialectRules<'static>>⟧.rules_of };
}
