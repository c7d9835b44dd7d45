//! Laws of the rules of the first stage.

ghost use Rattle.rules_first_stage.specs.CleanStage.{IsCleanWhere};

use crate::rules::FirstStage;
use meta::check::CheckedScalar;

/// A document in which the rules of the first stage find nothing has no cycle of fragments. The names in its lists are
/// unique, its spreads and type conditions are known, and its variables have input types.
pub fn clean_documents<'a, S: CheckedScalar + 'a>()
    ensures { IsCleanWhere ⟦<S as FirstStage<'a>>⟧.stage.find_nothing }
{}
