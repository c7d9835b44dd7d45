//! How much may still be asked and looked at, where fields are passed many at once.
ghost use Rattle.std.specs.Prelude.{◌≡◌, ◌<◌, ◌≤◌, false};
ghost use Rattle.merge_sets.specs.Budget.{Asks};

/// Takes so many questions off a budget, or says that it has fewer.
///
/// A question is asked of the judge, about two fields. Each function that asks some takes them off here first.
pub fn take_questions(budget: &mut usize, questions: usize) -> bool
    ensures asks { Asks questions (result ≡ false) budget.old budget.new }
    ensures spent { budget.new ≤ budget.old }
    ensures fewer { result ≡ false → budget.old < questions }
{
    if questions > *budget {
        return false;
    }
    *budget -= questions;
    true
}
