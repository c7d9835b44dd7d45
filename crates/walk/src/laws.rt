//! Laws of visitors, of the context and of errors.

ghost use Rattle.walk.specs.ContextState.{ContextState, LeavesTypes};
ghost use Rattle.walk.specs.ErrorValue.{EqualMeansSame};
ghost use Rattle.walk.specs.Pair.{PairSplits, no_step, pair_step};
ghost use Rattle.walk.specs.Rule.{SilentIff, WalksAppend, of_newest};
ghost use Rattle.events.specs.Typing.{Typing};

use crate::rule::{Rule, SettledRule};
use crate::visitor::Machine;

/// Each run of two visitors as one is a run of each of them through the same events, and what the two append is a
/// permutation of what each appends. In a list of visitors the law splits off one after another.
pub fn pair_runs<S, C, A: Machine<S, C>, B: Machine<S, C>>()
    ensures { PairSplits A.step B.step }
{}

/// A walk with fresh rules, in a context that was made for the document, appends what they allow in the states that
/// they end in.
///
/// A list of rules is a rule, so `R` may be any list that `with` makes of them, and `visit` ensures that such a walk
/// was made. For a rule that is alone in its list, `MultiVisitorNil.with(rule)`, `alone` says it in that rule's words.
pub fn rules_append<S, C, R: Rule<S, C>>()
    ensures list { WalksAppend R.step R.fresh R.allows }
    ensures alone { WalksAppend (pair_step R.step no_step) (of_newest R.fresh) (of_newest R.allows) }
{}

/// What rules may report of a document is nothing if and only if they find nothing in it.
pub fn rules_are_settled<S, C, R: SettledRule<S, C>>()
    ensures { SilentIff R.allows R.finds_nothing }
{}

/// Types that are pushed and then popped leave a context as it was; what was reported between stays. Whatever a call
/// between does, the types are those from before if it left them as it found them.
pub fn pushes_are_undone<S, C>()
    ensures { (w : ContextState S C) (t : Typing S C) → LeavesTypes w t }
{}

/// Two errors compare as equal if and only if they are the same error: the same places and the same message.
pub fn equal_errors_are_the_same()
    ensures { EqualMeansSame }
{}
