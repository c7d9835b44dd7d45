//! A linter, which tries a rule of its choice on a document, by the calls that any visitor has.

ghost use Rattle.std.specs.Prelude.{OnOk};
ghost use Rattle.walk.specs.ContextState.{IsMadeFor};
ghost use Rattle.walk.specs.Rule.{AppendsAllowed};

use language::error::OutOfMemory;
use language::tree::Definition;
use meta::check::CheckedScalar;
use walk::laws::rules_append;
use walk::{MultiVisitorNil, Rule, ValidatorContext, Visitor, visit};

/// Tries a fresh rule on a document. In a context that was made for it the rule appends what it allows, in the state
/// that it ends in.
///
/// # Errors
///
/// Out of memory, or an error of the rule. The context fails from then on.
pub fn try_rule<'a, 't, S: CheckedScalar, R: Visitor<'a, S> + Rule<S, S::Check> + Drop>(
    rule: R,
    ctx: &mut ValidatorContext<'a, S>,
    document: &'a [Definition<'t, S>],
) -> Result<(), OutOfMemory>
    requires { R.fresh rule }
    ensures { OnOk result (IsMadeFor ctx.old document.now
        → (end : R) × AppendsAllowed (R.allows end) document.now ctx.old ctx.new) }
{
    rules_append::<S, S::Check, R>();
    let mut rules = MultiVisitorNil.with(rule);
    visit(&mut rules, ctx, document)
}
