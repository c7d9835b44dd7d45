//! Each spread names a fragment of the document (GraphQL, October 2021, section 5.5.2.1).

ghost use Rattle.std.specs.Prelude.{◌≡◌, IfOk, OnErr, OnOk, string_bytes};
ghost use Rattle.walk.specs.ContextState.{with_errors};
ghost use Rattle.walk.specs.Entering.{everywhere, finding_step, found};
ghost use Rattle.walk.specs.Rule.{always, any_value, exactly};
ghost use Rattle.walk.specs.RuleLaws.{everywhere_silent};
ghost use Rattle.walk.specs.Step.{KeepsPlace};
ghost use Rattle.walk.proofs.Entering.{finding_keeps};
ghost use Rattle.rules_fragments.specs.KnownFragmentNames.{unknown_fragment_message, unknown_fragments};
ghost use Rattle.rules_fragments.specs.KnownFragmentNames.{unknown_name, SpreadsKnown};
ghost use Rattle.rules_fragments.specs.KnownFragmentNamesLaws.{none_unknown};

use language::error::OutOfMemory;
use language::position::Spanning;
use meta::check::CheckedScalar;
use std::alloc::{AllocError, Global};
use walk::{Criterion, Event, Fresh, Machine, Rule, SettledRule, ValidatorContext, Visitor};

/// Reports each spread of a name that no fragment of the document has, at the name.
#[derive(Drop)]
pub struct KnownFragmentNames {
    alloc: Global,
}

/// Makes the rule, for one document.
pub fn factory(alloc: Global) -> KnownFragmentNames
    ensures { ⟦<KnownFragmentNames as Fresh>⟧.fresh result }
{
    KnownFragmentNames { alloc }
}

impl Fresh for KnownFragmentNames {
    ghost fresh = { any_value };
}

impl<S, C> Machine<S, C> for KnownFragmentNames {
    ghost step = { finding_step unknown_fragments };
}

impl<S, C> Rule<S, C> for KnownFragmentNames {
    ghost allows = { always (exactly (found unknown_fragments)) };

    ghost keeps = { finding_keeps unknown_fragments };
}

impl<S, C> Criterion<S, C> for KnownFragmentNames {
    ghost finds_nothing = { everywhere (λ scope o. SpreadsKnown scope.known o.node) };
}

impl<S, C> SettledRule<S, C> for KnownFragmentNames {
    ghost silent = { everywhere_silent unknown_fragments (λ scope o. SpreadsKnown scope.known o.node) none_unknown };
}

impl<'a, S: CheckedScalar> Visitor<'a, S> for KnownFragmentNames {
    fn on(
        &mut self,
        ctx: &mut ValidatorContext<'a, S>,
        event: &Event<'a, S>,
    ) -> Result<(), OutOfMemory> {
        if let Event::EnterFragmentSpread(spread) = event {
            report_unknown(self.alloc, ctx, &spread.item.name)?;
        }
        Ok(())
    }
}

// Reports a name that no fragment has.
fn report_unknown<'a, S: CheckedScalar>(
    alloc: Global,
    ctx: &mut ValidatorContext<'a, S>,
    name: &Spanning<&str>,
) -> Result<(), OutOfMemory>
    ensures ok { OnOk result (ctx.new ≡ with_errors ctx.old (unknown_name ctx.old.known name.now)) }
    ensures err { OnErr result (KeepsPlace ctx.old ctx.new) }
{
    if ctx.is_known_fragment(name.item) {
        return Ok(());
    }
    let message = error_message(alloc, name.item)?;
    ctx.report_error(message.as_str(), &[name.span.start])
}

fn error_message(alloc: Global, name: &str) -> Result<String, AllocError>
    ensures { IfOk result (λ message. string_bytes message ≡ unknown_fragment_message name.now) }
{
    format!(in alloc; "Unknown fragment: \"{name}\"")
}
