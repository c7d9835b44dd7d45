//! The rules in which October 2021 differs from juniper, each in its module, and the call that tries all rules of
//! October 2021.

ghost use Rattle.std.specs.Prelude.{◌≡◌, ◌≤◌, ◌*◌, ◌-◌, ◌↔◌, [], IfOk, OnOk, OnErr, IsErr, true};
ghost use Rattle.walk.specs.ContextState.{IsMadeFor};
ghost use Rattle.walk.specs.Rule.{Appended, any_value};
ghost use Rattle.walk.specs.Step.{KeepsPlace};
ghost use Rattle.merge_graph.specs.Definitions.{fragment_count};
ghost use Rattle.validation.specs.Stages.{AppendsReported, IsValidIn, Rules};

use crate::rules::visit_stage_two;
use language::error::OutOfMemory;
use language::tree::Definition;
use meta::check::CheckedScalar;
pub use rules_specified::single_root_field;
pub use rules_specified_fields::{fields_on_correct_type, typename_leafs};
pub use rules_specified_positions::variables_in_allowed_position;
use rules_specified_stage::laws::clean_documents;
use rules_specified_stage::{SpecifiedStage, visit_specified_stage};
pub use rules_specified_values::default_values_of_correct_type;
use walk::ValidatorContext;

/// All rules of October 2021, for a kind of scalars. Every kind of scalars has them.
pub trait SpecifiedRules<'a>: CheckedScalar {
    // What the rules report, and where they find nothing.
    ghost specified_rules: { Rules Self Self.Check };
}

// Two fields are merged by the equality of their scalars.
impl<'a, S: CheckedScalar + 'a> SpecifiedRules<'a> for S {
    ghost specified_rules = { record { first_stage = ⟦<S as SpecifiedStage<'a>>⟧.specified_stage; same = S.eq } };
}

/// Tries every rule of October 2021 on a document, in two stages, and appends the errors. Values are judged by the
/// dialect of the context's schema.
///
/// The first stage is one walk with every rule except the one on fields that can be merged. If the context holds no
/// error after it, the second stage tries that rule. Returns the number of pairs of fragments that it compared, or 0 if
/// it didn't run: with `n` definitions of fragments at most `n (n - 1)` pairs.
///
/// In a fresh context for this document nothing is reported if and only if the document is valid. In a context that was
/// made for another document errors alone are appended.
///
/// # Errors
///
/// Out of memory. The context fails from then on.
pub fn visit_specified_rules<'a, 't, S: CheckedScalar>(
    ctx: &mut ValidatorContext<'a, S>,
    document: &'a [Definition<'t, S>],
) -> Result<u128, OutOfMemory>
    ensures appended { IfOk result (λ pairs. IsMadeFor ctx.old document.now
        → AppendsReported ⟦<S as SpecifiedRules<'a>>⟧.specified_rules ctx.old ctx.new document.now pairs) }
    ensures valid { IfOk result (λ pairs. IsMadeFor ctx.old document.now → ctx.old.errors ≡ []
        → (ctx.new.errors ≡ []) ↔ IsValidIn ⟦<S as SpecifiedRules<'a>>⟧.specified_rules ctx.old document.now) }
    ensures few { IfOk result (λ pairs. IsMadeFor ctx.old document.now
        → pairs ≤ fragment_count document.now * (fragment_count document.now - 1)) }
    ensures only { OnOk result (Appended any_value ctx.old ctx.new) }
    ensures err { OnErr result (KeepsPlace ctx.old ctx.new) }
    ensures failed { OnErr result (ctx.new.failed ≡ true) }
    ensures stays { ctx.old.failed ≡ true → IsErr result }
{
    let cycles = visit_specified_stage(ctx, document)?;
    clean_documents::<S>();
    if ctx.has_errors() {
        return Ok(0);
    }
    visit_stage_two(ctx, document, cycles)
}
