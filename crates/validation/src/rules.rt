//! The rules, each in its module, and the call that tries them all.

ghost use Rattle.std.specs.Prelude.{◌≡◌, ◌≤◌, ◌*◌, ◌-◌, ◌↔◌, ℕ, List, [], IfOk, OnOk, OnErr, IsErr, true};
ghost use Rattle.walk.specs.ContextState.{IsMadeFor, with_errors};
ghost use Rattle.walk.specs.ErrorValue.{ErrorValue};
ghost use Rattle.walk.specs.Rule.{Appended, any_value};
ghost use Rattle.walk.specs.Step.{KeepsPlace};
ghost use Rattle.fragment_graph.specs.DocumentCycles.{SearchedDocument};
ghost use Rattle.merge_graph.specs.Definitions.{fragment_count};
ghost use Rattle.rules_merge.specs.declared.overlapping_fields_can_be_merged.OverlappingFieldsCanBeMerged.{OverlappingFieldsCanBeMerged as MergeRule};
ghost use Rattle.rules_merge.specs.OverlappingFieldsCanBeMerged.{ErrorsWithin};
ghost use Rattle.validation.specs.Stages.{AppendsReported, IsValidIn, Rules};

use fragment_graph::cycles::DocumentCycles;
use language::error::OutOfMemory;
use language::shorten::shorten;
use language::tree::Definition;
use meta::check::CheckedScalar;
pub use rules_arguments::{
    known_argument_names, known_directives, provided_non_null_arguments, unique_argument_names,
    unique_directive_names, unique_input_field_names,
};
pub use rules_document::{
    no_fragment_cycles, no_undefined_variables, no_unused_fragments, no_unused_variables,
};
pub use rules_fields::{disable_introspection, fields_on_correct_type, scalar_leafs};
use rules_first_stage::laws::clean_documents;
use rules_first_stage::{FirstStage, visit_stage_one};
pub use rules_fragments::{
    fragments_on_composite_types, known_fragment_names, known_type_names,
    possible_fragment_spreads, unique_fragment_names,
};
pub use rules_merge::overlapping_fields_can_be_merged;
pub use rules_operations::{
    lone_anonymous_operation, unique_operation_names, unique_variable_names,
    variables_are_input_types,
};
pub use rules_positions::variables_in_allowed_position;
pub use rules_values::{arguments_of_correct_type, default_values_of_correct_type};
use walk::ValidatorContext;

/// All rules, for a kind of scalars. Every kind of scalars has them.
pub trait AllRules<'a>: CheckedScalar {
    // What the rules report, and where they find nothing.
    ghost rules: { Rules Self Self.Check };
}

// Two fields are merged by the equality of their scalars.
impl<'a, S: CheckedScalar + 'a> AllRules<'a> for S {
    ghost rules = { record { first_stage = ⟦<S as FirstStage<'a>>⟧.stage; same = S.eq } };
}

/// Tries every rule on a document, in two stages, and appends the errors.
///
/// The first stage is one walk with every rule except the one on fields that can be merged. If the context holds no
/// error after it, the second stage tries that rule. Returns the number of pairs of fragments that it compared, or 0 if
/// it didn't run: with `n` definitions of fragments at most `n (n - 1)` pairs.
///
/// In a fresh context for this document nothing is reported if and only if the document is valid. Where the context has
/// a limit, the search for fields that conflict may stop, and then an error without a place says so. In a context that
/// was made for another document errors alone are appended.
///
/// # Errors
///
/// Out of memory. The context fails from then on.
pub fn visit_all_rules<'a, 't, S: CheckedScalar>(
    ctx: &mut ValidatorContext<'a, S>,
    document: &'a [Definition<'t, S>],
) -> Result<u128, OutOfMemory>
    ensures appended { IfOk result (λ pairs. IsMadeFor ctx.old document.now
        → AppendsReported ⟦<S as AllRules<'a>>⟧.rules ctx.old ctx.new document.now pairs) }
    ensures valid { IfOk result (λ pairs. IsMadeFor ctx.old document.now → ctx.old.errors ≡ []
        → (ctx.new.errors ≡ []) ↔ IsValidIn ⟦<S as AllRules<'a>>⟧.rules ctx.old document.now) }
    ensures few { IfOk result (λ pairs. IsMadeFor ctx.old document.now
        → pairs ≤ fragment_count document.now * (fragment_count document.now - 1)) }
    ensures only { OnOk result (Appended any_value ctx.old ctx.new) }
    ensures err { OnErr result (KeepsPlace ctx.old ctx.new) }
    ensures failed { OnErr result (ctx.new.failed ≡ true) }
    ensures stays { ctx.old.failed ≡ true → IsErr result }
{
    let cycles = visit_stage_one(ctx, document)?;
    clean_documents::<S>();
    if ctx.has_errors() {
        return Ok(0);
    }
    visit_stage_two(ctx, document, cycles)
}

/// Tries the rule on fields that can be merged, which acts only where the document is left. It takes what the first
/// stage found of the document's fragments, and returns the number of pairs of fragments that it compared.
///
/// # Errors
///
/// Out of memory. The context fails from then on.
pub fn visit_stage_two<'a, 't, S: CheckedScalar>(
    ctx: &mut ValidatorContext<'a, S>,
    document: &'a [Definition<'t, S>],
    cycles: DocumentCycles<'a>,
) -> Result<u128, OutOfMemory>
    requires { SearchedDocument document.now cycles }
    ensures appended { IfOk result (λ pairs. IsMadeFor ctx.old document.now → (es : List ErrorValue)
        × (end : MergeRule) × ErrorsWithin S.eq ctx.old.limit ctx.old.schema document.now end es
        × (end.compared ≡ pairs) × (ctx.new ≡ with_errors ctx.old es)) }
    ensures only { OnOk result (Appended any_value ctx.old ctx.new) }
    ensures err { OnErr result (KeepsPlace ctx.old ctx.new) }
    ensures failed { OnErr result (ctx.new.failed ≡ true) }
{
    let mut rule = overlapping_fields_can_be_merged::factory(ctx.allocator());
    let enough = enough_for(ctx.limit());
    match rule.leave_within(ctx, shorten(document), cycles, enough) {
        Ok(()) => Ok(rule.compared()),
        Err(_) => {
            ctx.fail();
            Err(OutOfMemory)
        }
    }
}

// How many findings are enough of a search for conflicts where so many errors are kept; 0 asks for all.
//
// An error has a finding of its own, and one for each conflict below its fields.
fn enough_for(limit: usize) -> usize
    ensures all { limit ≡ 0 → result ≡ 0 }
    ensures some { limit ≤ result }
{
    if limit == 0 {
        return 0;
    }
    limit.saturating_add(1000)
}
