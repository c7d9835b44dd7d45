//! The list of the rules of October 2021 in the first stage, and the call that tries them all.

ghost use Rattle.std.specs.Prelude.{◌≡◌, IfOk, OnOk, OnErr, IsErr, true};
ghost use Rattle.walk.specs.ContextState.{IsMadeFor};
ghost use Rattle.walk.specs.Rule.{Appended, AppendsAllowed, any_value, at_some_end};
ghost use Rattle.walk.specs.Step.{KeepsPlace};
ghost use Rattle.fragment_graph.specs.DocumentCycles.{SearchedDocument};
ghost use Rattle.rules_first_stage.specs.Stage.{Stage, stage_reports};

use crate::groups::{Groups, groups};
use fragment_graph::cycles::DocumentCycles;
use language::error::OutOfMemory;
use language::tree::Definition;
use meta::check::CheckedScalar;
use rules_document::no_fragment_cycles;
use rules_document::no_fragment_cycles::NoFragmentCycles;
use rules_fragments::possible_fragment_spreads;
use rules_fragments::possible_fragment_spreads::PossibleFragmentSpreads;
use walk::laws::pair_runs;
use walk::{Criterion, MultiVisitorCons, Rule, ValidatorContext, visit_settled};

/// All rules of the first stage, the newest first. Each says in its module what it finds nothing in.
pub type SpecifiedStageRules<'a, S> = MultiVisitorCons<
    PossibleFragmentSpreads<'a, S>,
    MultiVisitorCons<NoFragmentCycles<'a>, Groups<'a>>,
>;

/// The first stage, for a kind of scalars. Every kind of scalars has it.
pub trait SpecifiedStage<'a>: CheckedScalar {
    // What its rules may report, and where they find nothing.
    ghost specified_stage: { Stage Self Self.Check };
}

// A long list takes long to read in a clause. So the clauses cite this name for what it says.
impl<'a, S: CheckedScalar + 'a> SpecifiedStage<'a> for S {
    ghost specified_stage = { record {
      may_report = at_some_end ⟦<SpecifiedStageRules<'a, S> as Rule<S, S::Check>>⟧.allows;
      find_nothing = ⟦<SpecifiedStageRules<'a, S> as Criterion<S, S::Check>>⟧.finds_nothing;
    } };
}

/// Tries every rule of the first stage on a document, in one walk, and appends their errors. Returns what the rule on
/// cycles found of the document's fragments.
///
/// In a context that was made for the document it appends no error if and only if each rule of the list finds nothing.
/// In any other context it only appends errors.
///
/// # Errors
///
/// Out of memory. The context fails from then on.
pub fn visit_specified_stage<'a, 't, S: CheckedScalar>(
    ctx: &mut ValidatorContext<'a, S>,
    document: &'a [Definition<'t, S>],
) -> Result<DocumentCycles<'a>, OutOfMemory>
    ensures searched { IfOk result (SearchedDocument document.now) }
    ensures appended { OnOk result (IsMadeFor ctx.old document.now
        → AppendsAllowed (stage_reports ⟦<S as SpecifiedStage<'a>>⟧.specified_stage) document.now ctx.old ctx.new) }
    ensures only { OnOk result (Appended any_value ctx.old ctx.new) }
    ensures err { OnErr result (KeepsPlace ctx.old ctx.new) }
    ensures failed { OnErr result (ctx.new.failed ≡ true) }
    ensures stays { ctx.old.failed ≡ true → IsErr result }
{
    let alloc = ctx.allocator();
    let mut rules = groups(alloc)
        .with_rule(no_fragment_cycles::factory(alloc))
        .with_rule(possible_fragment_spreads::factory(alloc));
    visit_settled(&mut rules, ctx, document)?;
    // A run of the list holds a run of the rule on cycles.
    pair_runs::<
        S,
        S::Check,
        PossibleFragmentSpreads<'a, S>,
        MultiVisitorCons<NoFragmentCycles<'a>, Groups<'a>>,
    >();
    pair_runs::<S, S::Check, NoFragmentCycles<'a>, Groups<'a>>();
    let (_, others) = rules.into_parts();
    let (rule, _) = others.into_parts();
    match rule.into_found() {
        Some(cycles) => Ok(cycles),
        None => unreachable!(),
    }
}
