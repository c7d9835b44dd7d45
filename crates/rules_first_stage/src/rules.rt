//! The list of the rules of the first stage, and the call that tries them all.

ghost use Rattle.std.specs.Prelude.{◌≡◌, IfOk, OnOk, OnErr, IsErr, true};
ghost use Rattle.walk.specs.ContextState.{IsMadeFor};
ghost use Rattle.walk.specs.Rule.{Appended, AppendsAllowed, any_value, at_some_end};
ghost use Rattle.walk.specs.Step.{KeepsPlace};
ghost use Rattle.fragment_graph.specs.DocumentCycles.{SearchedDocument};
ghost use Rattle.rules_first_stage.specs.Stage.{Stage, stage_reports};

use crate::across;
use crate::across::AcrossDocument;
use fragment_graph::cycles::DocumentCycles;
use language::error::OutOfMemory;
use language::tree::Definition;
use meta::check::CheckedScalar;
use rules_arguments::known_argument_names::KnownArgumentNames;
use rules_arguments::known_directives::KnownDirectives;
use rules_arguments::provided_non_null_arguments::ProvidedNonNullArguments;
use rules_arguments::unique_argument_names::UniqueArgumentNames;
use rules_arguments::unique_directive_names::UniqueDirectiveNames;
use rules_arguments::unique_input_field_names::UniqueInputFieldNames;
use rules_arguments::{
    known_argument_names, known_directives, provided_non_null_arguments, unique_argument_names,
    unique_directive_names, unique_input_field_names,
};
use rules_fields::fields_on_correct_type::FieldsOnCorrectType;
use rules_fields::scalar_leafs::ScalarLeafs;
use rules_fields::{fields_on_correct_type, scalar_leafs};
use rules_fragments::fragments_on_composite_types::FragmentsOnCompositeTypes;
use rules_fragments::known_fragment_names::KnownFragmentNames;
use rules_fragments::known_type_names::KnownTypeNames;
use rules_fragments::possible_fragment_spreads::PossibleFragmentSpreads;
use rules_fragments::unique_fragment_names::UniqueFragmentNames;
use rules_fragments::{
    fragments_on_composite_types, known_fragment_names, known_type_names,
    possible_fragment_spreads, unique_fragment_names,
};
use rules_operations::lone_anonymous_operation::LoneAnonymousOperation;
use rules_operations::unique_operation_names::UniqueOperationNames;
use rules_operations::unique_variable_names::UniqueVariableNames;
use rules_operations::{
    lone_anonymous_operation, unique_operation_names, unique_variable_names,
    variables_are_input_types,
};
use rules_values::arguments_of_correct_type::ArgumentsOfCorrectType;
use rules_values::default_values_of_correct_type::DefaultValuesOfCorrectType;
use rules_values::{arguments_of_correct_type, default_values_of_correct_type};
use std::alloc::Global;
use walk::laws::pair_runs;
use walk::{
    Criterion, Fresh, MultiVisitorCons, MultiVisitorNil, Rule, ValidatorContext, visit_settled,
};

// The rules come in groups, the newest first: one long list of all rules takes long to prove. Groups in which no rule
// differs from that of another dialect are public, since each dialect has them.

/// The rules on operations and their variables, the newest first (GraphQL, October 2021, sections 5.2 and 5.8).
pub type OfOperations<'a> = MultiVisitorCons<
    variables_are_input_types::UniqueVariableNames,
    MultiVisitorCons<
        UniqueVariableNames<'a>,
        MultiVisitorCons<
            UniqueOperationNames<'a>,
            MultiVisitorCons<LoneAnonymousOperation, MultiVisitorNil>,
        >,
    >,
>;

// The rules on fields (5.3).
type OfFields = MultiVisitorCons<
    ScalarLeafs,
    MultiVisitorCons<FieldsOnCorrectType, MultiVisitorNil>,
>;

/// The rules on arguments, keys of objects and directives, the newest first (GraphQL, October 2021, sections 5.4, 5.6.3
/// and 5.7).
pub type OfArguments<'a> = MultiVisitorCons<
    UniqueDirectiveNames<'a>,
    MultiVisitorCons<
        UniqueInputFieldNames,
        MultiVisitorCons<
            UniqueArgumentNames,
            MultiVisitorCons<
                ProvidedNonNullArguments,
                MultiVisitorCons<
                    KnownDirectives,
                    MultiVisitorCons<KnownArgumentNames, MultiVisitorNil>,
                >,
            >,
        >,
    >,
>;

/// The rules on fragments and on the names of types, the newest first (GraphQL, October 2021, section 5.5).
pub type OfFragments<'a> = MultiVisitorCons<
    UniqueFragmentNames<'a>,
    MultiVisitorCons<
        KnownTypeNames,
        MultiVisitorCons<
            KnownFragmentNames,
            MultiVisitorCons<FragmentsOnCompositeTypes, MultiVisitorNil>,
        >,
    >,
>;

// The rules on values (5.6.1).
type OfValues = MultiVisitorCons<
    DefaultValuesOfCorrectType,
    MultiVisitorCons<ArgumentsOfCorrectType, MultiVisitorNil>,
>;

// The rules that look at one place, in groups.
type Groups<'a> = MultiVisitorCons<
    OfValues,
    MultiVisitorCons<
        OfFragments<'a>,
        MultiVisitorCons<
            OfArguments<'a>,
            MultiVisitorCons<OfFields, MultiVisitorCons<OfOperations<'a>, MultiVisitorNil>>,
        >,
    >,
>;

/// All rules of the first stage, the newest first. Each says in its module what it finds nothing in.
pub type StageRules<'a, S> = MultiVisitorCons<
    PossibleFragmentSpreads<'a, S>,
    MultiVisitorCons<AcrossDocument<'a>, Groups<'a>>,
>;

/// The first stage, for a kind of scalars. Every kind of scalars has it.
pub trait FirstStage<'a>: CheckedScalar {
    // What its rules may report, and where they find nothing.
    ghost stage: { Stage Self Self.Check };
}

// A long list takes long to read in a clause. So the clauses cite this name for what it says.
impl<'a, S: CheckedScalar + 'a> FirstStage<'a> for S {
    ghost stage = { record {
      may_report = at_some_end ⟦<StageRules<'a, S> as Rule<S, S::Check>>⟧.allows;
      find_nothing = ⟦<StageRules<'a, S> as Criterion<S, S::Check>>⟧.finds_nothing;
    } };
}

/// Makes the rules on operations and their variables, for one document.
pub fn of_operations<'a>(alloc: Global) -> OfOperations<'a>
    ensures { ⟦<OfOperations<'a> as Fresh>⟧.fresh result }
{
    MultiVisitorNil
        .with_rule(lone_anonymous_operation::factory(alloc))
        .with_rule(unique_operation_names::factory(alloc))
        .with_rule(unique_variable_names::factory(alloc))
        .with_rule(variables_are_input_types::factory(alloc))
}

// Makes the rules on fields.
fn of_fields(alloc: Global) -> OfFields
    ensures { ⟦<OfFields as Fresh>⟧.fresh result }
{
    MultiVisitorNil
        .with_rule(fields_on_correct_type::factory(alloc))
        .with_rule(scalar_leafs::factory(alloc))
}

/// Makes the rules on arguments, keys of objects and directives, for one document.
pub fn of_arguments<'a>(alloc: Global) -> OfArguments<'a>
    ensures { ⟦<OfArguments<'a> as Fresh>⟧.fresh result }
{
    MultiVisitorNil
        .with_rule(known_argument_names::factory(alloc))
        .with_rule(known_directives::factory(alloc))
        .with_rule(provided_non_null_arguments::factory(alloc))
        .with_rule(unique_argument_names::factory(alloc))
        .with_rule(unique_input_field_names::factory(alloc))
        .with_rule(unique_directive_names::factory(alloc))
}

/// Makes the rules on fragments and on the names of types, for one document.
pub fn of_fragments<'a>(alloc: Global) -> OfFragments<'a>
    ensures { ⟦<OfFragments<'a> as Fresh>⟧.fresh result }
{
    MultiVisitorNil
        .with_rule(fragments_on_composite_types::factory(alloc))
        .with_rule(known_fragment_names::factory(alloc))
        .with_rule(known_type_names::factory(alloc))
        .with_rule(unique_fragment_names::factory(alloc))
}

// Makes the rules on values.
fn of_values(alloc: Global) -> OfValues
    ensures { ⟦<OfValues as Fresh>⟧.fresh result }
{
    MultiVisitorNil
        .with_rule(arguments_of_correct_type::factory(alloc))
        .with_rule(default_values_of_correct_type::factory(alloc))
}

/// Tries every rule of the first stage on a document, in one walk, and appends their errors. Returns what the rule on
/// cycles found of the document's fragments.
///
/// In a context that was made for the document it appends no error if and only if each rule of the list finds nothing.
/// In any other context it only appends errors.
///
/// # Errors
///
/// Out of memory. The context fails from then on.
pub fn visit_stage_one<'a, 't, S: CheckedScalar>(
    ctx: &mut ValidatorContext<'a, S>,
    document: &'a [Definition<'t, S>],
) -> Result<DocumentCycles<'a>, OutOfMemory>
    ensures searched { IfOk result (SearchedDocument document.now) }
    ensures appended { OnOk result (IsMadeFor ctx.old document.now
        → AppendsAllowed (stage_reports ⟦<S as FirstStage<'a>>⟧.stage) document.now ctx.old ctx.new) }
    ensures only { OnOk result (Appended any_value ctx.old ctx.new) }
    ensures err { OnErr result (KeepsPlace ctx.old ctx.new) }
    ensures failed { OnErr result (ctx.new.failed ≡ true) }
    ensures stays { ctx.old.failed ≡ true → IsErr result }
{
    let alloc = ctx.allocator();
    let mut rules = MultiVisitorNil
        .with_rule(of_operations(alloc))
        .with_rule(of_fields(alloc))
        .with_rule(of_arguments(alloc))
        .with_rule(of_fragments(alloc))
        .with_rule(of_values(alloc))
        .with_rule(across::factory(alloc))
        .with_rule(possible_fragment_spreads::factory(alloc));
    visit_settled(&mut rules, ctx, document)?;
    // A run of the list holds a run of the rules across the document.
    pair_runs::<
        S,
        S::Check,
        PossibleFragmentSpreads<'a, S>,
        MultiVisitorCons<AcrossDocument<'a>, Groups<'a>>,
    >();
    pair_runs::<S, S::Check, AcrossDocument<'a>, Groups<'a>>();
    let (_, others) = rules.into_parts();
    let (across, _) = others.into_parts();
    match across.into_found() {
        Some(cycles) => Ok(cycles),
        None => unreachable!(),
    }
}
