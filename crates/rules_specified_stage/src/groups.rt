//! The rules of the first stage in groups, the newest first. Where no rule differs from juniper's, a group is that of
//! `rules_first_stage`.

use crate::arguments;
use crate::arguments::ArgumentRules;
use rules_document::no_undefined_variables::NoUndefinedVariables;
use rules_document::no_unused_fragments::NoUnusedFragments;
use rules_document::no_unused_variables::NoUnusedVariables;
use rules_document::{no_undefined_variables, no_unused_fragments, no_unused_variables};
use rules_fields::scalar_leafs;
use rules_fields::scalar_leafs::ScalarLeafs;
use rules_first_stage::rules::{OfFragments, OfOperations, of_fragments, of_operations};
use rules_specified::single_root_field;
use rules_specified::single_root_field::SingleRootField;
use rules_specified_fields::fields_on_correct_type::FieldsOnCorrectType;
use rules_specified_fields::typename_leafs::TypenameLeafs;
use rules_specified_fields::{fields_on_correct_type, typename_leafs};
use rules_specified_positions::variables_in_allowed_position;
use rules_specified_positions::variables_in_allowed_position::VariableInAllowedPosition;
use rules_specified_values::default_values_of_correct_type;
use rules_specified_values::default_values_of_correct_type::DefaultValuesOfCorrectType;
use rules_values::arguments_of_correct_type;
use rules_values::arguments_of_correct_type::ArgumentsOfCorrectType;
use std::alloc::Global;
use walk::{Fresh, MultiVisitorCons, MultiVisitorNil};

// The rules on fields (GraphQL, October 2021, section 5.3).
type OfFields = MultiVisitorCons<
    TypenameLeafs,
    MultiVisitorCons<ScalarLeafs, MultiVisitorCons<FieldsOnCorrectType, MultiVisitorNil>>,
>;

// The rules on values (5.6.1).
type OfValues = MultiVisitorCons<
    DefaultValuesOfCorrectType,
    MultiVisitorCons<ArgumentsOfCorrectType, MultiVisitorNil>,
>;

// The rules that look across the document, but for that on cycles (5.2.3.1, 5.5.1.4 and 5.8.3 to 5.8.5).
type OfDocument<'a> = MultiVisitorCons<
    VariableInAllowedPosition<'a>,
    MultiVisitorCons<
        NoUnusedVariables<'a>,
        MultiVisitorCons<
            NoUnusedFragments,
            MultiVisitorCons<
                NoUndefinedVariables<'a>,
                MultiVisitorCons<SingleRootField, MultiVisitorNil>,
            >,
        >,
    >,
>;

/// The rules in groups.
pub type Groups<'a> = MultiVisitorCons<
    OfDocument<'a>,
    MultiVisitorCons<
        OfValues,
        MultiVisitorCons<
            OfFragments<'a>,
            MultiVisitorCons<
                ArgumentRules<'a>,
                MultiVisitorCons<OfFields, MultiVisitorCons<OfOperations<'a>, MultiVisitorNil>>,
            >,
        >,
    >,
>;

// Makes the rules on fields.
fn of_fields(alloc: Global) -> OfFields
    ensures { ⟦<OfFields as Fresh>⟧.fresh result }
{
    MultiVisitorNil
        .with_rule(fields_on_correct_type::factory(alloc))
        .with_rule(scalar_leafs::factory(alloc))
        .with_rule(typename_leafs::factory())
}

// Makes the rules on values.
fn of_values(alloc: Global) -> OfValues
    ensures { ⟦<OfValues as Fresh>⟧.fresh result }
{
    MultiVisitorNil
        .with_rule(arguments_of_correct_type::factory(alloc))
        .with_rule(default_values_of_correct_type::factory(alloc))
}

// Makes the rules that look across the document.
fn of_document<'a>(alloc: Global) -> OfDocument<'a>
    ensures { ⟦<OfDocument<'a> as Fresh>⟧.fresh result }
{
    MultiVisitorNil
        .with_rule(single_root_field::factory(alloc))
        .with_rule(no_undefined_variables::factory(alloc))
        .with_rule(no_unused_fragments::factory(alloc))
        .with_rule(no_unused_variables::factory(alloc))
        .with_rule(variables_in_allowed_position::factory(alloc))
}

/// Makes all rules but the last two, for one document.
pub fn groups<'a>(alloc: Global) -> Groups<'a>
    ensures { ⟦<Groups<'a> as Fresh>⟧.fresh result }
{
    MultiVisitorNil
        .with_rule(of_operations(alloc))
        .with_rule(of_fields(alloc))
        .with_rule(arguments::factory(alloc))
        .with_rule(of_fragments(alloc))
        .with_rule(of_values(alloc))
        .with_rule(of_document(alloc))
}
