//! Each variable is used only where its type is allowed (GraphQL, October 2021, section 5.8.5).

ghost use Rattle.std.specs.Prelude.{◌≡◌, [], OnOk};
ghost use Rattle.events.specs.SchemaView.{directive_arguments, field_arguments};
ghost use Rattle.walk.specs.ContextState.{typing};
ghost use Rattle.walk.specs.Rule.{always};
ghost use Rattle.rules_positions.specs.Recording.{recording_step};
ghost use Rattle.rules_positions.specs.RecordedUses.{with_uses};
ghost use Rattle.rules_specified_positions.specs.PlacedUses.{arguments_uses, next_uses};
ghost use Rattle.rules_specified_uses.specs.ValueUses.{use_values};
ghost use Rattle.rules_specified_positions.specs.VariablesInAllowedPosition.{given_by_uses, misplaced_variables};
ghost use Rattle.rules_specified_positions.specs.VariablesInAllowedPosition.{recorded_uses, AllAllowed};
ghost use Rattle.rules_specified_positions.specs.VariablesInAllowedPositionLaws.{positions_keep, positions_silent};

use crate::judging::ByDefaults;
use crate::placed_uses::add_arguments;
use events::{arguments_of_directive, arguments_of_field};
use language::error::OutOfMemory;
use language::position::Spanning;
use language::tree::{Directive, Field};
use meta::check::CheckedScalar;
use operation_scopes::index::index_scopes;
use rules_positions::judged_uses::report_document;
use rules_positions::recorded_uses::begin_definition;
use rules_specified_uses::value_uses::{PlacedUse, Uses};
use std::alloc::Global;
use walk::{Criterion, Event, Fresh, Machine, Rule, SettledRule, ValidatorContext, Visitor};

/// Reports, where the document ends, each use of a variable whose type does not fit the place where it is used: at the
/// name of the variable's first definition, and at the use. A default value of the variable that is not `null`, and any
/// default value of the place, stand for `null`. The uses are recorded during the walk.
///
/// An object where a list is expected stands for a list of it alone, so its fields have the types of the list's input
/// object.
#[derive(Drop)]
pub struct VariableInAllowedPosition<'a> {
    alloc: Global,
    uses: Uses<'a>,
}

/// Makes the rule, for one document.
pub fn factory<'a>(alloc: Global) -> VariableInAllowedPosition<'a>
    ensures { ⟦<VariableInAllowedPosition<'a> as Fresh>⟧.fresh result }
{
    VariableInAllowedPosition {
        alloc,
        uses: Vec::new(alloc),
    }
}

impl<'a> Fresh for VariableInAllowedPosition<'a> {
    ghost fresh = { λ a. recorded_uses a ≡ [] };
}

impl<'a, S, C> Machine<S, C> for VariableInAllowedPosition<'a> {
    ghost step = { recording_step recorded_uses next_uses given_by_uses };
}

impl<'a, S, C> Rule<S, C> for VariableInAllowedPosition<'a> {
    ghost allows = { always misplaced_variables };

    ghost keeps = { positions_keep };
}

impl<'a, S, C> Criterion<S, C> for VariableInAllowedPosition<'a> {
    ghost finds_nothing = { AllAllowed };
}

impl<'a, S, C> SettledRule<S, C> for VariableInAllowedPosition<'a> {
    ghost silent = { positions_silent };
}

impl<'a, S: CheckedScalar> Visitor<'a, S> for VariableInAllowedPosition<'a> {
    fn on(
        &mut self,
        ctx: &mut ValidatorContext<'a, S>,
        event: &Event<'a, S>,
    ) -> Result<(), OutOfMemory> {
        match *event {
            Event::EnterOperationDefinition(_) => begin_definition(self.alloc, &mut self.uses),
            Event::EnterFragmentDefinition(_) => begin_definition(self.alloc, &mut self.uses),
            Event::EnterField(field) => add_field(self.alloc, ctx, field, &mut self.uses),
            Event::EnterDirective(directive) => {
                add_directive(self.alloc, ctx, directive, &mut self.uses)
            }
            Event::ExitDocument(document) => {
                let names = ctx.numbered_names(document)?;
                let index = index_scopes(self.alloc, document, names)?;
                let uses = self.uses.as_slice();
                report_document::<S, PlacedUse<'a>, ByDefaults>(
                    self.alloc, ctx, document, &index, uses,
                )
            }
            _ => Ok(()),
        }
    }
}

// Records the uses in the arguments of a field.
fn add_field<'a, S: CheckedScalar>(
    alloc: Global,
    ctx: &ValidatorContext<'a, S>,
    field: &'a Spanning<Field<'a, S>>,
    uses: &mut Uses<'a>,
) -> Result<(), OutOfMemory>
    ensures { OnOk result (use_values uses.new.items ≡ with_uses (arguments_uses ctx.now.schema
        (field_arguments (typing ctx.now).parent field.now.item.name.item.now) field.now.item.arguments)
        (use_values uses.old.items)) }
{
    let known = arguments_of_field(ctx.parent_type(), field.item.name.item);
    add_arguments(alloc, ctx.schema, known, &field.item.arguments, uses)
}

// Records the uses in the arguments of a directive.
fn add_directive<'a, S: CheckedScalar>(
    alloc: Global,
    ctx: &ValidatorContext<'a, S>,
    directive: &'a Spanning<Directive<'a, S>>,
    uses: &mut Uses<'a>,
) -> Result<(), OutOfMemory>
    ensures { OnOk result (use_values uses.new.items ≡ with_uses (arguments_uses ctx.now.schema
        (directive_arguments ctx.now.schema directive.now.item.name.item.now) directive.now.item.arguments)
        (use_values uses.old.items)) }
{
    let known = arguments_of_directive(ctx.schema, directive.item.name.item);
    add_arguments(alloc, ctx.schema, known, &directive.item.arguments, uses)
}
