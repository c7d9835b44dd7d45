//! Each variable is used only where its type is allowed (GraphQL, October 2021, section 5.8.5).

ghost use Rattle.std.specs.Prelude.{◌≡◌, [], IfOk, OnErr, OnOk, option_map};
ghost use Rattle.language_types.specs.Types.{borrowed_shape};
ghost use Rattle.walk.specs.Rule.{always, Appended};
ghost use Rattle.walk.specs.Step.{KeepsPlace};
ghost use Rattle.operation_scopes.specs.Index.{IsIndexOf};
ghost use Rattle.rules_positions.specs.VariablesInAllowedPositionLaws.{positions_keep, positions_silent};
ghost use Rattle.rules_positions.specs.AllowedPositions.{AllAllowed};
ghost use Rattle.rules_positions.specs.Recording.{recording_step};
ghost use Rattle.rules_positions.specs.RecordedUses.{with_uses};
ghost use Rattle.rules_positions.specs.TypedUses.{next_uses, use_expected, use_values};
ghost use Rattle.rules_positions.specs.VariablesInAllowedPosition.{given_by_uses, misplaced_variables, recorded_uses};
ghost use Rattle.rules_positions.specs.VariablesInAllowedPosition.{DocumentGives};

use crate::judged_uses::report_document;
use crate::judging::BySubtype;
use crate::recorded_uses::{add_use, begin_definition};
use crate::typed_uses::TypedUse;
use language::error::OutOfMemory;
use language::position::SourcePosition;
use language::tree::Definition;
use language::types::BorrowedType;
use meta::check::CheckedScalar;
use operation_scopes::index::{ScopeIndex, index_scopes};
pub use operation_scopes::scope::Scope;
use std::alloc::Global;
use walk::{Criterion, Event, Fresh, Machine, Rule, SettledRule, ValidatorContext, Visitor};

/// Reports, where the document ends, each use of a variable whose type is not a subtype of the expected one: at the
/// name of the variable's first definition, and at the use. The uses are recorded during the walk.
#[derive(Drop)]
pub struct VariableInAllowedPosition<'a> {
    alloc: Global,
    uses: Vec<Vec<TypedUse<'a>>>,
}

/// Makes the rule, for one document.
pub fn factory<'a>(alloc: Global) -> VariableInAllowedPosition<'a>
    ensures { ⟦<VariableInAllowedPosition<'a> as Fresh>⟧.fresh result }
{
    VariableInAllowedPosition {
        alloc,
        uses: Vec::new(alloc),
    }
}

impl<'a> VariableInAllowedPosition<'a> {
    /// Reports the misplaced variables of a document, by the document's index and the uses that were recorded.
    ///
    /// # Errors
    ///
    /// Out of memory. The types at hand stay; some of the errors may be reported then.
    pub fn leave<S: CheckedScalar>(
        &self,
        ctx: &mut ValidatorContext<'a, S>,
        document: &'a [Definition<'a, S>],
        index: &ScopeIndex<'_>,
    ) -> Result<(), OutOfMemory>
        requires { IsIndexOf document.now index.now }
        ensures ok { IfOk result (λ _. Appended
            (DocumentGives ctx.old.schema.types document.now (recorded_uses self.now)) ctx.old ctx.new) }
        ensures err { OnErr result (KeepsPlace ctx.old ctx.new) }
    {
        let uses = self.uses.as_slice();
        report_document::<S, TypedUse<'a>, BySubtype>(self.alloc, ctx, document, index, uses)
    }
}

impl<'a> Fresh for VariableInAllowedPosition<'a> {
    ghost fresh = { λ a. recorded_uses a ≡ [] };
}

impl<'a, S, C> Machine<S, C> for VariableInAllowedPosition<'a> {
    ghost step = { recording_step recorded_uses next_uses given_by_uses };
}

impl<'a, S, C> Rule<S, C> for VariableInAllowedPosition<'a> {
    ghost allows = { always misplaced_variables };

    ghost keeps = { positions_keep };
}

impl<'a, S, C> Criterion<S, C> for VariableInAllowedPosition<'a> {
    ghost finds_nothing = { AllAllowed };
}

impl<'a, S, C> SettledRule<S, C> for VariableInAllowedPosition<'a> {
    ghost silent = { positions_silent };
}

impl<'a, S: CheckedScalar> Visitor<'a, S> for VariableInAllowedPosition<'a> {
    fn on(
        &mut self,
        ctx: &mut ValidatorContext<'a, S>,
        event: &Event<'a, S>,
    ) -> Result<(), OutOfMemory> {
        match *event {
            Event::EnterOperationDefinition(_) => begin_definition(self.alloc, &mut self.uses),
            Event::EnterFragmentDefinition(_) => begin_definition(self.alloc, &mut self.uses),
            Event::EnterVariableValue(ref value) => {
                let expected = ctx.current_input_type_literal();
                add_value(
                    &mut self.uses,
                    expected,
                    value.item.as_str(),
                    value.span.start,
                )
            }
            Event::ExitDocument(document) => {
                let names = ctx.numbered_names(document)?;
                let index = index_scopes(self.alloc, document, names)?;
                self.leave(ctx, document, &index)
            }
            _ => Ok(()),
        }
    }
}

// Records the use of a variable where a type is expected.
fn add_value<'a>(
    uses: &mut Vec<Vec<TypedUse<'a>>>,
    expected: Option<BorrowedType<'a>>,
    variable: &'a str,
    place: SourcePosition,
) -> Result<(), OutOfMemory>
    ensures { OnOk result (use_values uses.new.items
        ≡ with_uses (use_expected variable.now place (option_map borrowed_shape expected.entry))
        (use_values uses.old.items)) }
{
    match expected {
        Some(expected) => add_use(
            uses,
            TypedUse {
                variable,
                place,
                expected,
            },
        ),
        None => Ok(()),
    }
}
