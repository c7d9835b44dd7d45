//! No two operations of a document have the same name (GraphQL, October 2021, section 5.2.1.1).

ghost use Rattle.walk.specs.Rule.{always, exactly};
ghost use Rattle.rules_support.specs.Noting.{noting_step, repeated, HasDistinctNames, NothingNoted};
ghost use Rattle.rules_support.specs.NotingLaws.{noting_keeps};
ghost use Rattle.rules_support.specs.RepeatsLaws.{repeated_silent};
ghost use Rattle.rules_support.specs.FirstPlaces.{places_of};
ghost use Rattle.rules_operations.specs.UniqueOperationNames.{operation_name, repeated_operation_message};

use language::error::OutOfMemory;
use meta::check::CheckedScalar;
use rules_support::first_places::FirstPlaces;
use rules_support::repeats::note_name;
use std::alloc::Global;
use walk::{Criterion, Event, Fresh, Machine, Rule, SettledRule, ValidatorContext, Visitor};

/// Reports each operation whose name an earlier operation has: at the start of the first operation of the name, and at
/// its own.
#[derive(Drop)]
pub struct UniqueOperationNames<'a> {
    names: FirstPlaces<'a>,
}

/// Makes the rule, for one document.
pub fn factory<'a>(alloc: Global) -> UniqueOperationNames<'a>
    ensures { NothingNoted (λ a. places_of a.names) result }
{
    UniqueOperationNames {
        names: FirstPlaces::new(alloc),
    }
}

impl<'a> Fresh for UniqueOperationNames<'a> {
    ghost fresh = { NothingNoted (λ a. places_of a.names) };
}

impl<'a, S, C> Machine<S, C> for UniqueOperationNames<'a> {
    ghost step = { noting_step (λ a. places_of a.names) repeated_operation_message operation_name };
}

impl<'a, S, C> Rule<S, C> for UniqueOperationNames<'a> {
    ghost allows = { always (exactly (repeated repeated_operation_message operation_name)) };

    ghost keeps = { noting_keeps repeated_operation_message (λ a. places_of a.names) operation_name };
}

impl<'a, S, C> Criterion<S, C> for UniqueOperationNames<'a> {
    ghost finds_nothing = { HasDistinctNames operation_name };
}

impl<'a, S, C> SettledRule<S, C> for UniqueOperationNames<'a> {
    ghost silent = { repeated_silent repeated_operation_message operation_name };
}

impl<'a, S: CheckedScalar> Visitor<'a, S> for UniqueOperationNames<'a> {
    fn on(
        &mut self,
        ctx: &mut ValidatorContext<'a, S>,
        event: &Event<'a, S>,
    ) -> Result<(), OutOfMemory> {
        match *event {
            Event::EnterDocument(document) => self.names.make_room(document.len())?,
            Event::EnterOperationDefinition(operation) => {
                if let Some(name) = &operation.item.name {
                    let place = operation.span.start;
                    note_name(
                        ctx,
                        &mut self.names,
                        name.item,
                        place,
                        "There can only be one operation named ",
                    )?;
                }
            }
            _ => {}
        }
        Ok(())
    }
}
