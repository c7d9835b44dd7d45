//! No two fragments of a document have the same name (GraphQL, October 2021, section 5.5.1.1).

ghost use Rattle.walk.specs.Rule.{always, exactly};
ghost use Rattle.rules_support.specs.Noting.{noting_step, repeated, HasDistinctNames, NothingNoted};
ghost use Rattle.rules_support.specs.NotingLaws.{noting_keeps};
ghost use Rattle.rules_support.specs.RepeatsLaws.{repeated_silent};
ghost use Rattle.rules_support.specs.FirstPlaces.{places_of};
ghost use Rattle.rules_fragments.specs.UniqueFragmentNames.{fragment_name, repeated_fragment_message};

use language::error::OutOfMemory;
use meta::check::CheckedScalar;
use rules_support::first_places::FirstPlaces;
use rules_support::repeats::note_name;
use std::alloc::Global;
use walk::{Criterion, Event, Fresh, Machine, Rule, SettledRule, ValidatorContext, Visitor};

/// Reports each fragment whose name an earlier fragment has: at the first fragment's name, and at its own.
#[derive(Drop)]
pub struct UniqueFragmentNames<'a> {
    names: FirstPlaces<'a>,
}

/// Makes the rule, for one document.
pub fn factory<'a>(alloc: Global) -> UniqueFragmentNames<'a>
    ensures { NothingNoted (λ a. places_of a.names) result }
{
    UniqueFragmentNames {
        names: FirstPlaces::new(alloc),
    }
}

impl<'a> Fresh for UniqueFragmentNames<'a> {
    ghost fresh = { NothingNoted (λ a. places_of a.names) };
}

impl<'a, S, C> Machine<S, C> for UniqueFragmentNames<'a> {
    ghost step = { noting_step (λ a. places_of a.names) repeated_fragment_message fragment_name };
}

impl<'a, S, C> Rule<S, C> for UniqueFragmentNames<'a> {
    ghost allows = { always (exactly (repeated repeated_fragment_message fragment_name)) };

    ghost keeps = { noting_keeps repeated_fragment_message (λ a. places_of a.names) fragment_name };
}

impl<'a, S, C> Criterion<S, C> for UniqueFragmentNames<'a> {
    ghost finds_nothing = { HasDistinctNames fragment_name };
}

impl<'a, S, C> SettledRule<S, C> for UniqueFragmentNames<'a> {
    ghost silent = { repeated_silent repeated_fragment_message fragment_name };
}

impl<'a, S: CheckedScalar> Visitor<'a, S> for UniqueFragmentNames<'a> {
    fn on(
        &mut self,
        ctx: &mut ValidatorContext<'a, S>,
        event: &Event<'a, S>,
    ) -> Result<(), OutOfMemory> {
        match *event {
            Event::EnterDocument(document) => self.names.make_room(document.len())?,
            Event::EnterFragmentDefinition(fragment) => {
                let name = &fragment.item.name;
                let place = name.span.start;
                note_name(
                    ctx,
                    &mut self.names,
                    name.item,
                    place,
                    "There can only be one fragment named ",
                )?;
            }
            _ => {}
        }
        Ok(())
    }
}
