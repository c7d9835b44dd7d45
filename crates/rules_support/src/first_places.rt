//! The places where names were seen first.

ghost use Rattle.std.specs.Prelude.{◌≡◌, ◌≤◌, ◌*◌, IfOk, OnOk, min};
ghost use Rattle.rules_support.specs.FirstPlaces.{places_of, slots_for, HasNone};
ghost use Rattle.rules_support.specs.Noting.{noted, nothing_noted};

use language_types::error::OutOfMemory;
use language_types::position::SourcePosition;
use name_tables::map::NameMap;
use std::alloc::Global;

/// For each name that was noted, the place where it was noted first.
#[derive(Drop)]
pub struct FirstPlaces<'a> {
    alloc: Global,
    places: NameMap<'a, SourcePosition>,
}

impl<'a> FirstPlaces<'a> {
    /// No names.
    pub fn new(alloc: Global) -> FirstPlaces<'a>
        ensures places { places_of result ≡ nothing_noted }
        ensures none { HasNone result }
    {
        FirstPlaces {
            alloc,
            places: NameMap::new(alloc),
        }
    }

    /// Reserves slots for this many names, if none was noted yet: two for each, up to a million in all.
    ///
    /// # Errors
    ///
    /// Out of memory. What was noted stays.
    pub fn make_room(&mut self, names: usize) -> Result<(), OutOfMemory>
        ensures kept { places_of self.new ≡ places_of self.old }
        ensures room { OnOk result (HasNone self.old → 2 * min names 524288 ≤ slots_for self.new) }
    {
        if self.places.len() == 0 {
            self.places = NameMap::with_slots(self.alloc, names)?;
        }
        Ok(())
    }

    /// Notes a name at a place, and returns the place where it was noted first, if it was noted before.
    ///
    /// # Errors
    ///
    /// Out of memory. Which names are noted is not known then.
    pub fn note(
        &mut self,
        name: &'a str,
        place: SourcePosition,
    ) -> Result<Option<SourcePosition>, OutOfMemory>
        ensures first { IfOk result (λ first. first ≡ places_of self.old name.now) }
        ensures kept { OnOk result (places_of self.new ≡ noted (places_of self.old) (name.now, place)) }
    {
        let first = self.places.note(name, place)?;
        Ok(first)
    }
}
