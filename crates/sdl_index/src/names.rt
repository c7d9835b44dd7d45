//! Lists of unique names.
use crate::error::{Defined, PlacedFault, SchemaFault};
use language::error::OutOfMemory;
use language::position::Spanning;
use name_tables::map::NameMap;
use std::alloc::Global;

/// A list of unique names.
#[derive(Drop)]
pub struct Names<'a> {
    defined: Defined,
    names: NameMap<'a, ()>,
}

impl<'a> Names<'a> {
    /// An empty list of names of this kind.
    pub fn new(alloc: Global, defined: Defined) -> Names<'a> {
        Names {
            defined,
            names: NameMap::new(alloc),
        }
    }

    /// Adds a name, and returns whether it is new. That the list has it already is a fault.
    ///
    /// # Errors
    ///
    /// Out of memory.
    pub fn add(
        &mut self,
        name: &Spanning<&'a str>,
        faults: &mut Vec<PlacedFault<'a>>,
    ) -> Result<bool, OutOfMemory> {
        if self.names.insert(name.item, ())?.is_none() {
            return Ok(true);
        }
        faults.push(PlacedFault {
            position: name.span.start,
            fault: SchemaFault::Repeated(self.defined, name.item),
        })?;
        Ok(false)
    }
}
