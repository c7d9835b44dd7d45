//! What is made of a document's selection sets.
ghost use Rattle.std.specs.Prelude.{◌≡◌, IfOk};
ghost use Rattle.merge_set_table.specs.Adding.{IsEmptyTable};
ghost use Rattle.merge_set_table.specs.Sizes.{table_size};

use crate::names::no_names;
use crate::responses::ResponseNames;
use merge_field_pairs::entry::Entry;
use merge_sets::node::{Entry as OwnField, InnerSet};
use std::alloc::{AllocError, Global};

/// A set: its own fields, and the numbers of the fragments that it spreads.
///
/// While it is filled, it has the sets of its inline fragments, too. A stored set has none: the table has them.
#[derive(Debug, Drop)]
pub struct NumberedSet {
    pub own: Vec<OwnField>,
    pub spreads: Vec<usize>,
    pub inner: Vec<InnerSet>,
}

/// The fields, the response names and the sets of a document, by number, and the sets in the order of a walk.
///
/// The set of an inline fragment is a part of the set round it and has no number, unless its type is unknown.
#[derive(Drop)]
pub struct Table<'a, S, C> {
    pub fields: Vec<Entry<'a, S, C>>,
    pub responses: ResponseNames<'a>,
    pub sets: Vec<NumberedSet>,
    pub order: Vec<usize>,
    /// The sets of inline fragments, those in one set after those in another, each one's in the order of a walk.
    pub inner: Vec<InnerSet>,
    /// The spreads of the sets that have inner ones, as they are written.
    pub written: Vec<usize>,
}

/// An empty table, with room for `room` sets.
///
/// # Errors
///
/// Out of memory.
pub fn no_table<'a, S, C>(alloc: Global, room: usize) -> Result<Table<'a, S, C>, AllocError>
    ensures empty { IfOk result IsEmptyTable }
    ensures size { IfOk result (λ t. table_size t ≡ 0) }
{
    Ok(Table {
        fields: Vec::new(alloc),
        responses: no_names(alloc),
        sets: Vec::with_capacity(alloc, room)?,
        order: Vec::new(alloc),
        inner: Vec::new(alloc),
        written: Vec::new(alloc),
    })
}
