//! The numbered names of the fragments of a document.
pub use crate::names::{name, name_count, number, number_names};
use name_tables::map::NameMap;
use std::rc::Rc;

/// Names with their numbers, from 0 in the order in which the names come first. Copies share one map.
#[derive(Drop)]
pub struct Numbers<'a> {
    pub(crate) map: Rc<NameMap<'a, ()>>,
}

/// The numbered names of the fragments of a document, and the number of each of its definitions.
#[derive(Drop)]
pub struct NumberedNames<'a> {
    pub numbers: Numbers<'a>,
    /// For each definition of the document, in order, the number of its name; `None` for an operation.
    pub defined: Vec<Option<usize>>,
}
