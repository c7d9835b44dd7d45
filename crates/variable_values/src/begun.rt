//! The lists and objects around a value that is checked.

use language::position::Spanning;
use language::types::BorrowedType;
use language::value::InputValue;
use meta::inputs::InputObjectMetaOf;
use std::collections::BTreeMap;

/// A list or an object that is begun, and what is left of it.
#[derive(Drop)]
pub enum Begun<'p, 'v, S, C> {
    /// A list: the type of its items, all items, and the index of the first that is left.
    Items(BorrowedType<'p>, &'v [Spanning<InputValue<S>>], usize),
    /// An object, and the index of the first input field that is left.
    Fields(BegunObject<'p, 'v, S, C>, usize),
}

/// An object that is begun.
#[derive(Drop)]
pub struct BegunObject<'p, 'v, S, C> {
    /// Its type.
    pub object: &'p InputObjectMetaOf<S, C>,
    /// The whole value, and its entries.
    pub value: &'v InputValue<S>,
    pub entries: &'v [(Spanning<String>, Spanning<InputValue<S>>)],
    /// The index of the last entry of each key.
    pub places: BTreeMap<&'v str, usize>,
    /// The number of messages before those about the object.
    pub told: usize,
}
