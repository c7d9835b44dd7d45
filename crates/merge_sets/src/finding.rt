//! What a search finds.

use crate::node::Entry;

/// What was found, in postfix order: a nested conflict stands after those below it, with their number.
///
/// A direct one has the flag under which its two fields conflict.
#[derive(Clone, Copy, Debug)]
pub enum Finding {
    Direct(Entry, Entry, bool),
    Nested(Entry, Entry, usize),
}
