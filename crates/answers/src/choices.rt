//! What callers choose.

/// What a caller chooses for a document.
#[derive(Clone, Copy, Debug)]
pub struct Choices {
    /// Whether fields that ask for the schema are errors.
    pub is_closed: bool,
    /// How many errors of a document are reported at most, or 0 for all. One with a long message counts as several: one,
    /// and one more for each 4,096 bytes of its message. Faults of values are reported whole.
    pub max_errors: usize,
}
