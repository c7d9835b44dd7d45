//! What a caller wants of a value.

/// Whether a value may be or hold a variable.
#[derive(Clone, Copy, Debug, PartialEq, Eq)]
pub enum Variables {
    /// As in a document (section 2.10).
    Allowed,
    /// A constant.
    Refused,
}

// The rules by which a value is read.
#[derive(Clone, Copy)]
pub(crate) struct Rules {
    pub variables: Variables,
    // How deep lists and objects may nest.
    pub max_depth: Option<usize>,
}
