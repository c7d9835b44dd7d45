//! Which streams show colours.

/// Which streams show colours.
#[derive(Clone, Copy, Debug)]
pub struct Colours {
    /// The output.
    pub output: bool,
    /// The errors.
    pub errors: bool,
}
