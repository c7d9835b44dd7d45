//! The comparison of texts.
use std::process::Abort;

/// The text is the one that is wanted.
pub fn same(rt: &impl Abort, text: &str, want: &str) {
    if text != want {
        rt.panic(text);
    }
}
