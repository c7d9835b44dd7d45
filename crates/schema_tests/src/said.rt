//! Texts in assertions.
use std::alloc::{AllocError, Global};
use std::process::Abort;

/// Asserts that the text is this one.
pub fn says(rt: &impl Abort, said: Result<String, AllocError>, want: &str) {
    let said = said.expect(rt, "memory");
    assert_eq!(rt; said.as_str(), want);
}

/// An owned copy of the text.
pub fn words(alloc: Global, text: &str) -> Result<String, AllocError> {
    String::from_str(alloc, text)
}

/// An owned copy of the question, and a colon, behind which the answer goes.
pub fn said(rt: &impl Abort, alloc: Global, question: &str) -> String {
    let mut said = words(alloc, question).expect(rt, "memory");
    said.push_str(":").expect(rt, "memory");
    said
}
