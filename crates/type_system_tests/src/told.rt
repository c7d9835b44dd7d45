//! Faults in words.
use std::alloc::{AllocError, Global};
use std::process::Abort;
use type_system::Fault;

fn words(alloc: Global, faults: &[Fault<'_>]) -> Result<String, AllocError> {
    let mut text = String::new(alloc);
    for fault in faults {
        let at = fault.coordinate;
        write!(text, "{at}: {fault}\n")?;
    }
    Ok(text)
}

/// Asserts that these are the faults, a line for each.
pub fn tells(rt: &impl Abort, alloc: Global, faults: &[Fault<'_>], want: &str) {
    let said = words(alloc, faults).expect(rt, "memory");
    assert_eq!(rt; said.as_str(), want);
}
