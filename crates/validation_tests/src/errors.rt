//! Errors, as they print and as they are ordered.

use language::error::OutOfMemory;
use language::position::SourcePosition;
use std::alloc::Global;
use std::process::Abort;
use walk::RuleError;

/// What the error of these places prints is the text.
fn says(rt: &impl Abort, alloc: Global, places: &[SourcePosition], want: &str) {
    let error = RuleError::new(alloc, "Unknown fragment: \"A\"", places).expect(rt, "memory");
    assert_eq!(rt; error.locations().len(), places.len());
    let said = error.to_string(alloc).expect(rt, "memory");
    assert_eq!(rt; said.as_str(), want);
}

#[test]
fn prints_its_places(rt: HostRuntime) {
    let alloc = rt.alloc();
    let two = [
        SourcePosition::new(11, 0, 11),
        SourcePosition::new(30, 2, 3),
    ];
    says(&rt, alloc, &two, "Unknown fragment: \"A\". At 0:11, 2:3");
    let far = [SourcePosition::new(1_234_567, 1000, 12_345)];
    says(&rt, alloc, &far, "Unknown fragment: \"A\". At 1000:12345");
    says(&rt, alloc, &[], "Unknown fragment: \"A\". At ");
}

/// The message, at a place of the first line.
fn at(alloc: Global, message: &str, column: usize) -> Result<RuleError, OutOfMemory> {
    RuleError::new(alloc, message, &[SourcePosition::new(column, 0, column)])
}

/// The message, at two places.
fn at_both(alloc: Global, message: &str) -> Result<RuleError, OutOfMemory> {
    let places = [SourcePosition::new(3, 0, 3), SourcePosition::new(7, 0, 7)];
    RuleError::new(alloc, message, &places)
}

#[test]
fn is_ordered_by_places_and_then_by_message(rt: HostRuntime) {
    let alloc = rt.alloc();
    let short = at(alloc, "z", 3).expect(&rt, "memory");
    let long = at_both(alloc, "a").expect(&rt, "memory");
    assert!(rt; short < long, "a beginning stands before a longer list");
    let other = at(alloc, "a", 7).expect(&rt, "memory");
    assert!(rt; long < other, "places are compared one by one");
    let same_place = at(alloc, "y", 3).expect(&rt, "memory");
    assert!(rt; same_place < short, "then the messages");
}

#[test]
fn copies_are_equal(rt: HostRuntime) {
    let error = at(rt.alloc(), "z", 3).expect(&rt, "memory");
    assert_eq!(rt; error.message(), "z");
    assert!(rt; error == error.clone().expect(&rt, "memory"));
}
