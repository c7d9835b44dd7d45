//! What the reader makes of a type, of a value, and of texts that are neither.
use crate::same::same;
use language::types::TypeModifier;
use sample_reader::{ReadError, read_type, read_value};
use std::alloc::Global;
use std::process::Abort;

/// What stands round `Int`, from the inside.
const MODIFIERS: [TypeModifier; 3] = [
    TypeModifier::List(Some(12)),
    TypeModifier::NonNull,
    TypeModifier::List(Some(0)),
];

#[test]
fn a_list_keeps_the_size_behind_it(rt: HostRuntime) {
    let read = read_type(rt.alloc(), b" [[Int]#12!]#0").expect(&rt, "a type");
    let kept = read.item.modifiers() == MODIFIERS.as_slice();
    assert!(rt; kept && read.span.start.index() == 1);
}

/// Elsewhere `#` begins a comment.
#[test]
fn a_size_stands_directly_behind_a_list(rt: HostRuntime) {
    let read = read_type(rt.alloc(), b"# ]#1\n[Int] #2!\n!").expect(&rt, "a type");
    let want = [TypeModifier::List(None), TypeModifier::NonNull];
    assert!(rt; read.item.modifiers() == want.as_slice());
}

/// The fault is there.
fn is_at(rt: &impl Abort, refused: Option<ReadError>, index: usize) {
    let told = match refused {
        Some(ReadError::Fault(place)) => place.index() == index,
        _ => false,
    };
    assert!(rt; told);
}

/// A type must be the whole text, and a value of a variable must not hold a variable.
#[test]
fn a_fault_is_told_where_it_is(rt: HostRuntime) {
    is_at(&rt, read_type(rt.alloc(), b"[Int] !!").err(), 7);
    is_at(&rt, read_value(rt.alloc(), b"{a: $b}").err(), 4);
}

/// A value as it prints, and where it ends.
fn printed(alloc: Global, text: &[u8]) -> String {
    let mut out = String::new(alloc);
    if let Ok(read) = read_value(alloc, text) {
        let _ = write!(out, "{} {}", read.item, read.span.end.index());
    }
    out
}

#[test]
fn a_value_prints_as_it_was_read(rt: HostRuntime) {
    let text = printed(rt.alloc(), b"{a: [1 null], b: {c: X}}");
    same(&rt, text.as_str(), "{a: [1, null], b: {c: X}} 24");
}
