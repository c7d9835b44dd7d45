//! The fragments that were met, each by its name and where its definition stands.

ghost use Rattle.std.specs.Prelude.{◌≡◌, ◌↔◌, ◌⊎◌, Some, None, false, length, IfOk, IsTrue, OnOk};
ghost use Rattle.std.specs.List.{All};
ghost use Rattle.fragment_graph.specs.Numbers.{number_of, WellNumbered};
ghost use Rattle.rules_document.specs.MetFragments.{name_and_span, IsMet, IsOther, IsKeptFor, NameAndSpan};

use fragment_graph::numbers::{Numbers, name_count};
use language::error::OutOfMemory;
use language::position::{SourcePosition, Span, Spanning};
use language::tree::Fragment;
use std::alloc::{AllocError, Global};
use std::collections::BTreeSet;

/// The fragments that were met: the first of each name by the name's number, and any others of it.
///
/// A hostile document may repeat a name many times, so the others are an ordered set.
#[derive(Drop)]
pub struct MetFragments<'a> {
    pub firsts: Vec<Option<Span>>,
    pub others: BTreeSet<(&'a str, SourcePosition, SourcePosition)>,
}

// Nothing at each of so many numbers.
fn no_firsts(alloc: Global, count: usize) -> Result<Vec<Option<Span>>, AllocError>
    ensures len { IfOk result (λ v. length v.items ≡ count) }
    ensures none { IfOk result (λ v. All (λ o. o ≡ None) v.items) }
{
    vec![in alloc; None; count]
}

/// No fragments, with room for the first of each of these names.
///
/// # Errors
///
/// Out of memory.
pub fn none_met<'a>(alloc: Global, numbers: &Numbers<'_>) -> Result<MetFragments<'a>, AllocError>
    ensures none { IfOk result (λ met. (p : NameAndSpan) → IsMet numbers.now met p → ⊥) }
    ensures kept { IfOk result (IsKeptFor numbers.now) }
{
    let firsts = no_firsts(alloc, name_count(numbers))?;
    Ok(MetFragments {
        firsts,
        others: BTreeSet::new(alloc),
    })
}

// Notes that a fragment was met that isn't the first of its name, and returns whether it is the first of its name and
// span.
fn meet_other<'a, S>(
    others: &mut BTreeSet<(&'a str, SourcePosition, SourcePosition)>,
    fragment: &Spanning<Fragment<'a, S>>,
) -> Result<bool, OutOfMemory>
    ensures first { IfOk result (λ first. IsTrue first ↔ (IsOther others.old (name_and_span fragment.now) → ⊥)) }
    ensures met { OnOk result ((q : NameAndSpan) → IsOther others.new q
        ↔ (IsOther others.old q ⊎ (name_and_span fragment.now ≡ q))) }
{
    let Spanning { item, span } = fragment;
    let first = others.insert((item.name.item, span.start, span.end))?;
    Ok(first)
}

/// Notes that a fragment was met, by the number of its name, and returns whether it is the first of its name and span.
///
/// # Errors
///
/// Out of memory. Which fragments were met is not known then.
pub fn meet<'a, S>(
    met: &mut MetFragments<'a>,
    numbers: &Numbers<'_>,
    fragment: &Spanning<Fragment<'a, S>>,
    number: usize,
) -> Result<bool, OutOfMemory>
    requires numbered { WellNumbered numbers.now }
    requires number { number_of numbers.now fragment.now.item.name.item.now ≡ Some number }
    requires kept { IsKeptFor numbers.now met.old }
    ensures first { IfOk result (λ first. IsTrue first → IsMet numbers.now met.old (name_and_span fragment.now) → ⊥) }
    ensures known { IfOk result (λ first. first ≡ false → IsMet numbers.now met.old (name_and_span fragment.now)) }
    ensures met { OnOk result ((q : NameAndSpan) → IsMet numbers.now met.new q
        ↔ (IsMet numbers.now met.old q ⊎ (name_and_span fragment.now ≡ q))) }
    ensures kept { OnOk result (IsKeptFor numbers.now met.new) }
{
    match met.firsts[number] {
        None => {
            met.firsts[number] = Some(fragment.span);
            Ok(true)
        }
        Some(first) => {
            if first == fragment.span {
                return Ok(false);
            }
            meet_other(&mut met.others, fragment)
        }
    }
}
