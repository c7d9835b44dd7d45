//! Findings by the conflicts whose trees they write out.
ghost use Rattle.std.specs.Prelude.{◌≡◌, ◌<◌, ◌≤◌, IfOk, IfSome, length};
ghost use Rattle.std.specs.List.{All};
ghost use Rattle.merge_sets.specs.declared.node.Entry as numbered;
ghost use Rattle.merge_conflicts.specs.Reports.{Reports, postfix};
ghost use Rattle.merge_conflicts.specs.Parts.{part_of, ArePartsOf, IsLastPart, extent};

use language_types::error::OutOfMemory;
use merge_sets::finding::Finding;
use merge_sets::node::Entry;
use std::alloc::Global;

/// A conflict of two fields, by their numbers.
#[derive(Clone, Copy)]
pub struct Part<'f> {
    pub first: usize,
    pub second: usize,
    pub why: Why<'f>,
}

/// By themselves, under a flag, or by the conflicts of these findings.
#[derive(Clone, Copy)]
pub enum Why<'f> {
    Direct(bool),
    Below(&'f [Finding]),
}

/// The conflicts whose trees the findings write out, in order, without those below them.
///
/// # Errors
///
/// Out of memory.
pub fn parts_of<'f>(alloc: Global, found: &'f [Finding]) -> Result<Vec<Part<'f>>, OutOfMemory>
    ensures parts { (rs : Reports numbered.Entry) → found.now ≡ postfix rs → IfOk result (λ v. ArePartsOf rs v.items) }
    ensures within { IfOk result (λ v. All (λ p. extent p ≤ length found.now) v.items) }
{
    let mut parts = Vec::new(alloc);
    let mut left = found;
    while let Some((rest, part)) = last_part(left) {
        parts.push(part)?;
        left = rest;
    }
    parts.reverse();
    Ok(parts)
}

// The last conflict, and the findings before its own. Where a finding counts more below it than there are, these are
// below it.
fn last_part<'f>(found: &'f [Finding]) -> Option<(&'f [Finding], Part<'f>)>
    ensures last { (rs : Reports numbered.Entry) → found.now ≡ postfix rs → IsLastPart rs result }
    ensures shorter { IfSome result (λ r. length r.0.now < length found.now) }
    ensures within { IfSome result (λ r. extent r.1 ≤ length found.now) }
{
    let Some((finding, before)) = found.split_last() else {
        return None;
    };
    match *finding {
        Finding::Direct(a, b, flag) => Some((before, made_part(a, b, Why::Direct(flag)))),
        Finding::Nested(a, b, count) => {
            let (rest, below) = before.split_at(before.len().saturating_sub(count));
            Some((rest, made_part(a, b, Why::Below(below))))
        }
    }
}

fn made_part(first: Entry, second: Entry, why: Why<'_>) -> Part<'_>
    ensures { result ≡ part_of first second why.entry }
{
    Part {
        first: first.field,
        second: second.field,
        why,
    }
}
