//! Circles that begin at their first node.
ghost use Rattle.std.specs.Prelude.{◌≡◌, ◌<◌, ◌≤◌, ◌++◌, IfOk, Some, length, slice_get, take, drop, ℕ};
ghost use Rattle.type_system_circles.specs.Graph.{BeginsFirst, IsFirst};
ghost use Rattle.type_system_circles.specs.declared.graph.Link.{Link};

use crate::graph::Link;
use language_types::error::OutOfMemory;
use std::alloc::Global;

/// The links of a circle, beginning with the one from its first node.
///
/// # Errors
///
/// Out of memory.
pub(crate) fn from_first(alloc: Global, links: &[Link]) -> Result<Vec<Link>, OutOfMemory>
    requires { 0 < length links.now }
    ensures turned { IfOk result (λ v. (i : ℕ) × (v.items ≡ drop i links.now ++ take i links.now)) }
    ensures first { IfOk result (λ v. BeginsFirst v.items) }
{
    let first = first_index(links);
    let mut turned = Vec::with_capacity(alloc, links.len())?;
    turned.extend_from_slice(&links[first..])?;
    turned.extend_from_slice(&links[..first])?;
    Ok(turned)
}

// The index of a link from the first of the nodes.
fn first_index(links: &[Link]) -> usize
    requires { 0 < length links.now }
    ensures { (l : Link) × (slice_get links.now result ≡ Some l) × IsFirst l links.now }
{
    let mut first = 0;
    for index in 1..links.len() {
        if links[index].from < links[first].from {
            first = index;
        }
    }
    first
}
