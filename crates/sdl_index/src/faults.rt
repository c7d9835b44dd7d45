//! All faults of the definitions of a document.
use crate::error::PlacedFault;
use crate::extensions::add_extension_faults;
use crate::kinds::KnownTypes;
use crate::parts::Parts;
use crate::references::add_reference_faults;
use crate::repeats::add_repeats;
use crate::roots::{Roots, add_root_faults, roots_of};
use language::error::OutOfMemory;
use std::alloc::Global;

/// The root types of a document, and the faults of its definitions in the order of the text.
///
/// Of several definitions of one name the first counts, so no fault follows from another: each is to be mended.
///
/// # Errors
///
/// Out of memory.
pub fn roots_and_faults<'a>(
    alloc: Global,
    parts: &Parts<'_, 'a>,
) -> Result<(Roots<'a>, Vec<PlacedFault<'a>>), OutOfMemory> {
    let known = KnownTypes::of_parts(alloc, parts)?;
    let mut faults = Vec::new(alloc);
    let roots = roots_of(parts, &mut faults)?;
    add_root_faults(alloc, &known, &roots, &mut faults)?;
    add_repeats(alloc, parts, &mut faults)?;
    add_extension_faults(&known, parts.extensions.as_slice(), &mut faults)?;
    add_reference_faults(alloc, &known, parts, &mut faults)?;
    faults.sort_by_key(|placed| placed.position.index())?;
    Ok((roots, faults))
}
