//! Lists whose entries have names, of which no two should be the same.

ghost use Rattle.std.specs.Prelude.{◌≡◌, ◌++◌, OnOk, OnErr, map};
ghost use Rattle.walk.specs.ContextState.{with_errors};
ghost use Rattle.walk.specs.Step.{KeepsPlace};
ghost use Rattle.rules_support.specs.Names.{Named, key_name, text_name};
ghost use Rattle.rules_support.specs.Repeats.{repeat_at, repeats};
ghost use Rattle.rules_support.specs.Noting.{noted};
ghost use Rattle.rules_support.specs.FirstPlaces.{places_of};

use crate::first_places::FirstPlaces;
use crate::texts::between;
use language_types::error::OutOfMemory;
use language_types::position::{SourcePosition, Spanning};
use meta::check::CheckedScalar;
use std::alloc::Global;
use walk::ValidatorContext;

/// An entry of a list, which has a name at a place.
pub trait HasName {
    ghost named: { Self → Named };

    fn name(&self) -> &str
        ensures { result.now ≡ (named self.now).0 };

    fn place(&self) -> SourcePosition
        ensures { result ≡ (named self.now).1 };
}

impl<'t, T> HasName for (Spanning<&'t str>, T) {
    ghost named = { text_name };

    fn name(&self) -> &str {
        self.0.item
    }

    fn place(&self) -> SourcePosition {
        self.0.span.start
    }
}

impl<T> HasName for (Spanning<String>, T) {
    ghost named = { key_name };

    fn name(&self) -> &str {
        self.0.item.as_str()
    }

    fn place(&self) -> SourcePosition {
        self.0.span.start
    }
}

/// Reports each entry whose name an earlier one has, by the name between these words: at the first of the name and at
/// its own.
///
/// # Errors
///
/// Out of memory. The types at hand stay; some of the errors may be reported then.
pub fn report_repeats<'a, S: CheckedScalar, N: HasName>(
    alloc: Global,
    ctx: &mut ValidatorContext<'a, S>,
    entries: &Vec<N>,
    before: &str,
    after: &str,
) -> Result<(), OutOfMemory>
    ensures ok { OnOk result (ctx.new ≡ with_errors ctx.old
        (repeats (λ name. (before.now ++ name) ++ after.now) (map N.named entries.now.items))) }
    ensures err { OnErr result (KeepsPlace ctx.old ctx.new) }
{
    // most lists have one entry, for which a map would ask for memory
    if entries.len() < 2 {
        return Ok(());
    }
    let mut names = FirstPlaces::new(alloc);
    names.make_room(entries.len())?;
    for entry in entries {
        report_repeat(
            alloc,
            ctx,
            &mut names,
            entry.name(),
            entry.place(),
            before,
            after,
        )?;
    }
    Ok(())
}

// Notes a name, and reports it where it was noted before.
fn report_repeat<'a, 'n, S: CheckedScalar>(
    alloc: Global,
    ctx: &mut ValidatorContext<'a, S>,
    names: &mut FirstPlaces<'n>,
    name: &'n str,
    place: SourcePosition,
    before: &str,
    after: &str,
) -> Result<(), OutOfMemory>
    ensures kept { OnOk result (places_of names.new ≡ noted (places_of names.old) (name.now, place)) }
    ensures ok { OnOk result (ctx.new ≡ with_errors ctx.old
        (repeat_at (λ n. (before.now ++ n) ++ after.now) (places_of names.old name.now) (name.now, place))) }
    ensures err { OnErr result (KeepsPlace ctx.old ctx.new) }
{
    if let Some(first) = names.note(name, place)? {
        let message = between(alloc, before, name, after)?;
        ctx.report_error(message.as_str(), &[first, place])?;
    }
    Ok(())
}

/// Notes a name, and reports it where it was noted before, by these words and the name: at the place where it was noted
/// first and at its own.
///
/// # Errors
///
/// Out of memory. The types at hand stay; which names are noted is not known then.
pub fn note_name<'a, 'n, S: CheckedScalar>(
    ctx: &mut ValidatorContext<'a, S>,
    names: &mut FirstPlaces<'n>,
    name: &'n str,
    place: SourcePosition,
    before: &str,
) -> Result<(), OutOfMemory>
    ensures kept { OnOk result (places_of names.new ≡ noted (places_of names.old) (name.now, place)) }
    ensures ok { OnOk result (ctx.new ≡ with_errors ctx.old
        (repeat_at (λ n. before.now ++ n) (places_of names.old name.now) (name.now, place))) }
    ensures err { OnErr result (KeepsPlace ctx.old ctx.new) }
{
    let alloc = ctx.allocator();
    report_repeat(alloc, ctx, names, name, place, before, "")
}
