//! What calls of C do with handles alone.
ghost use Rattle.std.specs.Prelude.{◌≡◌, [], IfOk, Some, is_some};
ghost use Rattle.std.specs.Arc.{arc_value};
ghost use Rattle.schema_handle.specs.declared.calls.Shared.TheVariants.{Done};
ghost use Rattle.schema_handle.specs.Calls.{CopiesBytes, CopiesReport, Gives, Shares, report_in, report_of, schema_in};
ghost use Rattle.schema_handle.specs.Calls.{schema_of};

use crate::handle::Handle;
use crate::slot::{Held, SourceSchema};
use std::alloc::{AllocError, Global};
use std::sync::Arc;

/// Whether a report was copied.
#[derive(Clone, Copy, Debug, PartialEq, Eq)]
pub enum Copied {
    /// It was.
    Whole,
    /// The room is too small. Nothing was written to it.
    TooSmall,
    /// The handle holds nothing.
    Nothing,
}

/// Whether a schema was given to another handle.
#[derive(Clone, Copy, Debug, PartialEq, Eq)]
pub enum Shared {
    /// It was.
    Done,
    /// There is none.
    NoSchema,
    /// The other handle has one already, which stays.
    HasSchema,
    /// Out of memory.
    OutOfMemory,
}

/// Whether a handle has a schema.
pub fn has_schema(alloc: Global, handle: &mut Handle) -> bool
    ensures same { handle.new.slot.value ≡ handle.old.slot.value }
    ensures has { result ≡ is_some (schema_in handle.old.slot.value) }
{
    let Some(held) = handle.take(alloc) else {
        return false;
    };
    let has = held.schema.is_some();
    handle.put(alloc, held);
    has
}

/// Copies the report of a handle to the front of `out`, if that has the room. `needed` becomes its length.
pub fn copy_report(alloc: Global, handle: &mut Handle, out: &mut [u8], needed: &mut usize) -> Copied
    ensures same { handle.new.slot.value ≡ handle.old.slot.value }
    ensures copied { CopiesReport handle.old.slot.value result needed.new out.old out.new }
{
    let Some(held) = handle.take(alloc) else {
        *needed = 0;
        return Copied::Nothing;
    };
    let report = held.report.as_bytes();
    *needed = report.len();
    let copied = copy(report, out);
    handle.put(alloc, held);
    copied
}

fn copy(from: &[u8], to: &mut [u8]) -> Copied
    ensures { CopiesBytes from.now result to.old to.new }
{
    if from.len() > to.len() {
        return Copied::TooSmall;
    }
    to[..from.len()].copy_from_slice(from);
    Copied::Whole
}

/// Gives another handle the schema of this one, with an empty report, unless the other has a schema.
pub fn share(alloc: Global, handle: &mut Handle, other: &mut Handle) -> Shared
    ensures same { handle.new.slot.value ≡ handle.old.slot.value }
    ensures kept { (result ≡ Done → ⊥) → other.new.slot.value ≡ other.old.slot.value }
    ensures shared { result ≡ Done → schema_in other.new.slot.value ≡ schema_in handle.old.slot.value }
    ensures empty { result ≡ Done → report_in other.new.slot.value ≡ [] }
    ensures answered { Shares (schema_in other.old.slot.value) (schema_in handle.old.slot.value) result }
{
    if has_schema(alloc, other) {
        return Shared::HasSchema;
    }
    let Some(held) = handle.take(alloc) else {
        return Shared::NoSchema;
    };
    let shared = give(alloc, &held, other);
    handle.put(alloc, held);
    shared
}

fn give(alloc: Global, held: &Held, other: &mut Handle) -> Shared
    ensures kept { (result ≡ Done → ⊥) → other.new.slot.value ≡ other.old.slot.value }
    ensures given { result ≡ Done → schema_in other.new.slot.value ≡ schema_of held.now }
    ensures empty { result ≡ Done → report_in other.new.slot.value ≡ [] }
    ensures answered { Gives (schema_of held.now) result }
{
    let Some(schema) = &held.schema else {
        return Shared::NoSchema;
    };
    match second_of(alloc, schema) {
        Ok(second) => {
            other.put(alloc, second);
            Shared::Done
        }
        Err(_) => Shared::OutOfMemory,
    }
}

// The same schema with an empty report.
fn second_of(alloc: Global, schema: &Arc<SourceSchema>) -> Result<Box<Held>, AllocError>
    ensures schema { IfOk result (λ second. schema_of second.value ≡ Some (arc_value schema.now)) }
    ensures report { IfOk result (λ second. report_of second.value ≡ []) }
{
    Held::of_schema(alloc, Arc::try_clone(schema)?)
}
