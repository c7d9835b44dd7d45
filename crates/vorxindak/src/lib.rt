//! Validation for C, and for each language that calls C: a schema in a handle, and reports as JSON. What a caller owes
//! stands in `include/vorxindak.h`.
//!
//! Proved: what each call answers and leaves in the handle. A document is answered with `VALID` exactly where the
//! document that was read is valid, and a report's bytes are those of its errors. That a handle may go to another
//! thread is proved in `schema_handle`.
#![tactic(auto)]

ghost use Rattle.std.specs.Prelude.{◌≡◌, ◌<◌, ◌≤◌, [], IfSome, None};
ghost use Rattle.answers.specs.Answers.{Answers, AnswersValues, OfBytes};
ghost use Rattle.schema_handle.specs.Calls.{Shares, report_in, schema_in};
ghost use Rattle.vorxindak.specs.Calls.{CopiesWith, OpensOnce, SharesWith, TellsOnce};
ghost use Rattle.vorxindak.specs.Statuses.{choices_in, dialect_in, unknown_flag};

mod judging;
mod opening;
mod statuses;

use answers::AnswerRules;
use graphql_reader::SourceScalar;
use judging::{judge, judge_values};
use opening::open_closed;
use schema_handle::{Handle, copy_report, has_schema, share};
use statuses::{
    ALREADY_OPEN, CLOSED, NO_INTROSPECTION, UNKNOWN_FLAG, choices_of, dialect_of, status_of_copy,
    status_of_share,
};
use std::alloc::Global;

/// The version of the library: a million times its first number, a thousand times its second, and its third.
#[unsafe(no_mangle)]
pub extern "C" fn vorxindak_version() -> u32
    ensures { result ≡ 1000 }
{
    1_000
}

/// Reads a schema, which the handle has from then on. The texts have a zero byte between each two, and each is type
/// definitions or the JSON result of an introspection query. The dialect is that of October 2021, or juniper's by the
/// flag `JUNIPER`, the only one that is known. A handle that has a schema keeps it.
#[unsafe(no_mangle)]
pub extern "C" fn vorxindak_open(
    alloc: Global,
    handle: &mut Handle,
    texts: &[u8],
    flags: u32,
) -> u32
    ensures unknown { dialect_in flags ≡ None
        → (result ≡ unknown_flag) × (handle.new.slot.value ≡ handle.old.slot.value) }
    ensures opened { IfSome (dialect_in flags) (λ dialect. OpensOnce texts.now dialect result
        (schema_in handle.old.slot.value) handle.old.slot.value handle.new.slot.value) }
{
    let Some(dialect) = dialect_of(flags) else {
        return UNKNOWN_FLAG;
    };
    if has_schema(alloc, handle) {
        return ALREADY_OPEN;
    }
    open_closed(alloc, handle, texts, dialect)
}

/// Validates a document. The handle keeps the report, which has at most `max_errors` errors, or all for 0. One
/// with a long message counts as several: one, and one more for each 4,096 bytes of its message. The one known flag is
/// `NO_INTROSPECTION`.
#[unsafe(no_mangle)]
pub extern "C" fn vorxindak_validate(
    alloc: Global,
    handle: &mut Handle,
    query: &[u8],
    max_errors: usize,
    flags: u32,
) -> u32
    ensures unknown { 1 < flags → (result ≡ unknown_flag) × (handle.new.slot.value ≡ handle.old.slot.value) }
    ensures told { flags ≤ 1 → TellsOnce (λ schema.
        OfBytes (Answers ⟦<SourceScalar as AnswerRules>⟧.rules (choices_in flags max_errors) schema query.now)
        query.now)
        result
        (schema_in handle.old.slot.value) handle.old.slot.value handle.new.slot.value }
{
    if flags > NO_INTROSPECTION {
        return UNKNOWN_FLAG;
    }
    let Some(mut held) = handle.take(alloc) else {
        return CLOSED;
    };
    let status = judge(alloc, &mut held, query, choices_of(flags, max_errors));
    handle.put(alloc, held);
    status
}

/// Validates a document, and if it is valid the values of its variables, which are a JSON object. They are checked for
/// each operation of the document. Flag, limit and report are those of [`vorxindak_validate`].
#[unsafe(no_mangle)]
pub extern "C" fn vorxindak_validate_variables(
    alloc: Global,
    handle: &mut Handle,
    query: &[u8],
    values: &[u8],
    max_errors: usize,
    flags: u32,
) -> u32
    ensures unknown { 1 < flags → (result ≡ unknown_flag) × (handle.new.slot.value ≡ handle.old.slot.value) }
    ensures told { flags ≤ 1 → TellsOnce (λ schema. OfBytes (OfBytes
        (AnswersValues ⟦<SourceScalar as AnswerRules>⟧.rules (choices_in flags max_errors) schema query.now values.now)
        values.now) query.now) result (schema_in handle.old.slot.value) handle.old.slot.value handle.new.slot.value }
{
    if flags > NO_INTROSPECTION {
        return UNKNOWN_FLAG;
    }
    let Some(mut held) = handle.take(alloc) else {
        return CLOSED;
    };
    let choices = choices_of(flags, max_errors);
    let status = judge_values(alloc, &mut held, query, values, choices);
    handle.put(alloc, held);
    status
}

/// Copies the last report into `out`, if it has the room. `needed` becomes the report's length in bytes.
#[unsafe(no_mangle)]
pub extern "C" fn vorxindak_report(
    alloc: Global,
    handle: &mut Handle,
    out: &mut [u8],
    needed: &mut usize,
) -> u32
    ensures same { handle.new.slot.value ≡ handle.old.slot.value }
    ensures copied { CopiesWith handle.old.slot.value result needed.new out.old out.new }
{
    status_of_copy(copy_report(alloc, handle, out, needed))
}

/// Gives another handle the schema of this one, for another thread. There is one schema, however many handles have it.
/// The other handle's report is empty, and if it has a schema already it keeps that.
#[unsafe(no_mangle)]
pub extern "C" fn vorxindak_share(alloc: Global, handle: &mut Handle, other: &mut Handle) -> u32
    ensures same { handle.new.slot.value ≡ handle.old.slot.value }
    ensures kept { 0 < result → other.new.slot.value ≡ other.old.slot.value }
    ensures shared { result ≡ 0 → schema_in other.new.slot.value ≡ schema_in handle.old.slot.value }
    ensures empty { result ≡ 0 → report_in other.new.slot.value ≡ [] }
    ensures answered { SharesWith (schema_in other.old.slot.value) (schema_in handle.old.slot.value) result }
{
    status_of_share(share(alloc, handle, other))
}

/// Lets go of the schema and the report. Where the handle has neither, nothing is done.
#[unsafe(no_mangle)]
pub extern "C" fn vorxindak_close(alloc: Global, handle: &mut Handle)
    ensures { handle.new.slot.value ≡ None }
{
    drop(handle.take(alloc));
}
