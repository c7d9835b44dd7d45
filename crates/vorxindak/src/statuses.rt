//! What calls answer, and what flags ask for.
ghost use Rattle.std.specs.Prelude.{◌≡◌};
ghost use Rattle.vorxindak.specs.Calls.{copied_in, shared_in};
ghost use Rattle.vorxindak.specs.Statuses as statuses;
ghost use Rattle.vorxindak.specs.Statuses.{choices_in, status_in};

use answers::{Choices, Verdict};
use schema::model::Dialect;
use schema_handle::{Copied, Shared};

/// The document is valid, or the call did what it was asked for.
pub const VALID: u32 = 0;
/// The document or the values of its variables have errors, which the report has.
pub const INVALID: u32 = 1;
/// The text is not a document. The report says why.
pub const UNREADABLE: u32 = 2;
/// The texts are no schema. The report has their faults, and the handle has no schema.
pub const FAULTY_SCHEMA: u32 = 3;
/// The values are not a JSON object. The report says why.
pub const NO_VALUES: u32 = 4;
/// The bytes are not UTF-8. The report says where.
pub const NOT_UTF8: u32 = 5;
/// The handle has no schema.
pub const CLOSED: u32 = 6;
/// The handle has a schema already, which stays.
pub const ALREADY_OPEN: u32 = 7;
/// The room is too small for the report. Nothing was written to it.
pub const TOO_SMALL: u32 = 8;
/// A flag is unknown. Nothing was done.
pub const UNKNOWN_FLAG: u32 = 9;
/// Out of memory. Nothing is known, and the report is empty.
pub const OUT_OF_MEMORY: u32 = 10;

/// A field that asks for the schema itself is an error.
pub const NO_INTROSPECTION: u32 = 1;
/// Documents are judged in juniper's dialect.
pub const JUNIPER: u32 = 2;

/// What is answered for a verdict.
pub fn status_of(verdict: Verdict) -> u32
    ensures { result ≡ status_in verdict }
{
    match verdict {
        Verdict::Valid => VALID,
        Verdict::Invalid => INVALID,
        Verdict::Unreadable => UNREADABLE,
        Verdict::NoValues => NO_VALUES,
        Verdict::NotUtf8 => NOT_UTF8,
    }
}

/// What is answered for a copy.
pub fn status_of_copy(copied: Copied) -> u32
    ensures { result ≡ copied_in copied }
{
    match copied {
        Copied::Whole => VALID,
        Copied::TooSmall => TOO_SMALL,
        Copied::Nothing => CLOSED,
    }
}

/// What is answered where a schema is to be shared.
pub fn status_of_share(shared: Shared) -> u32
    ensures { result ≡ shared_in shared }
{
    match shared {
        Shared::Done => VALID,
        Shared::NoSchema => CLOSED,
        Shared::HasSchema => ALREADY_OPEN,
        Shared::OutOfMemory => OUT_OF_MEMORY,
    }
}

/// The dialect that flags ask for, if they are known.
pub fn dialect_of(flags: u32) -> Option<Dialect>
    ensures { result ≡ statuses.dialect_in flags }
{
    match flags {
        0 => Some(Dialect::October2021),
        JUNIPER => Some(Dialect::Juniper),
        _ => None,
    }
}

/// What is chosen by the flag of a validation and its limit on errors.
pub fn choices_of(flags: u32, max_errors: usize) -> Choices
    ensures { result ≡ choices_in flags max_errors }
{
    Choices {
        is_closed: flags == NO_INTROSPECTION,
        max_errors,
    }
}
