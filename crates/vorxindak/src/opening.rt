//! Opens handles.
ghost use Rattle.std.specs.Prelude.{◌≡◌, [], IfOk, Some};
ghost use Rattle.schema_handle.specs.Calls.{report_of, schema_of};
ghost use Rattle.vorxindak.specs.Calls.{Opens};

use crate::statuses::{FAULTY_SCHEMA, NOT_UTF8, OUT_OF_MEMORY, VALID};
use language_types::error::OutOfMemory;
use schema::model::Dialect;
use schema_answers::{SchemaAnswer, read_schema};
use schema_handle::{Handle, Held, SourceSchema};
use std::alloc::Global;
use std::sync::Arc;

/// Reads a schema into a handle that has none. What it had is dropped.
pub fn open_closed(alloc: Global, handle: &mut Handle, texts: &[u8], dialect: Dialect) -> u32
    ensures { Opens texts.now dialect result handle.new.slot.value }
{
    match read(alloc, texts, dialect) {
        Ok(Opened { status, held }) => {
            handle.put(alloc, held);
            status
        }
        Err(_) => {
            drop(handle.take(alloc));
            OUT_OF_MEMORY
        }
    }
}

// What was read of the texts of a schema.
#[derive(Drop)]
struct Opened {
    status: u32,
    held: Box<Held>,
}

fn read(alloc: Global, texts: &[u8], dialect: Dialect) -> Result<Opened, OutOfMemory>
    ensures { IfOk result (λ read. Opens texts.now dialect read.status (Some read.held.value)) }
{
    match read_schema(alloc, texts, dialect)? {
        SchemaAnswer::Schema(schema) => Ok(Opened {
            status: VALID,
            held: held_of(alloc, schema)?,
        }),
        SchemaAnswer::Faults(report) => Ok(Opened {
            status: FAULTY_SCHEMA,
            held: Held::of_report(alloc, report)?,
        }),
        SchemaAnswer::NotUtf8(report) => Ok(Opened {
            status: NOT_UTF8,
            held: Held::of_report(alloc, report)?,
        }),
    }
}

// A schema, and an empty report.
fn held_of(alloc: Global, schema: SourceSchema) -> Result<Box<Held>, OutOfMemory>
    ensures schema { IfOk result (λ held. schema_of held.value ≡ Some schema) }
    ensures report { IfOk result (λ held. report_of held.value ≡ []) }
{
    let shared = Arc::new(alloc, schema)?;
    let held = Held::of_schema(alloc, shared)?;
    Ok(held)
}
