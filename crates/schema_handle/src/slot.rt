// A place in the caller's memory for a pointer to what is held.
ghost use Rattle.std.specs.Prelude.{◌≡◌, [], IfOk, Option, None, Some, string_bytes, true, false};
ghost use Rattle.schema_handle.specs.declared.slot.Held.{Held};
ghost use Rattle.schema_handle.specs.Slots.{held_coded, slot_owns};

use crate::parts::Parts;
use schema::model::SchemaTypeOf;
use sdl_scalars::check::SourceCheck;
use sdl_scalars::scalar::SourceScalar;
use std::alloc::{AllocError, Global};
use std::marker::Model;
use std::sync::Arc;

/// A schema as it is read from a text.
pub type SourceSchema = SchemaTypeOf<SourceScalar, SourceCheck>;

/// What an open handle holds.
#[derive(Drop)]
pub struct Held {
    /// The schema, which other handles may share. There is none where a text was no schema.
    pub schema: Option<Arc<SourceSchema>>,
    /// The last report, as JSON.
    pub report: String,
}

impl Held {
    /// A schema, and an empty report.
    ///
    /// # Errors
    ///
    /// Out of memory.
    pub fn of_schema(alloc: Global, schema: Arc<SourceSchema>) -> Result<Box<Held>, AllocError>
        ensures schema { IfOk result (λ held. held.value.schema ≡ Some schema) }
        ensures report { IfOk result (λ held. string_bytes held.value.report ≡ []) }
    {
        let report = String::new(alloc);
        let schema = Some(schema);
        let held = Box::new(alloc, Held { schema, report })?;
        Ok(held)
    }

    /// A report, and no schema.
    ///
    /// # Errors
    ///
    /// Out of memory.
    pub fn of_report(alloc: Global, report: String) -> Result<Box<Held>, AllocError>
        ensures schema { IfOk result (λ held. held.value.schema ≡ None) }
        ensures report { IfOk result (λ held. held.value.report ≡ report) }
    {
        let held = Box::new(
            alloc,
            Held {
                schema: None,
                report,
            },
        )?;
        Ok(held)
    }
}

/// What is held, or nothing.
#[repr(C)]
pub struct Slot {
    pub(crate) is_open: bool,
    at: *mut u8,
    alloc: Global,
    pub ghost value: { Option Held } by { held_coded },
}

impl Model for Slot {
    ghost also_owns = { λ s. slot_owns s.alloc s.is_open s.at s.value };
}

impl Slot {
    // A closed one.
    pub(crate) fn closed(alloc: Global, at: *mut u8) -> Slot
        ensures { (result.value ≡ None) × (result.is_open ≡ false) }
    {
        Slot {
            is_open: false,
            at,
            alloc,
        }
    }

    // One with what the parts own.
    pub(crate) fn of_parts(parts: Parts<Held, Global>) -> Slot
        ensures { (result.value ≡ Some parts.value) × (result.is_open ≡ true) }
    {
        let Parts { ptr, alloc } = parts;
        Slot {
            is_open: true,
            at: ptr as *mut u8,
            alloc,
        }
    }

    // The parts of an open one.
    pub(crate) fn into_parts(self) -> Parts<Held, Global>
        requires { self.is_open ≡ true }
        ensures { Some result.value ≡ self.value }
    {
        let Slot {
            is_open: _,
            at,
            alloc,
        } = self;
        Parts {
            ptr: at as *mut Held,
            alloc,
        }
    }

    // Lets go of a closed one, which owns nothing.
    pub(crate) fn shut(self)
        requires { self.value ≡ None }
    {
        let Slot {
            is_open: _,
            at: _,
            alloc: _,
        } = self;
    }
}

unsafe impl Send for Slot {}
