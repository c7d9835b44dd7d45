//! Values of enums.
ghost use Rattle.std.specs.Prelude.{◌≡◌, IfOk, IsOk, None, Some, true, option_map, string_bytes, option_copied};
ghost use Rattle.meta.specs.Deprecation.{is_deprecated_status, reason_of};

use crate::deprecation::DeprecationStatus;
use crate::texts::copy_text;
use language_types::error::OutOfMemory;
use std::alloc::Global;

/// A value of an enum (section 3.9).
#[derive(Clone, Debug, Drop)]
pub struct EnumValue {
    pub name: String,
    pub description: Option<String>,
    pub deprecation_status: DeprecationStatus,
}

impl EnumValue {
    /// An enum value of this name, with no description, not deprecated (section 3.9).
    ///
    /// # Errors
    ///
    /// Out of memory.
    pub fn new(alloc: Global, name: &str) -> Result<Self, OutOfMemory>
        ensures name { IfOk result (λ v. string_bytes v.name ≡ name.now) }
        ensures description { IfOk result (λ v. v.description ≡ None) }
        ensures current { IfOk result (λ v. v.deprecation_status ≡ DeprecationStatus.Current) }
    {
        Ok(EnumValue {
            name: String::from_str(alloc, name)?,
            description: None,
            deprecation_status: DeprecationStatus::Current,
        })
    }

    /// Replaces the description (section 3.2).
    ///
    /// # Errors
    ///
    /// Out of memory.
    pub fn description(mut self, text: &str) -> Result<Self, OutOfMemory>
        ensures text { IfOk result (λ v. option_map string_bytes v.description ≡ Some text.now) }
        ensures others { IfOk result (λ v. v ≡ record self { description = v.description }) }
    {
        self.description = Some(String::from_str(*self.name.allocator(), text)?);
        Ok(self)
    }

    /// Marks the value as deprecated, with this reason, if one is given (section 3.13.3).
    ///
    /// # Errors
    ///
    /// Out of memory; never if no reason is given.
    pub fn deprecated(mut self, reason: Option<&str>) -> Result<Self, OutOfMemory>
        ensures deprecated { IfOk result (λ v. is_deprecated_status v.deprecation_status ≡ true) }
        ensures reason { IfOk result (λ v. reason_of v.deprecation_status ≡ option_copied reason.entry) }
        ensures others { IfOk result (λ v. v ≡ record self { deprecation_status = v.deprecation_status }) }
        ensures succeeds { reason.entry ≡ None → IsOk result }
    {
        let reason = copy_text(*self.name.allocator(), reason)?;
        self.deprecation_status = DeprecationStatus::Deprecated(reason);
        Ok(self)
    }
}
