//! Arguments of fields and directives, and fields of input objects.
ghost use Rattle.std.specs.Prelude.{◌≡◌, IfOk, IsOk, None, Some, true, codes, nat_eq, option_map, string_bytes};
ghost use Rattle.std.specs.Prelude.{option_copied};
ghost use Rattle.std.specs.List.{starts_with};
ghost use Rattle.meta.specs.Deprecation.{is_deprecated_status, reason_of};

use crate::deprecation::DeprecationStatus;
use crate::texts::copy_text;
use language_types::error::OutOfMemory;
use language_types::types::Type;
use language_values::value::InputValue;
use std::alloc::Global;

/// An argument of a field (section 3.6.1) or a directive (section 3.13), or a field of an input
/// object (section 3.10).
#[derive(Clone, Debug, Drop)]
pub struct Argument<S> {
    pub name: String,
    pub description: Option<String>,
    pub arg_type: Type,
    pub default_value: Option<InputValue<S>>,
    pub deprecation_status: DeprecationStatus,
}

impl<S> Argument<S> {
    /// An argument of this name and this type, with no description and no default value, not
    /// deprecated (section 3.6.1).
    ///
    /// # Errors
    ///
    /// Out of memory.
    pub fn new(alloc: Global, name: &str, arg_type: Type) -> Result<Self, OutOfMemory>
        ensures name { IfOk result (λ a. string_bytes a.name ≡ name.now) }
        ensures arg_type { IfOk result (λ a. a.arg_type ≡ arg_type) }
        ensures description { IfOk result (λ a. a.description ≡ None) }
        ensures default_value { IfOk result (λ a. a.default_value ≡ None) }
        ensures current { IfOk result (λ a. a.deprecation_status ≡ DeprecationStatus.Current) }
    {
        Ok(Argument {
            name: String::from_str(alloc, name)?,
            description: None,
            arg_type,
            default_value: None,
            deprecation_status: DeprecationStatus::Current,
        })
    }

    /// Replaces the description (section 3.2).
    ///
    /// # Errors
    ///
    /// Out of memory.
    pub fn description(mut self, text: &str) -> Result<Self, OutOfMemory>
    where
        S: Drop,
        ensures text { IfOk result (λ a. option_map string_bytes a.description ≡ Some text.now) }
        ensures others { IfOk result (λ a. a ≡ record self { description = a.description }) }
    {
        self.description = Some(String::from_str(*self.name.allocator(), text)?);
        Ok(self)
    }

    /// Replaces the default value (section 3.6.1).
    pub fn default_value(mut self, value: InputValue<S>) -> Self
    where
        S: Drop,
        ensures { result ≡ record self { default_value = Some value } }
    {
        self.default_value = Some(value);
        self
    }

    /// Marks the argument or input field as deprecated, with this reason, if one is given (section
    /// 3.13.3).
    ///
    /// # Errors
    ///
    /// Out of memory; never if no reason is given.
    pub fn deprecated(mut self, reason: Option<&str>) -> Result<Self, OutOfMemory>
    where
        S: Drop,
        ensures deprecated { IfOk result (λ a. is_deprecated_status a.deprecation_status ≡ true) }
        ensures reason { IfOk result (λ a. reason_of a.deprecation_status ≡ option_copied reason.entry) }
        ensures others { IfOk result (λ a. a ≡ record self { deprecation_status = a.deprecation_status }) }
        ensures succeeds { reason.entry ≡ None → IsOk result }
    {
        let reason = copy_text(*self.name.allocator(), reason)?;
        self.deprecation_status = DeprecationStatus::Deprecated(reason);
        Ok(self)
    }

    /// Whether the name begins with `__` (section 4.1).
    pub fn is_builtin(&self) -> bool
        ensures { result ≡ starts_with nat_eq (string_bytes self.now.name) (codes "__") }
    {
        self.name.as_str().starts_with("__")
    }
}
