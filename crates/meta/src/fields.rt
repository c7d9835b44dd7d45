//! Fields of objects and interfaces.
ghost use Rattle.std.specs.Prelude.{◌≡◌, IfOk, IsOk, None, Some, true, codes, nat_eq, option_map, string_bytes, ◌∷◌};
ghost use Rattle.std.specs.Prelude.{[], ◌++◌, option_copied};
ghost use Rattle.std.specs.List.{starts_with};
ghost use Rattle.meta.specs.Deprecation.{is_deprecated_status, reason_of};
ghost use Rattle.meta.specs.Arguments.{arguments_of};

use crate::arguments::Argument;
use crate::deprecation::DeprecationStatus;
use crate::texts::copy_text;
use language_types::error::OutOfMemory;
use language_types::types::Type;
use std::alloc::Global;

/// A field of an object (section 3.6) or an interface (section 3.7).
#[derive(Clone, Debug, Drop)]
pub struct Field<S> {
    pub name: String,
    pub description: Option<String>,
    /// With `None`, unlike with an empty list, no argument counts as unknown.
    pub arguments: Option<Vec<Argument<S>>>,
    pub field_type: Type,
    pub deprecation_status: DeprecationStatus,
}

impl<S> Field<S> {
    /// A field of this name and this type, with no description and no arguments, not deprecated
    /// (section 3.6).
    ///
    /// # Errors
    ///
    /// Out of memory.
    pub fn new(alloc: Global, name: &str, field_type: Type) -> Result<Self, OutOfMemory>
        ensures name { IfOk result (λ f. string_bytes f.name ≡ name.now) }
        ensures field_type { IfOk result (λ f. f.field_type ≡ field_type) }
        ensures description { IfOk result (λ f. f.description ≡ None) }
        ensures arguments { IfOk result (λ f. f.arguments ≡ None) }
        ensures current { IfOk result (λ f. f.deprecation_status ≡ DeprecationStatus.Current) }
    {
        Ok(Field {
            name: String::from_str(alloc, name)?,
            description: None,
            arguments: None,
            field_type,
            deprecation_status: DeprecationStatus::Current,
        })
    }

    /// Replaces the description (section 3.2).
    ///
    /// # Errors
    ///
    /// Out of memory.
    pub fn description(mut self, text: &str) -> Result<Self, OutOfMemory>
    where
        S: Drop,
        ensures text { IfOk result (λ f. option_map string_bytes f.description ≡ Some text.now) }
        ensures others { IfOk result (λ f. f ≡ record self { description = f.description }) }
    {
        self.description = Some(String::from_str(*self.name.allocator(), text)?);
        Ok(self)
    }

    /// Adds an argument at the end, even if another has its name (section 3.6.1).
    ///
    /// # Errors
    ///
    /// Out of memory.
    pub fn argument(self, argument: Argument<S>) -> Result<Self, OutOfMemory>
    where
        S: Drop,
        ensures arguments { IfOk result (λ f. option_map (λ v. v.items) f.arguments
            ≡ Some (arguments_of self ++ argument ∷ [])) }
        ensures others { IfOk result (λ f. f ≡ record self { arguments = f.arguments }) }
    {
        let Field {
            name,
            description,
            arguments,
            field_type,
            deprecation_status,
        } = self;
        let mut arguments = match arguments {
            Some(given) => given,
            None => Vec::new(*name.allocator()),
        };
        arguments.push(argument)?;
        Ok(Field {
            name,
            description,
            arguments: Some(arguments),
            field_type,
            deprecation_status,
        })
    }

    /// Marks the field as deprecated, with this reason, if one is given (section 3.6.2).
    ///
    /// # Errors
    ///
    /// Out of memory; never if no reason is given.
    pub fn deprecated(mut self, reason: Option<&str>) -> Result<Self, OutOfMemory>
    where
        S: Drop,
        ensures deprecated { IfOk result (λ f. is_deprecated_status f.deprecation_status ≡ true) }
        ensures reason { IfOk result (λ f. reason_of f.deprecation_status ≡ option_copied reason.entry) }
        ensures others { IfOk result (λ f. f ≡ record self { deprecation_status = f.deprecation_status }) }
        ensures succeeds { reason.entry ≡ None → IsOk result }
    {
        let reason = copy_text(*self.name.allocator(), reason)?;
        self.deprecation_status = DeprecationStatus::Deprecated(reason);
        Ok(self)
    }

    /// Whether the name begins with `__` (section 4.1).
    pub fn is_builtin(&self) -> bool
        ensures { result ≡ starts_with nat_eq (string_bytes self.now.name) (codes "__") }
    {
        self.name.as_str().starts_with("__")
    }
}
