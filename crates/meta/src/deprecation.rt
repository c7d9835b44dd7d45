//! The deprecation of fields, arguments, input fields and enum values.
ghost use Rattle.std.specs.Prelude.{◌≡◌, option_copied};
ghost use Rattle.meta.specs.Deprecation.{is_deprecated_status, reason_of};

use crate::texts::as_text;

/// Whether a field, an argument, an input field or an enum value is deprecated (section 3.13.3).
#[derive(Clone, Debug, PartialEq, Eq, Hash, Drop)]
pub enum DeprecationStatus {
    /// Not deprecated.
    Current,
    /// Deprecated, with a reason if one is given.
    Deprecated(Option<String>),
}

impl DeprecationStatus {
    /// Whether it is deprecated.
    pub fn is_deprecated(&self) -> bool
        ensures { result ≡ is_deprecated_status self.now }
    {
        match self {
            DeprecationStatus::Current => false,
            DeprecationStatus::Deprecated(_) => true,
        }
    }

    /// The reason of the deprecation, if one is given.
    pub fn reason(&self) -> Option<&str>
        ensures { option_copied result ≡ reason_of self.now }
    {
        match self {
            DeprecationStatus::Current => None,
            DeprecationStatus::Deprecated(reason) => as_text(reason),
        }
    }
}
