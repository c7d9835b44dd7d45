//! What is wrong with a default value.
ghost use Rattle.std.specs.Prelude.{Some};
ghost use Rattle.type_system_defaults.specs.Faults.{default_fault, default_fault_text};

use std::fmt;
use type_system_report::Coordinate;

/// A fault of a default value: where it stands, and what is wrong with it.
#[derive(Debug, Drop)]
pub struct DefaultFault<'a> {
    /// The argument or the input field that has the default value.
    pub coordinate: Coordinate<'a>,
    /// The text of the value's first fault.
    pub reason: String,
}

/// What is wrong, in a sentence without a period.
impl fmt::Display for DefaultFault<'_> {
    ghost output = { λ f. Some (default_fault_text (default_fault f)) };

    fn fmt<W: fmt::Write>(&self, f: &mut fmt::Formatter<W>) -> fmt::Result {
        let at = self.coordinate;
        let reason = self.reason.as_str();
        write!(f, "Invalid default value of {at}, reason: {reason}")
    }
}
