//! What is wrong with a value of an argument.
ghost use Rattle.std.specs.Prelude.{Some};
ghost use Rattle.sdl_directive_values.specs.Faults.{value_fault, value_fault_text};

use language::position::SourcePosition;
use std::fmt;

/// A fault of a value: the argument's name, where the value starts, and what is wrong with it.
#[derive(Debug, Drop)]
pub struct ValueFault<'d> {
    pub name: &'d str,
    pub position: SourcePosition,
    /// The text of the value's first fault.
    pub reason: String,
}

/// What is wrong, in a sentence without a period.
impl fmt::Display for ValueFault<'_> {
    ghost output = { λ f. Some (value_fault_text (value_fault f)) };

    fn fmt<W: fmt::Write>(&self, f: &mut fmt::Formatter<W>) -> fmt::Result {
        let name = self.name;
        let reason = self.reason.as_str();
        write!(f, "Invalid value for argument \"{name}\", reason: {reason}")
    }
}
