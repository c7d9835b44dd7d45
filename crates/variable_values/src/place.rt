//! Places in the value of a variable.
ghost use Rattle.std.specs.Prelude.{Some};
ghost use Rattle.std.specs.Fmt.{WritesOnOk};
ghost use Rattle.std.specs.List.{flat_map};
ghost use Rattle.variable_values.specs.Places.{before, printed_path_step};

use std::fmt;

/// A step into a value.
#[derive(Clone, Copy)]
pub enum PathStep<'p> {
    /// To an item of a list.
    Element(usize),
    /// To what stands under a key.
    Field(&'p str),
}

/// A place in the value of a variable: the name of the variable, and the steps to the place, outermost first.
#[derive(Clone, Copy)]
pub struct Place<'p> {
    pub variable: &'p str,
    pub steps: &'p [PathStep<'p>],
}

/// Writes the start of each message about this place.
impl fmt::Display for Place<'_> {
    ghost output = { λ p. Some (before p) };

    fn fmt<W: fmt::Write>(&self, f: &mut fmt::Formatter<W>) -> fmt::Result {
        let variable = self.variable;
        write!(f, "Variable \"${variable}\" got invalid value. ")?;
        print_steps(self.steps, f)
    }
}

fn print_steps<W: fmt::Write>(steps: &[PathStep<'_>], f: &mut fmt::Formatter<W>) -> fmt::Result
    ensures { WritesOnOk W.write_str_gives f.old result (flat_map printed_path_step steps.now) f.new }
{
    for step in steps {
        print_step(step, f)?;
    }
    Ok(())
}

fn print_step<W: fmt::Write>(step: &PathStep<'_>, f: &mut fmt::Formatter<W>) -> fmt::Result
    ensures { WritesOnOk W.write_str_gives f.old result (printed_path_step step.now) f.new }
{
    match step {
        PathStep::Element(index) => write!(f, "In element #{index}: "),
        PathStep::Field(key) => write!(f, "In field \"{key}\": "),
    }
}
