//! Circles of input objects, by names.
ghost use Rattle.std.specs.Prelude.{◌≡◌, IfOk, Some};
ghost use Rattle.std.specs.Fmt.{WritesOnOk};
ghost use Rattle.type_system_inputs.specs.Inputs.{FindsInputCircles};
ghost use Rattle.type_system_inputs.specs.Told.{circle_text, circles_told, others_text};

use crate::graph::graph_of;
use crate::places::input_places;
use crate::told::told_circles;
use language_types::error::OutOfMemory;
use schema::model::SchemaTypeOf;
use std::alloc::Global;
use std::fmt;
use type_system_circles::circles_of;
use type_system_report::{Coordinate, CoordinateOf};

/// A field of an input object.
#[derive(Clone, Copy, Debug, PartialEq, Eq)]
pub struct RequiredField<'a> {
    pub of: &'a str,
    pub name: &'a str,
}

/// Fields of input objects. The type of each is the one that has the next field, non-null and no list, and that of the
/// last has the first.
#[derive(Debug, Drop)]
pub struct InputCircle<'a> {
    pub first: RequiredField<'a>,
    pub others: Vec<RequiredField<'a>>,
}

impl<'a> RequiredField<'a> {
    /// Where the field is.
    pub fn coordinate(self) -> Coordinate<'a>
        ensures { result ≡ CoordinateOf.Field self.entry.of self.entry.name }
    {
        CoordinateOf::Field(self.of, self.name)
    }
}

/// Circles of the input objects of a schema (section 3.10), at least one that has a field of each. Each passes no type
/// twice, and begins at its first type in the order of the list that made the schema.
///
/// # Errors
///
/// Out of memory.
pub fn input_circles<'a, S, C>(
    alloc: Global,
    schema: &'a SchemaTypeOf<S, C>,
) -> Result<Vec<InputCircle<'a>>, OutOfMemory>
    ensures { IfOk result (λ v. FindsInputCircles schema.now (circles_told v)) }
{
    let types = schema.concrete_type_list(alloc)?;
    let places = input_places(alloc, types.as_slice())?;
    let graph = graph_of(alloc, types.as_slice(), &places)?;
    let found = circles_of(alloc, graph.as_slice())?;
    told_circles(alloc, types.as_slice(), found.circles.as_slice())
}

/// What is wrong, in a sentence without a period.
impl fmt::Display for InputCircle<'_> {
    ghost output = { λ c. Some (circle_text c) };

    fn fmt<W: fmt::Write>(&self, f: &mut fmt::Formatter<W>) -> fmt::Result {
        let RequiredField { of, name } = self.first;
        write!(f, "Cannot reference Input Object {of}")?;
        write!(
            f,
            " within itself through a series of non-null fields: \"{name}"
        )?;
        write_others(f, self.others.as_slice())?;
        f.write_str("\"")
    }
}

fn write_others<W: fmt::Write>(
    f: &mut fmt::Formatter<W>,
    fields: &[RequiredField<'_>],
) -> fmt::Result
    ensures { WritesOnOk W.write_str_gives f.old result (others_text fields.now) f.new }
{
    for field in fields {
        write!(f, ".{}", field.name)?;
    }
    Ok(())
}
