//! A field of a type beside the field of an interface that it stands for.
ghost use Rattle.std.specs.Prelude.{◌≡◌};
ghost use Rattle.type_system_report.specs.Fault.{coordinate_value};
ghost use Rattle.type_system_interfaces.specs.Pair.{given_argument, given_field, pair_value, wanted_argument, wanted_field};

use schema::meta::Field;
use type_system_report::{Coordinate, CoordinateOf};

/// The field `given` of the type `of`, and the field `wanted` of the interface.
#[derive(Drop)]
pub(crate) struct FieldPair<'a, S> {
    pub(crate) of: &'a str,
    pub(crate) given: &'a Field<S>,
    pub(crate) interface: &'a str,
    pub(crate) wanted: &'a Field<S>,
}

impl<'a, S> FieldPair<'a, S> {
    /// The coordinate of the type's field.
    pub(crate) fn given_field(&self) -> Coordinate<'a>
        ensures { coordinate_value result ≡ given_field (pair_value self.now) }
    {
        CoordinateOf::Field(self.of, self.given.name.as_str())
    }

    /// The coordinate of an argument of the type's field.
    pub(crate) fn given_argument(&self, name: &'a str) -> Coordinate<'a>
        ensures { coordinate_value result ≡ given_argument (pair_value self.now) name.now }
    {
        CoordinateOf::Argument(self.of, self.given.name.as_str(), name)
    }

    /// The coordinate of the interface's field.
    pub(crate) fn wanted_field(&self) -> Coordinate<'a>
        ensures { coordinate_value result ≡ wanted_field (pair_value self.now) }
    {
        CoordinateOf::Field(self.interface, self.wanted.name.as_str())
    }

    /// The coordinate of an argument of the interface's field.
    pub(crate) fn wanted_argument(&self, name: &'a str) -> Coordinate<'a>
        ensures { coordinate_value result ≡ wanted_argument (pair_value self.now) name.now }
    {
        CoordinateOf::Argument(self.interface, self.wanted.name.as_str(), name)
    }
}
