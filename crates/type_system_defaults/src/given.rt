//! The default values of a type system, in their order.
ghost use Rattle.std.specs.Prelude.{◌≡◌, ◌++◌, OnOk};
ghost use Rattle.std.specs.List.{flat_map};
ghost use Rattle.language_types.specs.References.{list_copied};
ghost use Rattle.type_system_report.specs.Fault.{coordinate_value};
ghost use Rattle.type_system_defaults.specs.Given.{argument_default, default_at, directive_argument_default};
ghost use Rattle.type_system_defaults.specs.Given.{directive_defaults, field_defaults, given_values};
ghost use Rattle.type_system_defaults.specs.Given.{input_field_default, type_defaults};

use language_types::error::OutOfMemory;
use language_types::types::BorrowedType;
use language_values::value::InputValue;
use schema::meta::{Argument, Field, MetaTypeOf};
use schema::model::DirectiveType;
use type_system_report::{Coordinate, CoordinateOf};

/// A default value: where it stands, and the type that it must conform to.
#[derive_where(Clone, Copy)]
pub struct GivenDefault<'a, S> {
    pub coordinate: Coordinate<'a>,
    pub expected: BorrowedType<'a>,
    pub value: &'a InputValue<S>,
}

/// Appends the default values of these types.
///
/// # Errors
///
/// Out of memory. Some of them may have been appended.
pub fn add_types<'a, S, C>(
    given: &mut Vec<GivenDefault<'a, S>>,
    types: &[&'a MetaTypeOf<S, C>],
) -> Result<(), OutOfMemory>
    ensures { OnOk result (given_values given.new ≡ given_values given.old
        ++ flat_map type_defaults (list_copied types.now)) }
{
    for meta in types {
        add_type(given, *meta)?;
    }
    Ok(())
}

/// Appends the default values of these directives.
///
/// # Errors
///
/// Out of memory. Some of them may have been appended.
pub fn add_directives<'a, S>(
    given: &mut Vec<GivenDefault<'a, S>>,
    directives: &[&'a DirectiveType<S>],
) -> Result<(), OutOfMemory>
    ensures { OnOk result (given_values given.new ≡ given_values given.old
        ++ flat_map directive_defaults (list_copied directives.now)) }
{
    for directive in directives {
        add_directive(given, *directive)?;
    }
    Ok(())
}

fn add_type<'a, S, C>(
    given: &mut Vec<GivenDefault<'a, S>>,
    meta: &'a MetaTypeOf<S, C>,
) -> Result<(), OutOfMemory>
    ensures { OnOk result (given_values given.new ≡ given_values given.old ++ type_defaults meta.now) }
{
    match meta {
        MetaTypeOf::Object(object) => {
            add_fields(given, object.name.as_str(), object.fields.as_slice())
        }
        MetaTypeOf::Interface(interface) => {
            add_fields(given, interface.name.as_str(), interface.fields.as_slice())
        }
        MetaTypeOf::InputObject(input) => {
            add_input_fields(given, input.name.as_str(), input.input_fields.as_slice())
        }
        _ => Ok(()),
    }
}

fn add_fields<'a, S>(
    given: &mut Vec<GivenDefault<'a, S>>,
    of: &'a str,
    fields: &'a [Field<S>],
) -> Result<(), OutOfMemory>
    ensures { OnOk result (given_values given.new ≡ given_values given.old
        ++ flat_map (field_defaults of.now) fields.now) }
{
    for field in fields {
        add_field(given, of, field)?;
    }
    Ok(())
}

fn add_field<'a, S>(
    given: &mut Vec<GivenDefault<'a, S>>,
    of: &'a str,
    field: &'a Field<S>,
) -> Result<(), OutOfMemory>
    ensures { OnOk result (given_values given.new ≡ given_values given.old ++ field_defaults of.now field.now) }
{
    match &field.arguments {
        Some(arguments) => { add_arguments(given, of, field.name.as_str(), arguments.as_slice()) }
        None => Ok(()),
    }
}

fn add_arguments<'a, S>(
    given: &mut Vec<GivenDefault<'a, S>>,
    of: &'a str,
    field: &'a str,
    arguments: &'a [Argument<S>],
) -> Result<(), OutOfMemory>
    ensures { OnOk result (given_values given.new ≡ given_values given.old
        ++ flat_map (argument_default of.now field.now) arguments.now) }
{
    for argument in arguments {
        let at = CoordinateOf::Argument(of, field, argument.name.as_str());
        add_default(given, at, argument)?;
    }
    Ok(())
}

fn add_input_fields<'a, S>(
    given: &mut Vec<GivenDefault<'a, S>>,
    of: &'a str,
    fields: &'a [Argument<S>],
) -> Result<(), OutOfMemory>
    ensures { OnOk result (given_values given.new ≡ given_values given.old
        ++ flat_map (input_field_default of.now) fields.now) }
{
    for field in fields {
        let at = CoordinateOf::Field(of, field.name.as_str());
        add_default(given, at, field)?;
    }
    Ok(())
}

fn add_directive<'a, S>(
    given: &mut Vec<GivenDefault<'a, S>>,
    directive: &'a DirectiveType<S>,
) -> Result<(), OutOfMemory>
    ensures { OnOk result (given_values given.new ≡ given_values given.old ++ directive_defaults directive.now) }
{
    let of = directive.name.as_str();
    for argument in &directive.arguments {
        let at = CoordinateOf::DirectiveArgument(of, argument.name.as_str());
        add_default(given, at, argument)?;
    }
    Ok(())
}

// Appends the default value of an argument or an input field at this coordinate, if it has one.
fn add_default<'a, S>(
    given: &mut Vec<GivenDefault<'a, S>>,
    coordinate: Coordinate<'a>,
    argument: &'a Argument<S>,
) -> Result<(), OutOfMemory>
    ensures { OnOk result (given_values given.new ≡ given_values given.old
        ++ default_at (coordinate_value coordinate.entry) argument.now) }
{
    if let Some(value) = &argument.default_value {
        let expected = argument.arg_type.as_borrowed();
        given.push(GivenDefault {
            coordinate,
            expected,
            value,
        })?;
    }
    Ok(())
}
