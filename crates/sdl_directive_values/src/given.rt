//! The values of arguments of directives, in their order.
ghost use Rattle.std.specs.Prelude.{◌≡◌, ◌++◌, OnOk, option_copied};
ghost use Rattle.std.specs.List.{flat_map};
ghost use Rattle.sdl_directives.specs.Known.{definitions_of};
ghost use Rattle.sdl_directives.specs.Sites.{site_value};
ghost use Rattle.sdl_directive_values.specs.Given.{argument_values, directive_values, given_values, parameter_named};
ghost use Rattle.sdl_directive_values.specs.Given.{site_given, values_by};

use graphql_reader::SourceScalar;
use graphql_reader::type_system::InputValueDefinition;
use language::error::OutOfMemory;
use language::position::{SourcePosition, Spanning};
use language::tree::Directive;
use language::types::BorrowedType;
use language::value::InputValue;
use sdl_directives::arguments::{Argument, arguments_of};
use sdl_directives::known::{Known, directive_named};
use sdl_directives::sites::Site;

/// A value: the name of its argument, where it starts, and the type that it must conform to.
#[derive(Clone, Copy)]
pub struct GivenValue<'d> {
    pub name: &'d str,
    pub position: SourcePosition,
    pub expected: BorrowedType<'d>,
    pub value: &'d InputValue<SourceScalar>,
}

/// Appends the values of these directives.
pub(crate) fn add_sites<'d, 't>(
    given: &mut Vec<GivenValue<'d>>,
    known: &[Known<'d, 't>],
    sites: &[Site<'d, 't>],
) -> Result<(), OutOfMemory>
    ensures { OnOk result (given_values given.new.items ≡ given_values given.old.items
        ++ flat_map (λ s. site_given (definitions_of known.now) (site_value s)) sites.now) }
{
    for site in sites {
        add_directives(given, known, site.directives)?;
    }
    Ok(())
}

fn add_directives<'d, 't>(
    given: &mut Vec<GivenValue<'d>>,
    known: &[Known<'d, 't>],
    directives: &'d [Spanning<Directive<'t, SourceScalar>>],
) -> Result<(), OutOfMemory>
    ensures { OnOk result (given_values given.new.items ≡ given_values given.old.items
        ++ flat_map (directive_values (definitions_of known.now)) directives.now) }
{
    for directive in directives {
        add_directive(given, known, directive)?;
    }
    Ok(())
}

fn add_directive<'d, 't>(
    given: &mut Vec<GivenValue<'d>>,
    known: &[Known<'d, 't>],
    directive: &'d Spanning<Directive<'t, SourceScalar>>,
) -> Result<(), OutOfMemory>
    ensures { OnOk result (given_values given.new.items ≡ given_values given.old.items
        ++ directive_values (definitions_of known.now) directive.now) }
{
    match directive_named(known, directive.item.name.item) {
        Some(defined) => add_arguments(
            given,
            defined.arguments.as_slice(),
            arguments_of(&directive.item),
        ),
        None => Ok(()),
    }
}

fn add_arguments<'d, 't>(
    given: &mut Vec<GivenValue<'d>>,
    parameters: &'d [InputValueDefinition<'t>],
    arguments: &'d [Argument<'t>],
) -> Result<(), OutOfMemory>
    ensures { OnOk result (given_values given.new.items ≡ given_values given.old.items
        ++ flat_map (argument_values parameters.now) arguments.now) }
{
    for argument in arguments {
        add_argument(given, parameters, argument)?;
    }
    Ok(())
}

// Appends the value of an argument, if the directive has it.
fn add_argument<'d, 't>(
    given: &mut Vec<GivenValue<'d>>,
    parameters: &'d [InputValueDefinition<'t>],
    argument: &'d Argument<'t>,
) -> Result<(), OutOfMemory>
    ensures { OnOk result (given_values given.new.items ≡ given_values given.old.items
        ++ argument_values parameters.now argument.now) }
{
    match parameter_named(parameters, argument.0.item) {
        Some(parameter) => add_value(given, parameter, argument),
        None => Ok(()),
    }
}

fn add_value<'d, 't>(
    given: &mut Vec<GivenValue<'d>>,
    parameter: &'d InputValueDefinition<'t>,
    argument: &'d Argument<'t>,
) -> Result<(), OutOfMemory>
    ensures { OnOk result (given_values given.new.items ≡ given_values given.old.items
        ++ values_by argument.now (Some parameter.now)) }
{
    given.push(GivenValue {
        name: argument.0.item,
        position: argument.1.span.start,
        expected: parameter.value_type.item.as_borrowed(),
        value: &argument.1.item,
    })?;
    Ok(())
}

// The first argument of this name that a directive has.
fn parameter_named<'d, 't>(
    parameters: &'d [InputValueDefinition<'t>],
    name: &str,
) -> Option<&'d InputValueDefinition<'t>>
    ensures { option_copied result ≡ parameter_named name.now parameters.now }
{
    for parameter in parameters {
        if parameter.name.item == name {
            return Some(parameter);
        }
    }
    None
}
