//! The faults of the arguments of a directive.
ghost use Rattle.std.specs.Prelude.{◌≡◌, ◌++◌, IsTrue, OnOk};
ghost use Rattle.std.specs.List.{flat_map};
ghost use Rattle.sdl_directives.specs.Arguments.{argument_faults, argument_judged, arguments_of, has_argument};
ghost use Rattle.sdl_directives.specs.Arguments.{is_missing, is_parameter, is_required, listed_faults};
ghost use Rattle.sdl_directives.specs.Arguments.{missing_argument, missing_arguments, repeated_argument};
ghost use Rattle.sdl_directives.specs.Arguments.{unknown_argument};
ghost use Rattle.sdl_directives.specs.Fault.{fault_values};

use crate::fault::{DirectiveFaultOf, PlacedDirectiveFault, report};
use graphql_reader::SourceScalar;
use graphql_reader::type_system::{DirectiveDefinition, InputValueDefinition};
use language::error::OutOfMemory;
use language::position::Spanning;
use language::tree::Directive;
use language::value::InputValue;

/// An argument of a directive: its name and its value.
pub type Argument<'t> = (Spanning<&'t str>, Spanning<InputValue<SourceScalar>>);

/// Reports arguments that the directive does not have, and arguments that stand before in the list.
pub(crate) fn report_arguments<'d, 't>(
    faults: &mut Vec<PlacedDirectiveFault<'d>>,
    defined: &'d DirectiveDefinition<'t>,
    directive: &'d Directive<'t, SourceScalar>,
) -> Result<(), OutOfMemory>
    ensures { OnOk result (fault_values faults.new.items ≡ fault_values faults.old.items
        ++ argument_faults defined.now directive.now) }
{
    report_listed(faults, defined, arguments_of(directive))
}

/// The arguments of a directive.
pub fn arguments_of<'d, 't>(directive: &'d Directive<'t, SourceScalar>) -> &'d [Argument<'t>]
    ensures { result.now ≡ arguments_of directive.now }
{
    match &directive.arguments {
        Some(arguments) => arguments.item.items.as_slice(),
        None => &[],
    }
}

fn report_listed<'d, 't>(
    faults: &mut Vec<PlacedDirectiveFault<'d>>,
    defined: &'d DirectiveDefinition<'t>,
    arguments: &'d [Argument<'t>],
) -> Result<(), OutOfMemory>
    ensures { OnOk result (fault_values faults.new.items ≡ fault_values faults.old.items
        ++ listed_faults defined.now arguments.now) }
{
    for (index, argument) in arguments.iter().enumerate() {
        report_argument(faults, defined, &arguments[..index], argument)?;
    }
    Ok(())
}

fn report_argument<'d, 't>(
    faults: &mut Vec<PlacedDirectiveFault<'d>>,
    defined: &'d DirectiveDefinition<'t>,
    before: &[Argument<'t>],
    argument: &'d Argument<'t>,
) -> Result<(), OutOfMemory>
    ensures { OnOk result (fault_values faults.new.items ≡ fault_values faults.old.items
        ++ argument_judged defined.now before.now argument.now) }
{
    report_unknown(faults, defined, argument)?;
    report_repeated(faults, before, argument)
}

fn report_unknown<'d, 't>(
    faults: &mut Vec<PlacedDirectiveFault<'d>>,
    defined: &'d DirectiveDefinition<'t>,
    argument: &'d Argument<'t>,
) -> Result<(), OutOfMemory>
    ensures { OnOk result (fault_values faults.new.items ≡ fault_values faults.old.items
        ++ unknown_argument defined.now argument.now) }
{
    let name = argument.0.item;
    if !is_parameter(defined.arguments.as_slice(), name) {
        let fault = DirectiveFaultOf::UnknownArgument(name, defined.name.item);
        report(faults, argument.0.span.start, fault)?;
    }
    Ok(())
}

fn report_repeated<'d, 't>(
    faults: &mut Vec<PlacedDirectiveFault<'d>>,
    before: &[Argument<'t>],
    argument: &'d Argument<'t>,
) -> Result<(), OutOfMemory>
    ensures { OnOk result (fault_values faults.new.items ≡ fault_values faults.old.items
        ++ repeated_argument before.now argument.now) }
{
    let name = argument.0.item;
    if has_argument(before, name) {
        let fault = DirectiveFaultOf::RepeatedArgument(name);
        report(faults, argument.0.span.start, fault)?;
    }
    Ok(())
}

/// Reports the required arguments that a directive lacks.
pub(crate) fn report_missing<'d, 't>(
    faults: &mut Vec<PlacedDirectiveFault<'d>>,
    defined: &'d DirectiveDefinition<'t>,
    directive: &'d Spanning<Directive<'t, SourceScalar>>,
) -> Result<(), OutOfMemory>
    ensures { OnOk result (fault_values faults.new.items ≡ fault_values faults.old.items
        ++ missing_arguments defined.now directive.now) }
{
    report_parameters(faults, defined, directive, defined.arguments.as_slice())
}

fn report_parameters<'d, 't>(
    faults: &mut Vec<PlacedDirectiveFault<'d>>,
    defined: &'d DirectiveDefinition<'t>,
    directive: &'d Spanning<Directive<'t, SourceScalar>>,
    parameters: &'d [InputValueDefinition<'t>],
) -> Result<(), OutOfMemory>
    ensures { OnOk result (fault_values faults.new.items ≡ fault_values faults.old.items
        ++ flat_map (missing_argument defined.now directive.now) parameters.now) }
{
    for parameter in parameters {
        report_parameter(faults, defined, directive, parameter)?;
    }
    Ok(())
}

fn report_parameter<'d, 't>(
    faults: &mut Vec<PlacedDirectiveFault<'d>>,
    defined: &'d DirectiveDefinition<'t>,
    directive: &'d Spanning<Directive<'t, SourceScalar>>,
    parameter: &'d InputValueDefinition<'t>,
) -> Result<(), OutOfMemory>
    ensures { OnOk result (fault_values faults.new.items ≡ fault_values faults.old.items
        ++ missing_argument defined.now directive.now parameter.now) }
{
    let name = parameter.name.item;
    if is_missing(parameter, arguments_of(&directive.item)) {
        let of = defined.name.item;
        let expected = parameter.value_type.item.as_borrowed();
        let fault = DirectiveFaultOf::MissingArgument(of, name, expected);
        report(faults, directive.span.start, fault)?;
    }
    Ok(())
}

// Whether a required argument is none of these.
fn is_missing(parameter: &InputValueDefinition<'_>, arguments: &[Argument<'_>]) -> bool
    ensures { result ≡ is_missing parameter.now arguments.now }
{
    is_required(parameter) && !has_argument(arguments, parameter.name.item)
}

// Whether an argument must be given: it is non-null, and has no default value.
fn is_required(parameter: &InputValueDefinition<'_>) -> bool
    ensures { result ≡ is_required parameter.now }
{
    parameter.value_type.item.is_non_null() && parameter.default_value.is_none()
}

// Whether a directive has an argument of this name.
fn is_parameter(parameters: &[InputValueDefinition<'_>], name: &str) -> bool
    ensures { result ≡ is_parameter name.now parameters.now }
{
    for parameter in parameters {
        if parameter.name.item == name {
            return true;
        }
    }
    false
}

// Whether one of these arguments has the name.
fn has_argument(arguments: &[Argument<'_>], name: &str) -> bool
    ensures { result ≡ has_argument name.now arguments.now }
{
    for argument in arguments {
        if argument.0.item == name {
            return true;
        }
    }
    false
}
