//! The variables in the arguments of a field or a directive, where a type is expected.

ghost use Rattle.std.specs.Prelude.{◌≡◌, OnOk, option_copied};
ghost use Rattle.std.specs.List.{flat_map};
ghost use Rattle.rules_positions.specs.RecordedUses.{with_uses};
ghost use Rattle.rules_specified_uses.specs.ValueUses.{use_values};
ghost use Rattle.rules_specified_positions.specs.PlacedUses.{argument_uses, arguments_uses};

use language::error::OutOfMemory;
use language::position::Spanning;
use language::tree::Arguments;
use language::value::InputValue;
use meta::Argument;
use rules_specified_uses::input_places::argument_place;
use rules_specified_uses::value_uses::{Uses, add_value};
use schema::model::SchemaTypeOf;
use std::alloc::Global;

// Adds the uses in an argument.
fn add_argument<'a, S, C>(
    alloc: Global,
    schema: &'a SchemaTypeOf<S, C>,
    known: Option<&'a [Argument<S>]>,
    argument: &'a (Spanning<&'a str>, Spanning<InputValue<S>>),
    uses: &mut Uses<'a>,
) -> Result<(), OutOfMemory>
    ensures { OnOk result (use_values uses.new.items
        ≡ with_uses (argument_uses schema.now (option_copied known.entry) argument.now) (use_values uses.old.items)) }
{
    let place = argument_place(known, argument.0.item);
    add_value(alloc, schema, place, &argument.1, uses)
}

// Adds the uses in each of these arguments.
fn add_each<'a, S, C>(
    alloc: Global,
    schema: &'a SchemaTypeOf<S, C>,
    known: Option<&'a [Argument<S>]>,
    arguments: &'a [(Spanning<&'a str>, Spanning<InputValue<S>>)],
    uses: &mut Uses<'a>,
) -> Result<(), OutOfMemory>
    ensures { OnOk result (use_values uses.new.items
        ≡ with_uses (flat_map (argument_uses schema.now (option_copied known.entry)) arguments.now)
        (use_values uses.old.items)) }
{
    for argument in arguments {
        add_argument(alloc, schema, known, argument, uses)?;
    }
    Ok(())
}

/// Adds the uses in the arguments of a field or a directive to the definition that began last, by the arguments that it
/// defines.
///
/// # Errors
///
/// Out of memory. Some of the uses may have been added.
pub fn add_arguments<'a, S, C>(
    alloc: Global,
    schema: &'a SchemaTypeOf<S, C>,
    known: Option<&'a [Argument<S>]>,
    written: &'a Option<Spanning<Arguments<'a, S>>>,
    uses: &mut Uses<'a>,
) -> Result<(), OutOfMemory>
    ensures { OnOk result (use_values uses.new.items
        ≡ with_uses (arguments_uses schema.now (option_copied known.entry) written.now) (use_values uses.old.items)) }
{
    match written {
        Some(list) => add_each(alloc, schema, known, list.item.items.as_slice(), uses),
        None => Ok(()),
    }
}
