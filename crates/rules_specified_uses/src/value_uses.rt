//! The variables in a value, at any depth, where a type is expected.

ghost use Rattle.std.specs.Prelude.{◌≡◌, ◌++◌, OnOk, option_map};
ghost use Rattle.rules_positions.specs.RecordedUses.{with_uses};
ghost use Rattle.rules_specified_uses.specs.InputPlaces.{place_value};
ghost use Rattle.rules_specified_uses.specs.ValueUses.{use_at, use_value, use_values, value_uses, UseValue};
ghost use Rattle.rules_specified_uses.specs.Waiting.{left_uses, waiting_uses};

use crate::input_places::{InputPlace, field_place, item_place};
use language_types::error::OutOfMemory;
use language_types::position::{SourcePosition, Spanning};
use language_types::types::BorrowedType;
use language_values::value::InputValue;
use rules_positions::recorded_uses::{VariableUse, add_use};
use schema::model::SchemaTypeOf;
use std::alloc::Global;

/// A variable in a value, with its place, the type that is expected there, and whether that place has a default value.
#[derive(Drop)]
pub struct PlacedUse<'a> {
    pub variable: &'a str,
    pub place: SourcePosition,
    pub expected: BorrowedType<'a>,
    pub has_default: bool,
}

impl<'a> VariableUse for PlacedUse<'a> {
    ghost value_type = { UseValue };

    ghost value = { use_value };
}

/// The uses in each definition of a document, in order.
pub type Uses<'a> = Vec<Vec<PlacedUse<'a>>>;

// Adds a variable, if a type is expected where it stands.
fn add_variable<'a>(
    uses: &mut Uses<'a>,
    variable: &'a str,
    place: SourcePosition,
    at: Option<InputPlace<'a>>,
) -> Result<(), OutOfMemory>
    ensures { OnOk result (use_values uses.new.items
        ≡ with_uses (use_at variable.now place (option_map place_value at.entry)) (use_values uses.old.items)) }
{
    match at {
        Some(at) => add_use(
            uses,
            PlacedUse {
                variable,
                place,
                expected: at.expected,
                has_default: at.has_default,
            },
        ),
        None => Ok(()),
    }
}

// What is left of a list, whose items stand at a place, or of an object that stands at one.
#[derive(Drop)]
enum Waiting<'a, S> {
    Items(Option<InputPlace<'a>>, &'a [Spanning<InputValue<S>>]),
    Entries(Option<InputPlace<'a>>, &'a [(Spanning<String>, Spanning<InputValue<S>>)]),
}

// Adds a variable, or puts the values inside on the list.
fn begin_value<'a, S, C>(
    schema: &'a SchemaTypeOf<S, C>,
    place: Option<InputPlace<'a>>,
    value: &'a Spanning<InputValue<S>>,
    waiting: &mut Vec<Waiting<'a, S>>,
    uses: &mut Uses<'a>,
) -> Result<(), OutOfMemory>
    ensures { OnOk result (with_uses (waiting_uses schema.now waiting.new.items) (use_values uses.new.items)
        ≡ with_uses
        (value_uses schema.now (option_map place_value place.entry) value.now
        ++ waiting_uses schema.now waiting.old.items) (use_values uses.old.items)) }
{
    match &value.item {
        InputValue::Null | InputValue::Scalar(_) | InputValue::Enum(_) => {}
        InputValue::Variable(name) => {
            add_variable(uses, name.as_str(), value.span.start, place)?;
        }
        InputValue::List(items) => {
            waiting.push(Waiting::Items(item_place(place), items.as_slice()))?;
        }
        InputValue::Object(entries) => {
            waiting.push(Waiting::Entries(place, entries.as_slice()))?;
        }
    }
    Ok(())
}

// Goes on with what is left of a list or an object: its first value is begun, and the rest waits.
fn go_on<'a, S, C>(
    schema: &'a SchemaTypeOf<S, C>,
    left: Waiting<'a, S>,
    waiting: &mut Vec<Waiting<'a, S>>,
    uses: &mut Uses<'a>,
) -> Result<(), OutOfMemory>
    ensures { OnOk result (with_uses (waiting_uses schema.now waiting.new.items) (use_values uses.new.items)
        ≡ with_uses (left_uses schema.now left.entry ++ waiting_uses schema.now waiting.old.items)
        (use_values uses.old.items)) }
{
    match left {
        Waiting::Items(place, items) => {
            let Some((item, others)) = items.split_first() else {
                return Ok(());
            };
            waiting.push(Waiting::Items(place, others))?;
            begin_value(schema, place, item, waiting, uses)
        }
        Waiting::Entries(place, entries) => {
            let Some(((key, value), others)) = entries.split_first() else {
                return Ok(());
            };
            waiting.push(Waiting::Entries(place, others))?;
            let at = field_place(schema, place, key.item.as_str());
            begin_value(schema, at, value, waiting, uses)
        }
    }
}

/// Adds the uses in a value at a place to the definition that began last. The lists and objects around the value at
/// hand stand on a list in memory, so no depth is too deep.
///
/// # Errors
///
/// Out of memory. Some of the uses may have been added.
pub fn add_value<'a, S, C>(
    alloc: Global,
    schema: &'a SchemaTypeOf<S, C>,
    place: Option<InputPlace<'a>>,
    value: &'a Spanning<InputValue<S>>,
    uses: &mut Uses<'a>,
) -> Result<(), OutOfMemory>
    ensures { OnOk result (use_values uses.new.items
        ≡ with_uses (value_uses schema.now (option_map place_value place.entry) value.now)
        (use_values uses.old.items)) }
{
    let mut waiting = Vec::new(alloc);
    begin_value(schema, place, value, &mut waiting, uses)?;
    for _ in 0..u64::MAX {
        match waiting.pop() {
            Some(left) => go_on(schema, left, &mut waiting, uses)?,
            None => return Ok(()),
        }
    }
    Err(OutOfMemory)
}
