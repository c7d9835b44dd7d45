//! The faults of a value against a type.
ghost use Rattle.std.specs.Prelude.{◌≡◌, ◌<◌, [], IfOk, IfSome, List, OnOk, Some, length, map, option_copied};
ghost use Rattle.std.specs.Prelude.{option_map, reverse, string_bytes, true};
ghost use Rattle.std.specs.List.{All};
ghost use Rattle.schema.specs.Possible.{is_among};
ghost use Rattle.schema_validation.specs.Names.{argument_type};
ghost use Rattle.language_values.specs.declared.value.InputValue.{out-InputValue};
ghost use Rattle.language_types.specs.Types.{borrowed_shape};
ghost use Rattle.language_values.specs.ValuesPrinted.{printed_value};
ghost use Rattle.language_values.specs.Values.{last_value};
ghost use Rattle.meta.specs.Kept.{input_object_check, scalar_check};
ghost use Rattle.meta.specs.Kinds.{is_input_meta};
ghost use Rattle.variable_values.specs.Begun.{BeginsAt, EndsObject, GoesOn, IsBegunOf, IsKnown, Leads, Left, OfGiven};
ghost use Rattle.variable_values.specs.Begun.{all_but_first};
ghost use Rattle.variable_values.specs.Entries.{HasPlaces};
ghost use Rattle.variable_values.specs.Faults.{Checked, Faults, accepted_faults, enum_faults, left_out, name_in};
ghost use Rattle.variable_values.specs.Faults.{whole_faults, wrong_length};
ghost use Rattle.variable_values.specs.Inputs.{is_input_in};
ghost use Rattle.variable_values.specs.Messages.{Adds, invalid_text, texts_of};
ghost use Rattle.variable_values.specs.Places.{AddsAt, before_path};
ghost use Rattle.variable_values.specs.Rows.{Answered, ByMeta, ByName, IsIn, Others, length_of_one, lengths_of};
ghost use Rattle.variable_values.specs.Rows.{lengths_of_one};
ghost use Rattle.variable_values.specs.Texts.{input_text, scalar_text};

use crate::begun::{Begun, BegunObject};
use crate::dialects::{is_needed, takes_any_value};
use crate::entries::{last_places, place_of};
use crate::keys::add_unknown_keys;
use crate::messages::add;
use crate::place::{PathStep, Place};
use crate::rows::{Row, input_type, known_row, type_of_field};
use crate::texts::{
    enum_message, input_message, length_message, list_message, no_name_message, no_object_message,
    null_message, object_message, scalar_message,
};
use language::error::{CheckError, OutOfMemory};
use language::position::Spanning;
use language::scalar::ScalarValue;
use language::types::{BorrowedType, TypeModifier};
use language::value::InputValue;
use meta::arguments::Argument;
use meta::check::CheckedScalar;
use meta::enum_values::EnumValue;
use meta::enums::EnumMetaOf;
use meta::inputs::InputObjectMetaOf;
use meta::kinds::MetaTypeOf;
use meta::scalars::ScalarMetaOf;
use schema::model::{SchemaType, SchemaTypeOf};
use std::alloc::Global;
use std::collections::BTreeMap;

/// Reports each fault of the value of a variable against a type, by a message behind those in `messages`.
///
/// A message is made only where a fault is found. The lists and objects around the value that is checked, and the
/// steps to it, stand on lists in memory, so no depth is too deep. An object takes memory for a map of its values and
/// a set of the names of its fields.
///
/// # Errors
///
/// Out of memory. Some messages may have been added.
pub fn add_faults<'p, S: CheckedScalar>(
    alloc: Global,
    schema: &'p SchemaType<S>,
    value: &InputValue<S>,
    expected: BorrowedType<'p>,
    variable: &str,
    messages: &mut Vec<String>,
) -> Result<(), OutOfMemory>
    requires { is_input_in schema.now (borrowed_shape expected).name ≡ true }
    ensures { OnOk result
        (Adds (Faults schema.now S.may_answer S.text S.str_of value.now (borrowed_shape expected.entry))
        (invalid_text variable.now) (texts_of messages.old) (texts_of messages.new)) }
{
    let mut steps = Vec::new(alloc);
    let mut begun = Vec::new(alloc);
    begin(
        alloc, schema, value, expected, variable, &mut steps, &mut begun, messages,
    )?;
    for _ in 0..u64::MAX {
        if begun.is_empty() {
            return Ok(());
        }
        go_on_last(alloc, schema, variable, &mut steps, &mut begun, messages)?;
    }
    Err(OutOfMemory)
}

// Reports the faults of what is left of the last part, as far as it is checked. What is then left is added.
fn go_on_last<'p, 'v, S: CheckedScalar>(
    alloc: Global,
    schema: &'p SchemaType<S>,
    variable: &str,
    steps: &mut Vec<PathStep<'p>>,
    begun: &mut Vec<Begun<'p, 'v, S, S::Check>>,
    messages: &mut Vec<String>,
) -> Result<(), OutOfMemory>
    requires { All (IsKnown schema.now) begun.old.items }
    ensures leads { OnOk result (GoesOn schema.now S.may_answer S.text S.str_of variable.now
        begun.new.items steps.new.items (texts_of messages.new)
        begun.old.items steps.old.items (texts_of messages.old)) }
    ensures known { OnOk result (All (IsKnown schema.now) begun.new.items) }
{
    match begun.pop() {
        None => Ok(()),
        Some(part) => go_on(alloc, schema, part, variable, steps, begun, messages),
    }
}

// Reports the faults of a value as far as it is checked. What is left of it is added; where nothing is, its step is
// taken back.
fn begin<'p, 'v, S: CheckedScalar>(
    alloc: Global,
    schema: &'p SchemaType<S>,
    value: &'v InputValue<S>,
    expected: BorrowedType<'p>,
    variable: &str,
    steps: &mut Vec<PathStep<'p>>,
    begun: &mut Vec<Begun<'p, 'v, S, S::Check>>,
    messages: &mut Vec<String>,
) -> Result<(), OutOfMemory>
    requires { is_input_in schema.now (borrowed_shape expected).name ≡ true }
    ensures leads { OnOk result (Leads schema.now S.may_answer S.text S.str_of variable.now
        begun.new.items steps.new.items (texts_of messages.new)
        (Adds (Faults schema.now S.may_answer S.text S.str_of value.now (borrowed_shape expected.entry))
        (before_path variable.now steps.old.items))
        begun.old.items steps.old.items (texts_of messages.old)) }
    ensures known { OnOk result (All (IsKnown schema.now) begun.old.items
        → All (IsKnown schema.now) begun.new.items) }
{
    let place = Place {
        variable,
        steps: steps.as_slice(),
    };
    add_lengths_of_one(alloc, value, expected, &place, messages)?;
    match begun_by(alloc, schema, value, expected, &place, messages)? {
        Some(part) => begun.push(part)?,
        None => take_back(steps),
    }
    Ok(())
}

// Takes the last step back, if there is one.
fn take_back(steps: &mut Vec<PathStep<'_>>)
    ensures { reverse steps.new.items ≡ all_but_first (reverse steps.old.items) }
{
    let _ = steps.pop();
}

// Reports the faults of a value as far as it is checked, but for those of a value that stands for lists of one. Answers
// what is left of it.
fn begun_by<'p, 'v, S: CheckedScalar>(
    alloc: Global,
    schema: &'p SchemaType<S>,
    value: &'v InputValue<S>,
    expected: BorrowedType<'p>,
    place: &Place<'_>,
    messages: &mut Vec<String>,
) -> Result<Option<Begun<'p, 'v, S, S::Check>>, OutOfMemory>
    requires { is_input_in schema.now (borrowed_shape expected).name ≡ true }
    ensures told { IfOk result (λ part.
        BeginsAt schema.now S.may_answer S.text S.str_of
        (Others schema.now S.may_answer S.text S.str_of value.now (borrowed_shape expected.entry))
        place.now part messages.old messages.new) }
    ensures known { IfOk result (λ part. IfSome part (IsKnown schema.now)) }
{
    match known_row(schema, expected, value) {
        Row::Nothing => Ok(None),
        Row::Null(at) => {
            add(null_message(alloc, place, at)?, messages)?;
            Ok(None)
        }
        Row::Items(inner, size) => match value {
            InputValue::List(items) => {
                add_length_fault(alloc, size, items.len(), place, messages)?;
                Ok(Some(Begun::Items(inner, items.as_slice(), 0)))
            }
            _ => unreachable!(),
        },
        Row::Named(name) => {
            let meta = input_type(schema, name);
            begun_by_named(alloc, schema, value, meta, place, messages)
        }
    }
}

// The same for a value against metadata.
fn begun_by_named<'p, 'v, S: CheckedScalar>(
    alloc: Global,
    schema: &'p SchemaType<S>,
    value: &'v InputValue<S>,
    meta: &'p MetaTypeOf<S, S::Check>,
    place: &Place<'_>,
    messages: &mut Vec<String>,
) -> Result<Option<Begun<'p, 'v, S, S::Check>>, OutOfMemory>
    requires known { IsIn schema.now meta.now }
    requires input { is_input_meta meta.now ≡ true }
    ensures told { IfOk result (λ part.
        BeginsAt schema.now S.may_answer S.text S.str_of
        (ByName schema.now S.may_answer S.text S.str_of value.now (Some meta.now))
        place.now part messages.old messages.new) }
    ensures known { IfOk result (λ part. IfSome part (IsKnown schema.now)) }
{
    if value.is_null() {
        Ok(None)
    } else {
        begun_by_meta(alloc, schema, value, meta, place, messages)
    }
}

// The same for a value that isn't null.
fn begun_by_meta<'p, 'v, S: CheckedScalar>(
    alloc: Global,
    schema: &'p SchemaType<S>,
    value: &'v InputValue<S>,
    meta: &'p MetaTypeOf<S, S::Check>,
    place: &Place<'_>,
    messages: &mut Vec<String>,
) -> Result<Option<Begun<'p, 'v, S, S::Check>>, OutOfMemory>
    requires known { IsIn schema.now meta.now }
    requires input { is_input_meta meta.now ≡ true }
    ensures told { IfOk result (λ part.
        BeginsAt schema.now S.may_answer S.text S.str_of
        (ByMeta schema.now S.may_answer S.text S.str_of value.now meta.now)
        place.now part messages.old messages.new) }
    ensures known { IfOk result (λ part. IfSome part (IsKnown schema.now)) }
{
    match meta {
        MetaTypeOf::Scalar(scalar) => {
            add_faults_of_scalar(alloc, schema, value, scalar, place, messages)?;
            Ok(None)
        }
        MetaTypeOf::Enum(known) => {
            add_fault_of_enum(alloc, value, known, place, messages)?;
            Ok(None)
        }
        MetaTypeOf::InputObject(object) => match value {
            InputValue::Object(entries) => {
                let told = messages.len();
                let of = begun_object(alloc, entries.as_slice(), value, object, told)?;
                Ok(Some(Begun::Fields(of, 0)))
            }
            _ => {
                add(
                    no_object_message(alloc, place, object.name.as_str())?,
                    messages,
                )?;
                Ok(None)
            }
        },
        _ => unreachable!(),
    }
}

// An object that is begun.
fn begun_object<'p, 'v, S, C>(
    alloc: Global,
    entries: &'v [(Spanning<String>, Spanning<InputValue<S>>)],
    value: &'v InputValue<S>,
    object: &'p InputObjectMetaOf<S, C>,
    told: usize,
) -> Result<BegunObject<'p, 'v, S, C>, OutOfMemory>
    ensures of { IfOk result (λ of. IsBegunOf object.now value.now entries.now told of) }
    ensures places { IfOk result (λ of. HasPlaces of.places entries.now) }
{
    let places = last_places(alloc, entries)?;
    Ok(BegunObject {
        object,
        value,
        entries,
        places,
        told,
    })
}

// Reports the faults of what is left of a part, as far as it is checked. What is then left is added.
fn go_on<'p, 'v, S: CheckedScalar>(
    alloc: Global,
    schema: &'p SchemaType<S>,
    part: Begun<'p, 'v, S, S::Check>,
    variable: &str,
    steps: &mut Vec<PathStep<'p>>,
    begun: &mut Vec<Begun<'p, 'v, S, S::Check>>,
    messages: &mut Vec<String>,
) -> Result<(), OutOfMemory>
    requires { IsKnown schema.now part }
    ensures leads { OnOk result (Leads schema.now S.may_answer S.text S.str_of variable.now
        begun.new.items steps.new.items (texts_of messages.new)
        (Left schema.now S.may_answer S.text S.str_of part.entry (before_path variable.now steps.old.items))
        begun.old.items steps.old.items (texts_of messages.old)) }
    ensures known { OnOk result (All (IsKnown schema.now) begun.old.items
        → All (IsKnown schema.now) begun.new.items) }
{
    match part {
        Begun::Items(inner, items, next) => begin_item(
            alloc, schema, inner, items, next, variable, steps, begun, messages,
        ),
        Begun::Fields(of, next) => {
            next_field(alloc, schema, of, next, variable, steps, begun, messages)
        }
    }
}

// The same for a list, from an item on.
fn begin_item<'p, 'v, S: CheckedScalar>(
    alloc: Global,
    schema: &'p SchemaType<S>,
    inner: BorrowedType<'p>,
    items: &'v [Spanning<InputValue<S>>],
    next: usize,
    variable: &str,
    steps: &mut Vec<PathStep<'p>>,
    begun: &mut Vec<Begun<'p, 'v, S, S::Check>>,
    messages: &mut Vec<String>,
) -> Result<(), OutOfMemory>
    requires { is_input_in schema.now (borrowed_shape inner).name ≡ true }
    ensures leads { OnOk result (Leads schema.now S.may_answer S.text S.str_of variable.now
        begun.new.items steps.new.items (texts_of messages.new)
        (Left schema.now S.may_answer S.text S.str_of (Begun.Items inner.entry items.entry next)
        (before_path variable.now steps.old.items))
        begun.old.items steps.old.items (texts_of messages.old)) }
    ensures known { OnOk result (All (IsKnown schema.now) begun.old.items
        → All (IsKnown schema.now) begun.new.items) }
{
    if next >= items.len() {
        take_back(steps);
        return Ok(());
    }
    let value = &items[next].item;
    begun.push(Begun::Items(inner, items, next + 1))?;
    steps.push(PathStep::Element(next))?;
    begin(
        alloc, schema, value, inner, variable, steps, begun, messages,
    )
}

// The same for an object, from a field on.
fn next_field<'p, 'v, S: CheckedScalar>(
    alloc: Global,
    schema: &'p SchemaType<S>,
    of: BegunObject<'p, 'v, S, S::Check>,
    next: usize,
    variable: &str,
    steps: &mut Vec<PathStep<'p>>,
    begun: &mut Vec<Begun<'p, 'v, S, S::Check>>,
    messages: &mut Vec<String>,
) -> Result<(), OutOfMemory>
    requires { IsKnown schema.now (Begun.Fields of next) }
    ensures leads { OnOk result (Leads schema.now S.may_answer S.text S.str_of variable.now
        begun.new.items steps.new.items (texts_of messages.new)
        (Left schema.now S.may_answer S.text S.str_of (Begun.Fields of.entry next)
        (before_path variable.now steps.old.items))
        begun.old.items steps.old.items (texts_of messages.old)) }
    ensures known { OnOk result (All (IsKnown schema.now) begun.old.items
        → All (IsKnown schema.now) begun.new.items) }
{
    if next < of.object.input_fields.len() {
        begin_field(alloc, schema, of, next, variable, steps, begun, messages)
    } else {
        end_object(alloc, of, variable, steps.as_slice(), messages)?;
        take_back(steps);
        Ok(())
    }
}

// The same for an object of which a field is left.
fn begin_field<'p, 'v, S: CheckedScalar>(
    alloc: Global,
    schema: &'p SchemaType<S>,
    of: BegunObject<'p, 'v, S, S::Check>,
    next: usize,
    variable: &str,
    steps: &mut Vec<PathStep<'p>>,
    begun: &mut Vec<Begun<'p, 'v, S, S::Check>>,
    messages: &mut Vec<String>,
) -> Result<(), OutOfMemory>
    requires known { IsKnown schema.now (Begun.Fields of next) }
    requires left { next < length of.object.now.input_fields.items }
    ensures leads { OnOk result (Leads schema.now S.may_answer S.text S.str_of variable.now
        begun.new.items steps.new.items (texts_of messages.new)
        (Left schema.now S.may_answer S.text S.str_of (Begun.Fields of.entry next)
        (before_path variable.now steps.old.items))
        begun.old.items steps.old.items (texts_of messages.old)) }
    ensures known { OnOk result (All (IsKnown schema.now) begun.old.items
        → All (IsKnown schema.now) begun.new.items) }
{
    let field = &of.object.input_fields[next];
    let name = field.name.as_str();
    let value = last_value_of(of.entries, &of.places, name);
    begun.push(Begun::Fields(of, next + 1))?;
    steps.push(PathStep::Field(name))?;
    begin_given(
        alloc, schema, value, field, variable, steps, begun, messages,
    )
}

// Reports the faults at a field by its value, if it has one, as `begin` does.
fn begin_given<'p, 'v, S: CheckedScalar>(
    alloc: Global,
    schema: &'p SchemaType<S>,
    given: Option<&'v InputValue<S>>,
    field: &'p Argument<S>,
    variable: &str,
    steps: &mut Vec<PathStep<'p>>,
    begun: &mut Vec<Begun<'p, 'v, S, S::Check>>,
    messages: &mut Vec<String>,
) -> Result<(), OutOfMemory>
    requires { is_input_in schema.now (argument_type field.now) ≡ true }
    ensures leads { OnOk result (Leads schema.now S.may_answer S.text S.str_of variable.now
        begun.new.items steps.new.items (texts_of messages.new)
        (Adds (OfGiven schema.now S.may_answer S.text S.str_of (option_copied given.entry) field.now)
        (before_path variable.now steps.old.items))
        begun.old.items steps.old.items (texts_of messages.old)) }
    ensures known { OnOk result (All (IsKnown schema.now) begun.old.items
        → All (IsKnown schema.now) begun.new.items) }
{
    match given {
        Some(value) => {
            let expected = type_of_field(schema, field);
            begin(
                alloc, schema, value, expected, variable, steps, begun, messages,
            )
        }
        None => {
            let place = Place {
                variable,
                steps: steps.as_slice(),
            };
            add_absence(alloc, schema, field, &place, messages)?;
            take_back(steps);
            Ok(())
        }
    }
}

// The value of the last entry of a key.
fn last_value_of<'v, S>(
    entries: &'v [(Spanning<String>, Spanning<InputValue<S>>)],
    places: &BTreeMap<&str, usize>,
    key: &str,
) -> Option<&'v InputValue<S>>
    requires { HasPlaces places.now entries.now }
    ensures { option_copied result ≡ last_value key.now entries.now }
{
    match place_of(places, key) {
        None => None,
        Some(i) => Some(&entries[i].1.item),
    }
}

// Reports the keys of an object that no field has, and where it has no fault, what its check refuses.
fn end_object<S: CheckedScalar>(
    alloc: Global,
    of: BegunObject<'_, '_, S, S::Check>,
    variable: &str,
    steps: &[PathStep<'_>],
    messages: &mut Vec<String>,
) -> Result<(), OutOfMemory>
    ensures { OnOk result (EndsObject S.may_answer S.text S.str_of of.entry (before_path variable.now steps.now)
        (texts_of messages.old) (texts_of messages.new)) }
{
    let place = Place { variable, steps };
    add_unknown_keys(
        alloc,
        of.object.input_fields.as_slice(),
        of.entries,
        &place,
        messages,
    )?;
    if messages.len() == of.told {
        add_refusal_of_object(alloc, of.value, of.object, &place, messages)
    } else {
        Ok(())
    }
}

// Reports an input field that is left out, where it has to be given.
fn add_absence<S, C>(
    alloc: Global,
    schema: &SchemaTypeOf<S, C>,
    field: &Argument<S>,
    place: &Place<'_>,
    messages: &mut Vec<String>,
) -> Result<(), OutOfMemory>
    ensures { OnOk result
        (AddsAt (λ fs. fs ≡ left_out schema.now field.now) place.now messages.old messages.new) }
{
    if is_needed(schema, field) {
        let expected = field.arg_type.as_borrowed();
        add(null_message(alloc, place, expected)?, messages)
    } else {
        Ok(())
    }
}

// Reports each length other than 1 that a type expects, where the value stands for lists of one.
fn add_lengths_of_one<S>(
    alloc: Global,
    value: &InputValue<S>,
    expected: BorrowedType<'_>,
    place: &Place<'_>,
    messages: &mut Vec<String>,
) -> Result<(), OutOfMemory>
    ensures { OnOk result (AddsAt (λ fs. fs ≡ lengths_of value.now (borrowed_shape expected.entry))
        place.now messages.old messages.new) }
{
    match value {
        InputValue::Null | InputValue::List(_) => Ok(()),
        _ => add_lengths(alloc, expected, place, messages),
    }
}

// Reports each length other than 1 that a type expects, outermost first.
fn add_lengths(
    alloc: Global,
    expected: BorrowedType<'_>,
    place: &Place<'_>,
    messages: &mut Vec<String>,
) -> Result<(), OutOfMemory>
    ensures { OnOk result (AddsAt (λ fs. fs ≡ lengths_of_one (reverse (borrowed_shape expected.entry).modifiers))
        place.now messages.old messages.new) }
{
    let mut at = expected;
    while let Some(modifier) = at.modifier() {
        add_length_of_one(alloc, modifier, place, messages)?;
        at = at.borrow_inner();
    }
    Ok(())
}

// Reports the length that a modifier expects, where it is other than 1.
fn add_length_of_one(
    alloc: Global,
    modifier: &TypeModifier,
    place: &Place<'_>,
    messages: &mut Vec<String>,
) -> Result<(), OutOfMemory>
    ensures { OnOk result (AddsAt (λ fs. fs ≡ length_of_one modifier.now) place.now messages.old messages.new) }
{
    match modifier {
        TypeModifier::NonNull => Ok(()),
        TypeModifier::List(size) => add_length_fault(alloc, *size, 1, place, messages),
    }
}

// Reports a list of another length than the expected one.
fn add_length_fault(
    alloc: Global,
    size: Option<usize>,
    found: usize,
    place: &Place<'_>,
    messages: &mut Vec<String>,
) -> Result<(), OutOfMemory>
    ensures { OnOk result (AddsAt (λ fs. fs ≡ wrong_length size found) place.now messages.old messages.new) }
{
    match size {
        None => Ok(()),
        Some(expected) => {
            if expected == found {
                Ok(())
            } else {
                add(length_message(alloc, place, expected, found)?, messages)
            }
        }
    }
}

// Why a check refuses a value, if it does.
fn refusal<S: CheckedScalar>(
    alloc: Global,
    check: &S::Check,
    value: &InputValue<S>,
) -> Result<Option<String>, OutOfMemory>
    ensures { IfOk result (λ why. Answered S.may_answer check.now value.now (option_map string_bytes why)) }
{
    match S::run_check(check, alloc, value) {
        Ok(()) => Ok(None),
        Err(CheckError::Refused(why)) => Ok(Some(why)),
        Err(CheckError::OutOfMemory) => Err(OutOfMemory),
    }
}

// Reports the fault of a value against a scalar.
fn add_faults_of_scalar<S: CheckedScalar>(
    alloc: Global,
    schema: &SchemaType<S>,
    value: &InputValue<S>,
    scalar: &ScalarMetaOf<S::Check>,
    place: &Place<'_>,
    messages: &mut Vec<String>,
) -> Result<(), OutOfMemory>
    ensures { OnOk result (AddsAt
        (Checked S.may_answer (scalar_check scalar.now) value.now
        (scalar_text (string_bytes scalar.now.name) (printed_value S.text S.str_of value.now))
        (accepted_faults schema.now scalar.now (out-InputValue S value.now)))
        place.now messages.old messages.new) }
{
    let name = scalar.name.as_str();
    match refusal(alloc, scalar.input_value_parse_fn(), value)? {
        None => add_fault_of_accepted(alloc, schema, value, scalar, place, messages),
        Some(why) => add(
            scalar_message(alloc, place, name, value, why.as_str())?,
            messages,
        ),
    }
}

// Reports a value that the check of a scalar accepts, where the scalar does not take it.
fn add_fault_of_accepted<S, C>(
    alloc: Global,
    schema: &SchemaTypeOf<S, C>,
    value: &InputValue<S>,
    scalar: &ScalarMetaOf<C>,
    place: &Place<'_>,
    messages: &mut Vec<String>,
) -> Result<(), OutOfMemory>
    ensures { OnOk result
        (AddsAt (λ fs. fs ≡ accepted_faults schema.now scalar.now (out-InputValue S value.now))
        place.now messages.old messages.new) }
{
    if takes_any_value(schema, scalar) {
        Ok(())
    } else {
        add_fault_of_whole(alloc, value, scalar.name.as_str(), place, messages)
    }
}

// Reports a list or an object that stands for a scalar.
fn add_fault_of_whole<S>(
    alloc: Global,
    value: &InputValue<S>,
    name: &str,
    place: &Place<'_>,
    messages: &mut Vec<String>,
) -> Result<(), OutOfMemory>
    ensures { OnOk result
        (AddsAt (λ fs. fs ≡ whole_faults name.now (out-InputValue S value.now))
        place.now messages.old messages.new) }
{
    match value {
        InputValue::List(_) => add(list_message(alloc, place, name)?, messages),
        InputValue::Object(_) => add(object_message(alloc, place, name)?, messages),
        _ => Ok(()),
    }
}

// Reports a value that the check of an input object refuses.
fn add_refusal_of_object<S: CheckedScalar>(
    alloc: Global,
    value: &InputValue<S>,
    object: &InputObjectMetaOf<S, S::Check>,
    place: &Place<'_>,
    messages: &mut Vec<String>,
) -> Result<(), OutOfMemory>
    ensures { OnOk result (AddsAt
        (Checked S.may_answer (input_object_check object.now) value.now
        (input_text (string_bytes object.now.name) (printed_value S.text S.str_of value.now)) [])
        place.now messages.old messages.new) }
{
    match refusal(alloc, object.input_value_parse_fn(), value)? {
        None => Ok(()),
        Some(why) => {
            add(
                input_message(alloc, place, object.name.as_str(), value, why.as_str())?,
                messages,
            )
        }
    }
}

// Reports a value that is not a value of an enum.
fn add_fault_of_enum<S: ScalarValue, C>(
    alloc: Global,
    value: &InputValue<S>,
    known: &EnumMetaOf<C>,
    place: &Place<'_>,
    messages: &mut Vec<String>,
) -> Result<(), OutOfMemory>
    ensures { OnOk result (AddsAt
        (λ fs. fs ≡ enum_faults (string_bytes known.now.name) (map (λ n. string_bytes n.name) known.now.values.items)
        (name_in S.str_of (out-InputValue S value.now)))
        place.now messages.old messages.new) }
{
    match name_of(value) {
        None => add(
            no_name_message(alloc, place, known.name.as_str())?,
            messages,
        ),
        Some(name) => {
            if is_value_of(known.values.as_slice(), name) {
                Ok(())
            } else {
                add(enum_message(alloc, place, known.name.as_str())?, messages)
            }
        }
    }
}

// The name of an enum's value: a string, or an enum value.
fn name_of<S: ScalarValue>(value: &InputValue<S>) -> Option<&str>
    ensures { option_copied result ≡ name_in S.str_of (out-InputValue S value.now) }
{
    match value {
        InputValue::Scalar(scalar) => scalar.try_as_str(),
        InputValue::Enum(name) => Some(name.as_str()),
        _ => None,
    }
}

fn is_value_of(values: &[EnumValue], name: &str) -> bool
    ensures { result ≡ is_among (map (λ n. string_bytes n.name) values.now) name.now }
{
    for known in values {
        if known.name.as_str() == name {
            return true;
        }
    }
    false
}
