//! The events of definitions, one at a time.

ghost use Rattle.std.specs.Prelude.{◌≡◌, [], ◌∷◌, OnOk, IfOk};
ghost use Rattle.std.specs.Option.{option_copied};
ghost use Rattle.events.specs.Node;
ghost use Rattle.events.specs.Typing.{at_items};
ghost use Rattle.events.specs.Outline.{each, node_with, if_there, outline_of_value, outline_of_object_field};
ghost use Rattle.events.specs.Outline.{outline_of_argument, outline_of_arguments, outline_of_directive};
ghost use Rattle.events.specs.Outline.{outline_of_directives, outline_of_variable_definition};
ghost use Rattle.events.specs.Outline.{outline_of_variable_definitions, outline_of_set, outline_of_set_if_there};
ghost use Rattle.events.specs.Outline.{outline_of_selection, outline_of_spread, outline_of_field, outline_of_inline};
ghost use Rattle.events.specs.Outline.{outline_of_operation, outline_of_fragment, outline_of_definition};
ghost use Rattle.events.specs.TypedEvent.{events_of};
ghost use Rattle.events.specs.Typing.{Typing};
ghost use Rattle.events.specs.EventValue.{typed_event, typing_of};
ghost use Rattle.events.specs.Place.{node_of_place, node_of_value, node_of_selection, node_of_definition};
ghost use Rattle.events.specs.Place.{inside_value, entered, left, first_of};
ghost use Rattle.events.specs.Cursor.{frame_events, part_events, node_events, rest_events, events_left};
ghost use Rattle.events.specs.Cursor.{Pushes, Enters, EntersIn, IsPopped, IsFirst, IsNextLeft};

use crate::event::Event;
use crate::typed_events::{TypesOf, arguments_of_directive, arguments_of_field};
use language::error::OutOfMemory;
use language::position::{Span, Spanning};
use language::tree::{
    Arguments, Definition, Directive, Field, Fragment, FragmentSpread, InlineFragment, Operation,
    Selection, VariableDefinition, VariableDefinitions,
};
use language::value::InputValue;
use meta::Argument;
use meta::check::CheckedScalar;
use schema::model::SchemaTypeOf;
use std::alloc::Global;

// A node that was entered, and is left once what stands in it was walked.
#[derive(Drop)]
enum Place<'a, S> {
    Operation(&'a Spanning<Operation<'a, S>>),
    Fragment(&'a Spanning<Fragment<'a, S>>),
    Variable(&'a (Spanning<&'a str>, VariableDefinition<'a, S>)),
    Directive(&'a Spanning<Directive<'a, S>>),
    Argument(&'a (Spanning<&'a str>, Spanning<InputValue<S>>)),
    Set(&'a [Selection<'a, S>]),
    Field(&'a Spanning<Field<'a, S>>),
    Spread(&'a Spanning<FragmentSpread<'a, S>>),
    Inline(&'a Spanning<InlineFragment<'a, S>>),
    Value(&'a Spanning<InputValue<S>>),
    Entry(&'a (Spanning<String>, Spanning<InputValue<S>>)),
}

// A part of a document whose events are still to come. The rest of a list has a first item, so each part has an event.
#[derive(Drop)]
enum Part<'a, S> {
    Exit(Place<'a, S>),
    Definitions(&'a Definition<'a, S>, &'a [Definition<'a, S>]),
    Variables(
        &'a (Spanning<&'a str>, VariableDefinition<'a, S>),
        &'a [(Spanning<&'a str>, VariableDefinition<'a, S>)],
    ),
    Directives(&'a Spanning<Directive<'a, S>>, &'a [Spanning<Directive<'a, S>>]),
    Arguments(
        Option<&'a [Argument<S>]>,
        &'a (Spanning<&'a str>, Spanning<InputValue<S>>),
        &'a [(Spanning<&'a str>, Spanning<InputValue<S>>)],
    ),
    Set(&'a [Selection<'a, S>]),
    Selections(&'a Selection<'a, S>, &'a [Selection<'a, S>]),
    Value(&'a Spanning<InputValue<S>>),
    Items(&'a Spanning<InputValue<S>>, &'a [Spanning<InputValue<S>>]),
    Entries(
        &'a (Spanning<String>, Spanning<InputValue<S>>),
        &'a [(Spanning<String>, Spanning<InputValue<S>>)],
    ),
}

// A part with the types around it, or a node that is left with those at it.
#[derive(Drop)]
struct Frame<'a, S, C> {
    part: Part<'a, S>,
    types: TypesOf<'a, S, C>,
}

/// The remaining events of a list of definitions, in the order of a walk, each with the types at its node.
///
/// It takes memory for the nodes around the current one, and none for the rest of the document.
#[derive(Drop)]
pub struct EventCursorOf<'a, S, C> {
    schema: &'a SchemaTypeOf<S, C>,
    frames: Vec<Frame<'a, S, C>>,
}

pub type EventCursor<'a, S> = EventCursorOf<'a, S, <S as CheckedScalar>::Check>;

// The event of entering a value.
fn entered_value<'a, S, C>(value: &'a Spanning<InputValue<S>>) -> Event<'a, S>
    ensures { (t : Typing S C) → typed_event result t ≡ entered (node_of_value value.now) t }
{
    let span = &value.span;
    match &value.item {
        InputValue::Null => Event::EnterNullValue(span),
        InputValue::Scalar(item) => Event::EnterScalarValue(Spanning { item, span }),
        InputValue::Enum(item) => Event::EnterEnumValue(Spanning { item, span }),
        InputValue::Variable(item) => Event::EnterVariableValue(Spanning { item, span }),
        InputValue::List(item) => Event::EnterListValue(Spanning { item, span }),
        InputValue::Object(item) => Event::EnterObjectValue(Spanning { item, span }),
    }
}

// The event of leaving a value.
fn left_value<'a, S, C>(value: &'a Spanning<InputValue<S>>) -> Event<'a, S>
    ensures { (t : Typing S C) → typed_event result t ≡ left (node_of_value value.now) t }
{
    let span = &value.span;
    match &value.item {
        InputValue::Null => Event::ExitNullValue(span),
        InputValue::Scalar(item) => Event::ExitScalarValue(Spanning { item, span }),
        InputValue::Enum(item) => Event::ExitEnumValue(Spanning { item, span }),
        InputValue::Variable(item) => Event::ExitVariableValue(Spanning { item, span }),
        InputValue::List(item) => Event::ExitListValue(Spanning { item, span }),
        InputValue::Object(item) => Event::ExitObjectValue(Spanning { item, span }),
    }
}

// The event of entering a selection.
fn entered_selection<'a, S, C>(selection: &'a Selection<'a, S>) -> Event<'a, S>
    ensures { (t : Typing S C) → typed_event result t ≡ entered (node_of_selection selection.now) t }
{
    match selection {
        Selection::Field(field) => Event::EnterField(field),
        Selection::FragmentSpread(spread) => Event::EnterFragmentSpread(spread),
        Selection::InlineFragment(fragment) => Event::EnterInlineFragment(fragment),
    }
}

// The event of entering a definition.
fn entered_definition<'a, S, C>(definition: &'a Definition<'a, S>) -> Event<'a, S>
    ensures { (t : Typing S C) → typed_event result t ≡ entered (node_of_definition definition.now) t }
{
    match definition {
        Definition::Operation(operation) => Event::EnterOperationDefinition(operation),
        Definition::Fragment(fragment) => Event::EnterFragmentDefinition(fragment),
    }
}

// The event of entering a field of an object.
fn entered_entry<'a, S, C>(entry: &'a (Spanning<String>, Spanning<InputValue<S>>)) -> Event<'a, S>
    ensures { (t : Typing S C) → typed_event result t ≡ entered (Node.object_field entry.now) t }
{
    let (key, value) = entry;
    Event::EnterObjectField(
        Spanning {
            item: &key.item,
            span: &key.span,
        },
        Spanning {
            item: &value.item,
            span: &value.span,
        },
    )
}

// The event of leaving a field of an object.
fn left_entry<'a, S, C>(entry: &'a (Spanning<String>, Spanning<InputValue<S>>)) -> Event<'a, S>
    ensures { (t : Typing S C) → typed_event result t ≡ left (Node.object_field entry.now) t }
{
    let (key, value) = entry;
    Event::ExitObjectField(
        Spanning {
            item: &key.item,
            span: &key.span,
        },
        Spanning {
            item: &value.item,
            span: &value.span,
        },
    )
}

// The slice that stands behind a reference.
fn behind<'a, T>(slice: &&'a [T]) -> &'a [T]
    ensures { result ≡ slice.now }
{
    *slice
}

// The event of leaving a node.
fn left_place<'a, S, C>(place: &Place<'a, S>) -> Event<'a, S>
    ensures { (t : Typing S C) → typed_event result t ≡ left (node_of_place place.now) t }
{
    match place {
        Place::Operation(operation) => Event::ExitOperationDefinition(*operation),
        Place::Fragment(fragment) => Event::ExitFragmentDefinition(*fragment),
        Place::Variable(variable) => Event::ExitVariableDefinition(*variable),
        Place::Directive(directive) => Event::ExitDirective(*directive),
        Place::Argument(argument) => Event::ExitArgument(*argument),
        Place::Set(set) => Event::ExitSelectionSet(behind(set)),
        Place::Field(field) => Event::ExitField(*field),
        Place::Spread(spread) => Event::ExitFragmentSpread(*spread),
        Place::Inline(fragment) => Event::ExitInlineFragment(*fragment),
        Place::Value(value) => left_value::<S, C>(*value),
        Place::Entry(entry) => left_entry::<S, C>(*entry),
    }
}

// The first event of a part.
fn first_event<'a, S, C>(part: &Part<'a, S>) -> Event<'a, S>
    ensures { (t : Typing S C) → typed_event result t ≡ first_of part.now t }
{
    match part {
        Part::Exit(place) => left_place::<S, C>(place),
        Part::Definitions(first, _) => entered_definition::<S, C>(*first),
        Part::Variables(first, _) => Event::EnterVariableDefinition(*first),
        Part::Directives(first, _) => Event::EnterDirective(*first),
        Part::Arguments(_, first, _) => Event::EnterArgument(*first),
        Part::Set(set) => Event::EnterSelectionSet(behind(set)),
        Part::Selections(first, _) => entered_selection::<S, C>(*first),
        Part::Value(value) => entered_value::<S, C>(*value),
        Part::Items(first, _) => entered_value::<S, C>(*first),
        Part::Entries(first, _) => entered_entry::<S, C>(*first),
    }
}

// Puts a part on the stack, whose events come before those that are there.
fn push_part<'a, S, C>(
    part: Part<'a, S>,
    types: &TypesOf<'a, S, C>,
    frames: &mut Vec<Frame<'a, S, C>>,
) -> Result<(), OutOfMemory>
    ensures { OnOk result (Pushes frames.old frames.new
        (λ schema. frame_events schema (record { part = part.entry; types = types.now }))) }
{
    frames.push(Frame {
        part,
        types: *types,
    })?;
    Ok(())
}

// Puts on the stack that a node is left.
fn push_exit<'a, S, C>(
    place: Place<'a, S>,
    types: &TypesOf<'a, S, C>,
    frames: &mut Vec<Frame<'a, S, C>>,
) -> Result<(), OutOfMemory>
    ensures { OnOk result (Pushes frames.old frames.new
        (λ schema. left (node_of_place place.entry) (typing_of types.now) ∷ [])) }
{
    push_part(Part::Exit(place), types, frames)
}

// Puts on the stack the items of a list, at their types.
fn push_items<'a, S, C>(
    items: &'a [Spanning<InputValue<S>>],
    types: &TypesOf<'a, S, C>,
    frames: &mut Vec<Frame<'a, S, C>>,
) -> Result<(), OutOfMemory>
    ensures { OnOk result (Pushes frames.old frames.new
        (λ schema. events_of (each (outline_of_value schema (typing_of types.now)) items.now))) }
{
    match items.split_first() {
        Some((first, rest)) => push_part(Part::Items(first, rest), types, frames),
        None => Ok(()),
    }
}

// Puts on the stack the fields of an object.
fn push_entries<'a, S, C>(
    items: &'a [(Spanning<String>, Spanning<InputValue<S>>)],
    types: &TypesOf<'a, S, C>,
    frames: &mut Vec<Frame<'a, S, C>>,
) -> Result<(), OutOfMemory>
    ensures { OnOk result (Pushes frames.old frames.new
        (λ schema. events_of (each (outline_of_object_field schema (typing_of types.now)) items.now))) }
{
    match items.split_first() {
        Some((first, rest)) => push_part(Part::Entries(first, rest), types, frames),
        None => Ok(()),
    }
}

// Puts on the stack arguments, whose types are looked up among the known ones.
fn push_arguments<'a, S, C>(
    known: Option<&'a [Argument<S>]>,
    items: &'a [(Spanning<&'a str>, Spanning<InputValue<S>>)],
    types: &TypesOf<'a, S, C>,
    frames: &mut Vec<Frame<'a, S, C>>,
) -> Result<(), OutOfMemory>
    ensures { OnOk result (Pushes frames.old frames.new (λ schema. events_of
        (each (outline_of_argument schema (option_copied known.entry) (typing_of types.now)) items.now))) }
{
    match items.split_first() {
        Some((first, rest)) => push_part(Part::Arguments(known, first, rest), types, frames),
        None => Ok(()),
    }
}

// Puts on the stack directives.
fn push_directives<'a, S, C>(
    items: &'a [Spanning<Directive<'a, S>>],
    types: &TypesOf<'a, S, C>,
    frames: &mut Vec<Frame<'a, S, C>>,
) -> Result<(), OutOfMemory>
    ensures { OnOk result (Pushes frames.old frames.new
        (λ schema. events_of (each (outline_of_directive schema (typing_of types.now)) items.now))) }
{
    match items.split_first() {
        Some((first, rest)) => push_part(Part::Directives(first, rest), types, frames),
        None => Ok(()),
    }
}

// Puts on the stack variable definitions.
fn push_variables<'a, S, C>(
    items: &'a [(Spanning<&'a str>, VariableDefinition<'a, S>)],
    types: &TypesOf<'a, S, C>,
    frames: &mut Vec<Frame<'a, S, C>>,
) -> Result<(), OutOfMemory>
    ensures { OnOk result (Pushes frames.old frames.new
        (λ schema. events_of (each (outline_of_variable_definition schema (typing_of types.now)) items.now))) }
{
    match items.split_first() {
        Some((first, rest)) => push_part(Part::Variables(first, rest), types, frames),
        None => Ok(()),
    }
}

// Puts on the stack the selections of a set, at its types.
fn push_selections<'a, S, C>(
    items: &'a [Selection<'a, S>],
    types: &TypesOf<'a, S, C>,
    frames: &mut Vec<Frame<'a, S, C>>,
) -> Result<(), OutOfMemory>
    ensures { OnOk result (Pushes frames.old frames.new
        (λ schema. events_of (each (outline_of_selection schema (typing_of types.now)) items.now))) }
{
    match items.split_first() {
        Some((first, rest)) => push_part(Part::Selections(first, rest), types, frames),
        None => Ok(()),
    }
}

// Puts on the stack definitions.
fn push_definitions<'a, S, C>(
    items: &'a [Definition<'a, S>],
    types: &TypesOf<'a, S, C>,
    frames: &mut Vec<Frame<'a, S, C>>,
) -> Result<(), OutOfMemory>
    ensures { OnOk result (Pushes frames.old frames.new
        (λ schema. events_of (each (outline_of_definition schema (typing_of types.now)) items.now))) }
{
    match items.split_first() {
        Some((first, rest)) => push_part(Part::Definitions(first, rest), types, frames),
        None => Ok(()),
    }
}

// Puts on the stack arguments, where there are some.
fn push_written_arguments<'a, S, C>(
    known: Option<&'a [Argument<S>]>,
    written: &'a Option<Spanning<Arguments<'a, S>>>,
    types: &TypesOf<'a, S, C>,
    frames: &mut Vec<Frame<'a, S, C>>,
) -> Result<(), OutOfMemory>
    ensures { OnOk result (Pushes frames.old frames.new (λ schema. events_of
        (outline_of_arguments schema (option_copied known.entry) (typing_of types.now) written.now))) }
{
    match written {
        Some(list) => push_arguments(known, list.item.items.as_slice(), types, frames),
        None => Ok(()),
    }
}

// Puts on the stack directives, where there are some.
fn push_written_directives<'a, S, C>(
    written: &'a Option<Vec<Spanning<Directive<'a, S>>>>,
    types: &TypesOf<'a, S, C>,
    frames: &mut Vec<Frame<'a, S, C>>,
) -> Result<(), OutOfMemory>
    ensures { OnOk result (Pushes frames.old frames.new
        (λ schema. events_of (outline_of_directives schema (typing_of types.now) written.now))) }
{
    match written {
        Some(list) => push_directives(list.as_slice(), types, frames),
        None => Ok(()),
    }
}

// Puts on the stack variable definitions, where there are some.
fn push_written_variables<'a, S, C>(
    written: &'a Option<Spanning<VariableDefinitions<'a, S>>>,
    types: &TypesOf<'a, S, C>,
    frames: &mut Vec<Frame<'a, S, C>>,
) -> Result<(), OutOfMemory>
    ensures { OnOk result (Pushes frames.old frames.new
        (λ schema. events_of (outline_of_variable_definitions schema (typing_of types.now) written.now))) }
{
    match written {
        Some(list) => push_variables(list.item.items.as_slice(), types, frames),
        None => Ok(()),
    }
}

// Puts on the stack a default value, where there is one.
fn push_default_value<'a, S, C>(
    written: &'a Option<Spanning<InputValue<S>>>,
    types: &TypesOf<'a, S, C>,
    frames: &mut Vec<Frame<'a, S, C>>,
) -> Result<(), OutOfMemory>
    ensures { OnOk result (Pushes frames.old frames.new
        (λ schema. events_of (if_there (outline_of_value schema (typing_of types.now)) written.now))) }
{
    match written {
        Some(value) => push_part(Part::Value(value), types, frames),
        None => Ok(()),
    }
}

// Puts on the stack a selection set.
fn push_set<'a, S, C>(
    set: &'a Vec<Selection<'a, S>>,
    types: &TypesOf<'a, S, C>,
    frames: &mut Vec<Frame<'a, S, C>>,
) -> Result<(), OutOfMemory>
    ensures { OnOk result (Pushes frames.old frames.new
        (λ schema. events_of (outline_of_set schema (typing_of types.now) set.now.items))) }
{
    push_part(Part::Set(set.as_slice()), types, frames)
}

// Puts on the stack a selection set, where there is one.
fn push_written_set<'a, S, C>(
    written: &'a Option<Vec<Selection<'a, S>>>,
    types: &TypesOf<'a, S, C>,
    frames: &mut Vec<Frame<'a, S, C>>,
) -> Result<(), OutOfMemory>
    ensures { OnOk result (Pushes frames.old frames.new
        (λ schema. events_of (outline_of_set_if_there schema (typing_of types.now) written.now))) }
{
    match written {
        Some(set) => push_set(set, types, frames),
        None => Ok(()),
    }
}

// Puts on the stack what stands in a value.
fn push_inside_value<'a, S, C>(
    value: &'a InputValue<S>,
    types: &TypesOf<'a, S, C>,
    frames: &mut Vec<Frame<'a, S, C>>,
) -> Result<(), OutOfMemory>
    ensures { OnOk result (Pushes frames.old frames.new
        (λ schema. events_of (inside_value schema (typing_of types.now) value.now))) }
{
    match value {
        InputValue::Null => Ok(()),
        InputValue::Scalar(_) => Ok(()),
        InputValue::Enum(_) => Ok(()),
        InputValue::Variable(_) => Ok(()),
        InputValue::List(items) => push_items(items.as_slice(), &types.at_items(), frames),
        InputValue::Object(entries) => push_entries(entries.as_slice(), types, frames),
    }
}

// Enters a value, at whose node the types are those around it.
fn enter_value<'a, S, C>(
    value: &'a Spanning<InputValue<S>>,
    types: &TypesOf<'a, S, C>,
    frames: &mut Vec<Frame<'a, S, C>>,
) -> Result<(), OutOfMemory>
    ensures { OnOk result (Enters (entered (node_of_value value.now)) types.now frames.old frames.new
        (λ schema. events_of (outline_of_value schema (typing_of types.now) value.now))) }
{
    push_exit(Place::Value(value), types, frames)?;
    push_inside_value(&value.item, types, frames)
}

// Enters a field of an object.
//
// Each function that enters a node finds the types around it in `at`, and leaves there those at the node.
fn enter_entry<'a, S, C>(
    schema: &'a SchemaTypeOf<S, C>,
    entry: &'a (Spanning<String>, Spanning<InputValue<S>>),
    at: &mut TypesOf<'a, S, C>,
    frames: &mut Vec<Frame<'a, S, C>>,
) -> Result<(), OutOfMemory>
    ensures { OnOk result (EntersIn schema.now (entered (Node.object_field entry.now)) at.new frames.old frames.new
        (events_of (outline_of_object_field schema.now (typing_of at.old) entry.now))) }
{
    let (key, value) = entry;
    at.go_to_object_field(schema, key.item.as_str());
    push_exit(Place::Entry(entry), at, frames)?;
    push_part(Part::Value(value), at, frames)
}

// Enters an argument, whose type is looked up among the known ones.
fn enter_argument<'a, S, C>(
    known: Option<&'a [Argument<S>]>,
    argument: &'a (Spanning<&'a str>, Spanning<InputValue<S>>),
    at: &mut TypesOf<'a, S, C>,
    frames: &mut Vec<Frame<'a, S, C>>,
) -> Result<(), OutOfMemory>
    ensures { OnOk result (Enters (entered (Node.argument argument.now)) at.new frames.old frames.new
        (λ schema. events_of
        (outline_of_argument schema (option_copied known.entry) (typing_of at.old) argument.now))) }
{
    let (name, value) = argument;
    at.go_to_argument(known, name.item);
    push_exit(Place::Argument(argument), at, frames)?;
    push_part(Part::Value(value), at, frames)
}

// Enters a directive, at whose node the types are those around it.
fn enter_directive<'a, S, C>(
    schema: &'a SchemaTypeOf<S, C>,
    directive: &'a Spanning<Directive<'a, S>>,
    types: &TypesOf<'a, S, C>,
    frames: &mut Vec<Frame<'a, S, C>>,
) -> Result<(), OutOfMemory>
    ensures { OnOk result (EntersIn schema.now (entered (Node.directive directive.now)) types.now frames.old frames.new
        (events_of (outline_of_directive schema.now (typing_of types.now) directive.now))) }
{
    push_exit(Place::Directive(directive), types, frames)?;
    let known = arguments_of_directive(schema, directive.item.name.item);
    push_written_arguments(known, &directive.item.arguments, types, frames)
}

// Enters a variable definition.
fn enter_variable<'a, S, C>(
    definition: &'a (Spanning<&'a str>, VariableDefinition<'a, S>),
    at: &mut TypesOf<'a, S, C>,
    frames: &mut Vec<Frame<'a, S, C>>,
) -> Result<(), OutOfMemory>
    ensures { OnOk result (Enters (entered (Node.variable_definition definition.now)) at.new frames.old frames.new
        (λ schema. events_of (outline_of_variable_definition schema (typing_of at.old) definition.now))) }
{
    let (_, variable) = definition;
    at.go_to_variable(variable);
    push_exit(Place::Variable(definition), at, frames)?;
    push_written_directives(&variable.directives, at, frames)?;
    push_default_value(&variable.default_value, at, frames)
}

// Enters a selection set.
fn enter_set<'a, S, C>(
    set: &'a [Selection<'a, S>],
    at: &mut TypesOf<'a, S, C>,
    frames: &mut Vec<Frame<'a, S, C>>,
) -> Result<(), OutOfMemory>
    ensures { OnOk result (Enters (entered (Node.selection_set set.now)) at.new frames.old frames.new
        (λ schema. events_of (outline_of_set schema (typing_of at.old) set.now))) }
{
    at.go_to_set();
    push_exit(Place::Set(set), at, frames)?;
    push_selections(set, at, frames)
}

// Enters a field.
fn enter_field<'a, S, C>(
    schema: &'a SchemaTypeOf<S, C>,
    field: &'a Spanning<Field<'a, S>>,
    at: &mut TypesOf<'a, S, C>,
    frames: &mut Vec<Frame<'a, S, C>>,
) -> Result<(), OutOfMemory>
    ensures { OnOk result (EntersIn schema.now (entered (Node.field field.now)) at.new frames.old frames.new
        (events_of (outline_of_field schema.now (typing_of at.old) field.now))) }
{
    at.go_to_field(schema, field.item.name.item);
    push_exit(Place::Field(field), at, frames)?;
    push_written_set(&field.item.selection_set, at, frames)?;
    push_written_directives(&field.item.directives, at, frames)?;
    let known = arguments_of_field(at.parent, field.item.name.item);
    push_written_arguments(known, &field.item.arguments, at, frames)
}

// Enters a fragment spread, at whose node the types are those around it.
fn enter_spread<'a, S, C>(
    spread: &'a Spanning<FragmentSpread<'a, S>>,
    types: &TypesOf<'a, S, C>,
    frames: &mut Vec<Frame<'a, S, C>>,
) -> Result<(), OutOfMemory>
    ensures { OnOk result (Enters (entered (Node.fragment_spread spread.now)) types.now frames.old frames.new
        (λ schema. events_of (outline_of_spread schema (typing_of types.now) spread.now))) }
{
    push_exit(Place::Spread(spread), types, frames)?;
    push_written_directives(&spread.item.directives, types, frames)
}

// Enters an inline fragment.
fn enter_inline<'a, S, C>(
    schema: &'a SchemaTypeOf<S, C>,
    fragment: &'a Spanning<InlineFragment<'a, S>>,
    at: &mut TypesOf<'a, S, C>,
    frames: &mut Vec<Frame<'a, S, C>>,
) -> Result<(), OutOfMemory>
    ensures { OnOk result (EntersIn schema.now (entered (Node.inline_fragment fragment.now)) at.new frames.old frames.new
        (events_of (outline_of_inline schema.now (typing_of at.old) fragment.now))) }
{
    at.go_to_condition(schema, &fragment.item.type_condition);
    push_exit(Place::Inline(fragment), at, frames)?;
    push_set(&fragment.item.selection_set, at, frames)?;
    push_written_directives(&fragment.item.directives, at, frames)
}

// Enters a selection.
fn enter_selection<'a, S, C>(
    schema: &'a SchemaTypeOf<S, C>,
    selection: &'a Selection<'a, S>,
    at: &mut TypesOf<'a, S, C>,
    frames: &mut Vec<Frame<'a, S, C>>,
) -> Result<(), OutOfMemory>
    ensures { OnOk result (EntersIn schema.now (entered (node_of_selection selection.now)) at.new frames.old frames.new
        (events_of (outline_of_selection schema.now (typing_of at.old) selection.now))) }
{
    match selection {
        Selection::Field(field) => enter_field(schema, field, at, frames),
        Selection::FragmentSpread(spread) => enter_spread(spread, at, frames),
        Selection::InlineFragment(fragment) => enter_inline(schema, fragment, at, frames),
    }
}

// Enters an operation.
fn enter_operation<'a, S, C>(
    schema: &'a SchemaTypeOf<S, C>,
    operation: &'a Spanning<Operation<'a, S>>,
    at: &mut TypesOf<'a, S, C>,
    frames: &mut Vec<Frame<'a, S, C>>,
) -> Result<(), OutOfMemory>
    ensures { OnOk result (EntersIn schema.now (entered (Node.operation_definition operation.now)) at.new frames.old frames.new
        (events_of (outline_of_operation schema.now (typing_of at.old) operation.now))) }
{
    at.go_to_operation(schema, operation.item.operation_type);
    push_exit(Place::Operation(operation), at, frames)?;
    push_set(&operation.item.selection_set, at, frames)?;
    push_written_directives(&operation.item.directives, at, frames)?;
    push_written_variables(&operation.item.variable_definitions, at, frames)
}

// Enters a fragment definition.
fn enter_fragment<'a, S, C>(
    schema: &'a SchemaTypeOf<S, C>,
    fragment: &'a Spanning<Fragment<'a, S>>,
    at: &mut TypesOf<'a, S, C>,
    frames: &mut Vec<Frame<'a, S, C>>,
) -> Result<(), OutOfMemory>
    ensures { OnOk result (EntersIn schema.now (entered (Node.fragment_definition fragment.now)) at.new frames.old frames.new
        (events_of (outline_of_fragment schema.now (typing_of at.old) fragment.now))) }
{
    at.go_to_named(schema, fragment.item.type_condition.item);
    push_exit(Place::Fragment(fragment), at, frames)?;
    push_set(&fragment.item.selection_set, at, frames)?;
    push_written_directives(&fragment.item.directives, at, frames)
}

// Enters a definition.
fn enter_definition<'a, S, C>(
    schema: &'a SchemaTypeOf<S, C>,
    definition: &'a Definition<'a, S>,
    at: &mut TypesOf<'a, S, C>,
    frames: &mut Vec<Frame<'a, S, C>>,
) -> Result<(), OutOfMemory>
    ensures { OnOk result (EntersIn schema.now (entered (node_of_definition definition.now)) at.new frames.old frames.new
        (events_of (outline_of_definition schema.now (typing_of at.old) definition.now))) }
{
    match definition {
        Definition::Operation(operation) => enter_operation(schema, operation, at, frames),
        Definition::Fragment(fragment) => enter_fragment(schema, fragment, at, frames),
    }
}

// Puts on the stack what comes after the first node of a part.
fn push_rest<'a, S, C>(
    part: &Part<'a, S>,
    types: &TypesOf<'a, S, C>,
    frames: &mut Vec<Frame<'a, S, C>>,
) -> Result<(), OutOfMemory>
    ensures { OnOk result (Pushes frames.old frames.new
        (λ schema. rest_events schema part.now (typing_of types.now))) }
{
    match part {
        Part::Exit(_) => Ok(()),
        Part::Definitions(_, rest) => push_definitions(behind(rest), types, frames),
        Part::Variables(_, rest) => push_variables(behind(rest), types, frames),
        Part::Directives(_, rest) => push_directives(behind(rest), types, frames),
        Part::Arguments(known, _, rest) => push_arguments(*known, behind(rest), types, frames),
        Part::Set(_) => Ok(()),
        Part::Selections(_, rest) => push_selections(behind(rest), types, frames),
        Part::Value(_) => Ok(()),
        Part::Items(_, rest) => push_items(behind(rest), types, frames),
        Part::Entries(_, rest) => push_entries(behind(rest), types, frames),
    }
}

// Enters the first node of a part.
fn enter_first<'a, S, C>(
    schema: &'a SchemaTypeOf<S, C>,
    part: &Part<'a, S>,
    at: &mut TypesOf<'a, S, C>,
    frames: &mut Vec<Frame<'a, S, C>>,
) -> Result<(), OutOfMemory>
    ensures { OnOk result (EntersIn schema.now (first_of part.now) at.new frames.old frames.new
        (node_events schema.now part.now (typing_of at.old))) }
{
    match part {
        Part::Exit(_) => Ok(()),
        Part::Definitions(first, _) => enter_definition(schema, *first, at, frames),
        Part::Variables(first, _) => enter_variable(*first, at, frames),
        Part::Directives(first, _) => enter_directive(schema, *first, at, frames),
        Part::Arguments(known, first, _) => enter_argument(*known, *first, at, frames),
        Part::Set(set) => enter_set(behind(set), at, frames),
        Part::Selections(first, _) => enter_selection(schema, *first, at, frames),
        Part::Value(value) => enter_value(*value, at, frames),
        Part::Items(first, _) => enter_value(*first, at, frames),
        Part::Entries(first, _) => enter_entry(schema, *first, at, frames),
    }
}

// Takes the part on top of the stack, and writes the types around it to `at`.
fn pop_part<'a, S, C>(
    at: &mut TypesOf<'a, S, C>,
    frames: &mut Vec<Frame<'a, S, C>>,
) -> Option<Part<'a, S>>
    ensures { IsPopped result (typing_of at.new) frames.old frames.new }
{
    match frames.pop() {
        Some(frame) => {
            *at = frame.types;
            Some(frame.part)
        }
        None => None,
    }
}

// Enters a part: returns its first event, and leaves the others on the stack.
fn enter_part<'a, S, C>(
    schema: &'a SchemaTypeOf<S, C>,
    part: &Part<'a, S>,
    at: &mut TypesOf<'a, S, C>,
    frames: &mut Vec<Frame<'a, S, C>>,
) -> Result<Option<Event<'a, S>>, OutOfMemory>
    ensures { IfOk result (λ found. IsFirst schema.now found (typing_of at.new) frames.old frames.new
        (part_events schema.now part.now (typing_of at.old))) }
{
    push_rest(part, at, frames)?;
    enter_first(schema, part, at, frames)?;
    Ok(Some(first_event::<S, C>(part)))
}

impl<'a, S, C> EventCursorOf<'a, S, C> {
    /// Starts a cursor before the first event of these definitions; `types` are those at the node around them.
    ///
    /// # Errors
    ///
    /// Out of memory.
    pub fn over(
        alloc: Global,
        schema: &'a SchemaTypeOf<S, C>,
        definitions: &'a [Definition<'a, S>],
        types: TypesOf<'a, S, C>,
    ) -> Result<Self, OutOfMemory>
        ensures { IfOk result (λ cursor. events_left cursor
            ≡ events_of (each (outline_of_definition schema.now (typing_of types.entry)) definitions.now)) }
    {
        let mut frames = Vec::new(alloc);
        push_definitions(definitions, &types, &mut frames)?;
        Ok(EventCursorOf { schema, frames })
    }

    /// Takes the next event; `None` once all events were taken.
    ///
    /// Writes the types at the event's node to `at`, so that no event is copied along with its types.
    ///
    /// # Errors
    ///
    /// Out of memory. The events that are left and `at` are then unspecified.
    pub fn next(&mut self, at: &mut TypesOf<'a, S, C>) -> Result<Option<Event<'a, S>>, OutOfMemory>
        ensures { IfOk result (λ found. IsNextLeft found (typing_of at.new) self.old self.new) }
    {
        match pop_part(at, &mut self.frames) {
            Some(part) => enter_part(self.schema, &part, at, &mut self.frames),
            None => Ok(None),
        }
    }
}
