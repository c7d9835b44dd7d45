//! Rules that hear of single events, as no walk tells them.

use crate::schemas::schema;
use language::position::{SourcePosition, Span, Spanning};
use language::shorten::shorten;
use language::tree::{Document, Fragment, Operation};
use sample_reader::read_document;
use std::alloc::Global;
use validation::rules::{
    known_directives, no_fragment_cycles, overlapping_fields_can_be_merged,
    unique_input_field_names,
};
use validation::{
    CheckedScalar, Definition, Event, InputValue, OutOfMemory, SchemaType, Selection,
    ValidatorContext, Visitor,
};

/// The operation has a field with a directive that is unknown; the fragment spreads itself.
const TEXT: &str = "{ dog @nope { ...F } } fragment F on Dog { ...F }";

/// The entries of an object.
type Keys<S> = Vec<(Spanning<String>, Spanning<InputValue<S>>)>;

/// Stands for an answer where the text has no such node.
const MISSING: usize = usize::MAX;

/// Tells a rule of these events, and answers how many errors it reports.
fn told<'a, S: CheckedScalar, V: Visitor<'a, S> + Drop>(
    alloc: Global,
    schema: &'a SchemaType<S>,
    mut rule: V,
    events: &[Event<'a, S>],
) -> Result<usize, OutOfMemory> {
    let mut ctx = ValidatorContext::new(alloc, schema, &[])?;
    for event in events {
        rule.on(&mut ctx, event)?;
    }
    Ok(ctx.into_errors()?.len())
}

// Nodes are left that were not entered.
fn told_of_operation<'a, S: CheckedScalar>(
    alloc: Global,
    schema: &'a SchemaType<S>,
    operation: &'a Spanning<Operation<'a, S>>,
) -> Result<usize, OutOfMemory> {
    let rule = known_directives::factory(alloc);
    match operation.item.selection_set.first() {
        Some(Selection::Field(field)) => {
            let events = [
                Event::ExitField(field),
                Event::ExitOperationDefinition(operation),
            ];
            told(alloc, schema, rule, &events)
        }
        _ => Ok(MISSING),
    }
}

// A definition is entered twice, and the document is left that was not entered.
fn told_of_fragment<'a, S: CheckedScalar>(
    alloc: Global,
    schema: &'a SchemaType<S>,
    document: Document<'a, S>,
    fragment: &'a Spanning<Fragment<'a, S>>,
) -> Result<usize, OutOfMemory> {
    let events = [
        Event::EnterFragmentDefinition(fragment),
        Event::EnterFragmentDefinition(fragment),
        Event::ExitDocument(document),
    ];
    told(alloc, schema, no_fragment_cycles::factory(alloc), &events)
}

// A set is entered outside of every document.
fn told_of_set<'a, S: CheckedScalar>(
    alloc: Global,
    schema: &'a SchemaType<S>,
    fragment: &'a Spanning<Fragment<'a, S>>,
) -> Result<usize, OutOfMemory> {
    let events = [Event::EnterSelectionSet(fragment.item.selection_set.as_slice())];
    let rule = overlapping_fields_can_be_merged::factory(alloc);
    told(alloc, schema, rule, &events)
}

// An object is left that was not entered, and then a key is entered outside of every object.
fn told_of_key<'a, S: CheckedScalar>(
    alloc: Global,
    schema: &'a SchemaType<S>,
    keys: Spanning<&'a Keys<S>, &'a Span>,
    key: Spanning<&'a String, &'a Span>,
    value: Spanning<&'a InputValue<S>, &'a Span>,
) -> Result<usize, OutOfMemory> {
    let events = [
        Event::ExitObjectValue(keys),
        Event::EnterObjectField(key, value),
    ];
    told(
        alloc,
        schema,
        unique_input_field_names::factory(alloc),
        &events,
    )
}

fn told_of_object<S: CheckedScalar>(
    alloc: Global,
    schema: &SchemaType<S>,
) -> Result<usize, OutOfMemory> {
    let place = SourcePosition::new(0, 0, 0);
    let span = &Span {
        start: place,
        end: place,
    };
    let (keys, key, value) = (Vec::new(alloc), String::new(alloc), InputValue::Null);
    told_of_key(
        alloc,
        schema,
        Spanning { item: &keys, span },
        Spanning { item: &key, span },
        Spanning { item: &value, span },
    )
}

fn told_of_definitions<'a, S: CheckedScalar>(
    alloc: Global,
    schema: &'a SchemaType<S>,
    document: Document<'a, S>,
    operation: &'a Spanning<Operation<'a, S>>,
    fragment: &'a Spanning<Fragment<'a, S>>,
) -> Result<[usize; 4], OutOfMemory> {
    Ok([
        told_of_operation(alloc, schema, operation)?,
        told_of_fragment(alloc, schema, document, fragment)?,
        told_of_set(alloc, schema, fragment)?,
        told_of_object(alloc, schema)?,
    ])
}

fn told_each<'a, S: CheckedScalar>(
    alloc: Global,
    schema: &'a SchemaType<S>,
    document: Document<'a, S>,
) -> Result<[usize; 4], OutOfMemory> {
    match document.first() {
        Some(Definition::Operation(operation)) => match document.last() {
            Some(Definition::Fragment(fragment)) => {
                told_of_definitions(alloc, schema, document, operation, fragment)
            }
            _ => Ok([MISSING; 4]),
        },
        _ => Ok([MISSING; 4]),
    }
}

#[test]
fn events_out_of_order(rt: HostRuntime) {
    let alloc = rt.alloc();
    let schema = schema(alloc, "pets").expect(&rt, "the list is accepted");
    let document = read_document(alloc, TEXT.as_bytes()).expect(&rt, "it is a document");
    let told = told_each(alloc, &schema, shorten(document.as_slice())).expect(&rt, "memory");
    assert_eq!(rt; told, [0, 1, 0, 0]);
}
