//! What no contract says: that the printed forms are those of GraphQL, and that calls succeed.

use language::error::{CheckError, OutOfMemory, ParseError};
use language::position::{SourcePosition, Span, Spanning};
use language::scalar::{ScalarToken, ScalarValue};
use language::spreads::spread_names;
use language::tree::{
    Arguments, Field, FragmentSpread, InlineFragment, Selection, VariableDefinition,
    VariableDefinitions,
};
use language::types::{BorrowedType, Type, TypeModifier};
use language::value::{DefaultScalarValue, InputValue, Variables};
use std::alloc::{AllocError, Global};
use std::process::Abort;

type Value = InputValue<DefaultScalarValue>;

type Set<'a> = Vec<Selection<'a, DefaultScalarValue>>;

/// A list of one item.
fn alone<T: Drop>(alloc: Global, only: T) -> Result<Vec<T>, OutOfMemory> {
    let mut list = Vec::new(alloc);
    list.push(only)?;
    Ok(list)
}

/// Asserts that the text is this one.
fn says(rt: &impl Abort, said: Result<String, AllocError>, want: &str) {
    let said = said.expect(rt, "memory");
    assert_eq!(rt; said.as_str(), want);
}

fn at(index: usize) -> Span {
    Span {
        start: SourcePosition::new(index, 0, index),
        end: SourcePosition::new(index, 0, index),
    }
}

fn here<T>(item: T) -> Spanning<T> {
    Spanning { item, span: at(0) }
}

fn text(alloc: Global, s: &str) -> Result<String, AllocError> {
    String::from_str(alloc, s)
}

fn list(items: Vec<Spanning<Value>>) -> Value {
    InputValue::List(items)
}

fn object(entries: Vec<(Spanning<String>, Spanning<Value>)>) -> Value {
    InputValue::Object(entries)
}

fn int(n: i32) -> Value {
    InputValue::Scalar(DefaultScalarValue::Int(n))
}

fn string(alloc: Global, s: &str) -> Result<Value, AllocError> {
    Ok(InputValue::Scalar(DefaultScalarValue::String(text(alloc, s)?)))
}

fn variable(alloc: Global, s: &str) -> Result<Value, AllocError> {
    Ok(InputValue::Variable(text(alloc, s)?))
}

/// `{k: [1, "a", SIT], l: $v}`
fn sample(alloc: Global) -> Result<Value, AllocError> {
    let list = InputValue::List(vec![in alloc;
        here(int(1)),
        here(string(alloc, "a")?),
        here(InputValue::Enum(text(alloc, "SIT")?)),
    ]?);
    Ok(InputValue::Object(vec![in alloc;
        (here(text(alloc, "k")?), here(list)),
        (here(text(alloc, "l")?), here(variable(alloc, "v")?)),
    ]?))
}

#[test]
fn positions_print_line_and_column_and_are_ordered(rt: HostRuntime) {
    let alloc = rt.alloc();
    let place = SourcePosition::new(7, 2, 3);
    says(&rt, place.to_string(alloc), "2:3");
    says(
        &rt,
        SourcePosition::new(20_000, 12, 1234).to_string(alloc),
        "12:1234",
    );
    assert_eq!(rt; (place.index(), place.line(), place.column()), (7, 2, 3));
    for (small, large) in [
        (SourcePosition::new(1, 9, 9), SourcePosition::new(2, 0, 0)),
        (SourcePosition::new(1, 1, 9), SourcePosition::new(1, 2, 0)),
        (SourcePosition::new(1, 1, 1), SourcePosition::new(1, 1, 2)),
    ] {
        assert!(rt; small < large);
    }
}

/// `[[Int!]]!`; the outer list has the expected size 2.
fn wrapped(alloc: Global) -> Result<Type, OutOfMemory> {
    Type::nullable(alloc, "Int")?
        .wrap_non_null()?
        .wrap_non_null()?
        .wrap_list(None)?
        .wrap_list(Some(2))?
        .wrap_non_null()
}

#[test]
fn types_print_their_modifiers(rt: HostRuntime) {
    let alloc = rt.alloc();
    let wrapped = wrapped(alloc).expect(&rt, "memory");
    says(&rt, wrapped.to_string(alloc), "[[Int!]]!");
    assert_eq!(rt; (wrapped.innermost_name(), wrapped.name()), ("Int", None));
    assert_eq!(rt; wrapped.modifiers().len(), 4);
    assert!(rt; wrapped.modifier() == Some(&TypeModifier::NonNull));
    says(&rt, wrapped.borrow_inner().to_string(alloc), "[[Int!]]");
    let items = wrapped.borrow_list_inner().expect(&rt, "a list");
    says(&rt, items.to_string(alloc), "[Int!]");
    assert!(rt; wrapped.clone().expect(&rt, "memory") == wrapped);
    says(&rt, wrapped.into_nullable().to_string(alloc), "[[Int!]]");
}

#[test]
fn borrowed_types_answer_for_themselves(rt: HostRuntime) {
    let alloc = rt.alloc();
    let dog = BorrowedType::non_null("Dog");
    says(&rt, dog.to_string(alloc), "Dog!");
    assert_eq!(rt; (dog.name(), dog.is_non_null()), (Some("Dog"), true));
    assert!(rt; dog.borrow_list_inner().is_none());
    assert!(rt; dog.borrow_inner() == BorrowedType::nullable("Dog"));
    assert!(rt; BorrowedType::nullable("Dog").borrow_inner() == BorrowedType::nullable("Dog"));
    let owned = Type::non_null(alloc, "Dog").expect(&rt, "memory");
    assert!(rt; owned.as_borrowed() == dog);
}

/// `[Int]` with this expected size.
fn sized(alloc: Global, size: usize) -> Result<Type, OutOfMemory> {
    Type::nullable(alloc, "Int")?.wrap_list(Some(size))
}

#[test]
fn lists_of_another_size_are_others(rt: HostRuntime) {
    let two = sized(rt.alloc(), 2).expect(&rt, "memory");
    assert!(rt; two != sized(rt.alloc(), 3).expect(&rt, "memory"));
}

#[test]
fn values_print_as_they_are_written(rt: HostRuntime) {
    let alloc = rt.alloc();
    let truth: Value = InputValue::Scalar(DefaultScalarValue::Boolean(true));
    let none: Value = InputValue::Null;
    says(&rt, none.to_string(alloc), "null");
    says(&rt, truth.to_string(alloc), "true");
    says(&rt, list(Vec::new(alloc)).to_string(alloc), "[]");
    says(&rt, object(Vec::new(alloc)).to_string(alloc), "{}");
    let one = alone(alloc, here(int(-1))).expect(&rt, "memory");
    says(&rt, list(one).to_string(alloc), "[-1]");
    let sample = sample(alloc).expect(&rt, "memory");
    says(&rt, sample.to_string(alloc), "{k: [1, \"a\", SIT], l: $v}");
}

#[test]
fn values_answer_by_kind(rt: HostRuntime) {
    let alloc = rt.alloc();
    let value = sample(alloc).expect(&rt, "memory");
    assert!(rt; !value.is_null());
    assert!(rt; value.to_list_value(alloc).expect(&rt, "memory").is_none());
    let entries = value
        .to_object_value(alloc)
        .expect(&rt, "memory")
        .expect(&rt, "an object");
    assert_eq!(rt; entries.len(), 2);
    let list = entries.get("k").expect(&rt, "k");
    let items = list
        .to_list_value(alloc)
        .expect(&rt, "memory")
        .expect(&rt, "a list");
    assert_eq!(rt; items.len(), 3);
    assert!(rt; list.to_object_value(alloc).expect(&rt, "memory").is_none());
}

#[test]
fn copies_are_the_same(rt: HostRuntime) {
    let alloc = rt.alloc();
    let value = sample(alloc).expect(&rt, "memory");
    assert!(rt; value.unlocated_eq(&sample(alloc).expect(&rt, "memory")));
    assert!(rt; value.clone().expect(&rt, "memory") == value);
    let mut values: Variables = Variables::new(alloc);
    let name = text(alloc, "v").expect(&rt, "memory");
    let put: Result<_, _> = values.insert(name, value);
    assert!(rt; put.is_ok());
    assert_eq!(rt; values.len(), 1);
}

/// An object with two integers.
fn two_entries(
    alloc: Global,
    first: (&str, i32),
    second: (&str, i32),
) -> Result<Value, OutOfMemory> {
    Ok(object(vec![in alloc;
        (here(text(alloc, first.0)?), here(int(first.1))),
        (here(text(alloc, second.0)?), here(int(second.1))),
    ]?))
}

#[test]
fn the_last_entry_of_a_key_wins(rt: HostRuntime) {
    let alloc = rt.alloc();
    let value = two_entries(alloc, ("k", 1), ("k", 2)).expect(&rt, "memory");
    let entries = value
        .to_object_value(alloc)
        .expect(&rt, "memory")
        .expect(&rt, "an object");
    assert_eq!(rt; entries.len(), 1);
    assert!(rt; entries.get("k").expect(&rt, "k").unlocated_eq(&int(2)));
}

#[test]
fn places_and_order_of_keys_do_not_count(rt: HostRuntime) {
    let alloc = rt.alloc();
    let left = two_entries(alloc, ("a", 1), ("b", 2)).expect(&rt, "memory");
    let right = two_entries(alloc, ("b", 2), ("a", 1)).expect(&rt, "memory");
    assert!(rt; left.unlocated_eq(&right));
    assert!(rt; left != right);
    let repeated = two_entries(alloc, ("a", 1), ("a", 1)).expect(&rt, "memory");
    assert!(rt; repeated.unlocated_eq(&left));
    assert!(rt; !left.unlocated_eq(&repeated));
}

#[test]
fn places_do_not_count(rt: HostRuntime) {
    let alloc = rt.alloc();
    let left = list(alone(alloc, here(int(2))).expect(&rt, "memory"));
    let far = Spanning {
        item: int(2),
        span: at(9),
    };
    let right = list(alone(alloc, far).expect(&rt, "memory"));
    assert!(rt; left.unlocated_eq(&right));
    assert!(rt; left != right);
}

/// `[$b, {k: $a}, $b]`
fn with_variables(alloc: Global) -> Result<Value, OutOfMemory> {
    let entry = (here(text(alloc, "k")?), here(variable(alloc, "a")?));
    let entries = object(vec![in alloc; entry]?);
    let first = here(variable(alloc, "b")?);
    Ok(list(vec![in alloc; first, here(entries), here(variable(alloc, "b")?)]?))
}

#[test]
fn variables_come_in_order_with_repeats(rt: HostRuntime) {
    let value = with_variables(rt.alloc()).expect(&rt, "memory");
    let names = value.referenced_variables(rt.alloc()).expect(&rt, "memory");
    assert_eq!(rt; names.as_slice(), ["b", "a", "b"].as_slice());
}

/// `{k: [x], k: [y]}`
fn two_lists(alloc: Global, x: i32, y: i32) -> Result<Value, OutOfMemory> {
    let first = list(alone(alloc, here(int(x)))?);
    let second = list(alone(alloc, here(int(y)))?);
    let first = (here(text(alloc, "k")?), here(first));
    let second = (here(text(alloc, "k")?), here(second));
    Ok(object(vec![in alloc; first, second]?))
}

#[test]
fn any_entry_of_a_key_can_be_the_equal_one(rt: HostRuntime) {
    let alloc = rt.alloc();
    let left = two_lists(alloc, 1, 1).expect(&rt, "memory");
    let right = two_lists(alloc, 2, 1).expect(&rt, "memory");
    assert!(rt; left.unlocated_eq(&right));
    assert!(rt; !right.unlocated_eq(&left));
}

/// More levels than calls that call themselves have room for on the stack.
const LEVELS: usize = 200_000;

/// `[{k: $v}]`, each list in another.
fn nested(alloc: Global) -> Result<Value, OutOfMemory> {
    let entry = (here(text(alloc, "k")?), here(variable(alloc, "v")?));
    let mut value = object(alone(alloc, entry)?);
    for _ in 0..LEVELS {
        value = list(alone(alloc, here(value))?);
    }
    Ok(value)
}

#[test]
fn no_value_is_too_deep(rt: HostRuntime) {
    let alloc = rt.alloc();
    let value = nested(alloc).expect(&rt, "memory");
    assert!(rt; value.unlocated_eq(&nested(alloc).expect(&rt, "memory")));
    let names = value.referenced_variables(alloc).expect(&rt, "memory");
    assert_eq!(rt; names.as_slice(), ["v"].as_slice());
    let shown = value.to_string(alloc).expect(&rt, "memory");
    assert_eq!(rt; shown.as_str().len(), 2 * LEVELS + "{k: $v}".len());
}

#[test]
fn copies_of_deep_values_are_the_same(rt: HostRuntime) {
    let value = nested(rt.alloc()).expect(&rt, "memory");
    let copied = value.clone().expect(&rt, "memory");
    assert!(rt; copied == value);
    let shown = format!(in rt.alloc(); "{copied:?}").expect(&rt, "memory");
    assert_eq!(rt; shown.as_str().len(), 2 * LEVELS + "{k: $v}".len());
}

#[test]
fn no_selection_set_is_too_deep(rt: HostRuntime) {
    let alloc = rt.alloc();
    let mut set = alone(alloc, spread("A")).expect(&rt, "memory");
    for _ in 0..LEVELS {
        set = alone(alloc, field(set)).expect(&rt, "memory");
    }
    let names = spread_names(alloc, set.as_slice()).expect(&rt, "memory");
    assert_eq!(rt; names.as_slice(), ["A"].as_slice());
}

fn spread<'a>(name: &'a str) -> Selection<'a, DefaultScalarValue> {
    Selection::FragmentSpread(here(FragmentSpread {
        name: here(name),
        directives: None,
    }))
}

fn field<'a>(set: Set<'a>) -> Selection<'a, DefaultScalarValue> {
    Selection::Field(here(Field {
        alias: None,
        name: here("dog"),
        arguments: None,
        directives: None,
        selection_set: Some(set),
    }))
}

fn inline<'a>(set: Set<'a>) -> Selection<'a, DefaultScalarValue> {
    Selection::InlineFragment(here(InlineFragment {
        type_condition: None,
        directives: None,
        selection_set: set,
    }))
}

#[test]
fn spreads_are_found_at_any_depth(rt: HostRuntime) {
    let alloc = rt.alloc();
    let field = field(alone(alloc, spread("A")).expect(&rt, "memory"));
    let spreads: Result<_, _> = vec![in alloc; spread("B"), spread("A")];
    let inline = inline(spreads.expect(&rt, "memory"));
    let set: Result<_, _> = vec![in alloc; field, inline];
    let set = set.expect(&rt, "memory");
    let names = spread_names(alloc, set.as_slice()).expect(&rt, "memory");
    assert_eq!(rt; names.as_slice(), ["A", "B", "A"].as_slice());
}

#[test]
fn arguments_are_found_by_the_first_of_a_name(rt: HostRuntime) {
    let alloc = rt.alloc();
    let items: Result<_, _> = vec![in alloc; (here("x"), here(int(1))), (here("x"), here(int(2)))];
    let arguments = Arguments {
        items: items.expect(&rt, "memory"),
    };
    assert_eq!(rt; (arguments.len(), arguments.is_empty()), (2, false));
    assert_eq!(rt; arguments.iter().count(), 2);
    assert!(rt; arguments.get("x").expect(&rt, "x").item == int(1));
    assert!(rt; arguments.get("y").is_none());
}

#[test]
fn variables_are_found_by_name(rt: HostRuntime) {
    let alloc = rt.alloc();
    let definition: VariableDefinition<'_, DefaultScalarValue> = VariableDefinition {
        var_type: here(Type::nullable(alloc, "Int").expect(&rt, "memory")),
        default_value: None,
        directives: None,
    };
    let definitions = VariableDefinitions {
        items: alone(alloc, (here("v"), definition)).expect(&rt, "memory"),
    };
    assert_eq!(rt; (definitions.len(), definitions.is_empty()), (1, false));
    assert_eq!(rt; definitions.iter().count(), 1);
    assert!(rt; definitions.get("v").is_some());
    assert!(rt; definitions.get("w").is_none());
}

#[test]
fn scalars_are_read_and_copied(rt: HostRuntime) {
    let word = DefaultScalarValue::String(text(rt.alloc(), "a").expect(&rt, "memory"));
    assert_eq!(rt; word.try_as_str(), Some("a"));
    assert_eq!(rt; DefaultScalarValue::Int(1).try_as_str(), None);
    assert!(rt; word.clone().expect(&rt, "memory") == word);
    assert!(rt; ScalarToken::Int("1") != ScalarToken::String("1"));
}

#[test]
fn refusals_print_their_text(rt: HostRuntime) {
    let alloc = rt.alloc();
    let refused = CheckError::Refused(text(alloc, "not a value of Int").expect(&rt, "memory"));
    assert_eq!(rt; refused.message(), Some("not a value of Int"));
    says(&rt, refused.to_string(alloc), "not a value of Int");
    assert_eq!(rt; CheckError::OutOfMemory.message(), None);
    says(
        &rt,
        ParseError::OutOfMemory.to_string(alloc),
        "out of memory",
    );
    says(&rt, OutOfMemory.to_string(alloc), "out of memory");
}

/// Two counts from the sample and whether it equals itself, or out of memory.
fn said_of_sample(alloc: Global) -> Result<(usize, usize, bool), OutOfMemory> {
    let value = sample(alloc)?;
    let entries = value.to_object_value(alloc)?;
    let variables = value.referenced_variables(alloc)?;
    let wrapped = Type::non_null(alloc, "Int")?.wrap_list(None)?;
    let shown = (wrapped.to_string(alloc)?, value.to_string(alloc)?);
    Ok((
        entries.map_or(0, |found| found.len()) + variables.len(),
        shown.0.len() + shown.1.len(),
        value.unlocated_eq(&value),
    ))
}

/// Run with each allocation failing in turn: the result is the same, or out of memory.
#[test]
fn a_refused_request_changes_no_answer(rt: HostRuntime) {
    match said_of_sample(rt.alloc()) {
        Ok(said) => assert_eq!(rt; said, (3, 31, true)),
        Err(OutOfMemory) => (),
    }
}
