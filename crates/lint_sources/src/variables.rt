//! Values of variables, from a JSON object (GraphQL, October 2021, section 6.1.2).
use crate::json_text::{JsonError, read_value, without_mark};
use crate::text_places::position_at;
use json::{Scratch, Value};
use language_types::error::OutOfMemory;
use language_types::position::{SourcePosition, Span, Spanning};
use language_values::value::{InputValue, Variables};
use sdl_scalars::scalar::SourceScalar;
use std::alloc::Global;
use std::collections::BTreeMap;

type Entry = (Spanning<String>, Spanning<InputValue<SourceScalar>>);

/// The values of variables in a JSON object, by name. Of a repeated name the last value counts.
///
/// A string stays a string; it may stand for an enum value, since JSON has no other form for one. A number without
/// fraction and exponent is an integer, any other is a float. Numbers keep their text.
///
/// # Errors
///
/// The text is not a JSON object, or out of memory.
pub fn read_variables(alloc: Global, text: &str) -> Result<Variables<SourceScalar>, JsonError> {
    let mut scratch = Scratch::new(alloc);
    match read_value(alloc, text, &mut scratch)? {
        Value::Object(members) => Ok(variables_of(alloc, members.as_slice())?),
        _ => Err(JsonError::NoObject(start_of(text))),
    }
}

// The start of the value of a text.
fn start_of(text: &str) -> SourcePosition {
    let written = without_mark(text).trim_start();
    position_at(text.as_bytes(), text.len().saturating_sub(written.len()))
}

fn variables_of(
    alloc: Global,
    members: &[(&str, Value<'_>)],
) -> Result<Variables<SourceScalar>, OutOfMemory> {
    let mut variables = BTreeMap::new(alloc);
    for (name, value) in members {
        variables.insert(String::from_str(alloc, name)?, value_of(alloc, value)?)?;
    }
    Ok(variables)
}

// What a list or an object holds so far.
#[derive(Drop)]
enum Begun {
    List(Vec<Spanning<InputValue<SourceScalar>>>),
    Object(Vec<Entry>),
}

impl Begun {
    // How many values it holds.
    fn len(&self) -> usize {
        match self {
            Begun::List(items) => items.len(),
            Begun::Object(entries) => entries.len(),
        }
    }

    // Adds a value, in an object for this key.
    fn add(
        &mut self,
        alloc: Global,
        key: &str,
        value: InputValue<SourceScalar>,
    ) -> Result<(), OutOfMemory> {
        match self {
            Begun::List(items) => items.push(unplaced(value))?,
            Begun::Object(entries) => {
                let key = String::from_str(alloc, key)?;
                entries.push((unplaced(key), unplaced(value)))?;
            }
        }
        Ok(())
    }

    // The value, if nothing is left to be added.
    fn end(self) -> InputValue<SourceScalar> {
        match self {
            Begun::List(items) => InputValue::List(items),
            Begun::Object(entries) => InputValue::Object(entries),
        }
    }
}

// What a value holds at an index, if it holds so much.
fn inside<'v, 'a>(value: &'v Value<'a>, index: usize) -> Option<&'v Value<'a>> {
    match value {
        Value::Array(values) => values.get(index),
        Value::Object(members) => match members.get(index) {
            Some(member) => Some(&member.1),
            None => None,
        },
        _ => None,
    }
}

// The key of an object at an index.
fn key_inside<'v>(value: &'v Value<'_>, index: usize) -> &'v str {
    match value {
        Value::Object(members) => match members.get(index) {
            Some(member) => member.0,
            None => "",
        },
        _ => "",
    }
}

/// A JSON value as an input value. What is begun stands on a list in memory, so no depth is too deep for the machine's
/// stack.
///
/// # Errors
///
/// Out of memory.
pub fn value_of(alloc: Global, value: &Value<'_>) -> Result<InputValue<SourceScalar>, OutOfMemory> {
    let mut begun = Vec::new(alloc);
    let mut made = begin(alloc, value, &mut begun)?;
    for _ in 0..u64::MAX {
        if let Some(whole) = place(alloc, made, &mut begun)? {
            return Ok(whole);
        }
        made = go_on(alloc, &mut begun)?;
    }
    Err(OutOfMemory)
}

// The value, unless it is a list or an object, which is begun.
fn begin<'v, 'a>(
    alloc: Global,
    value: &'v Value<'a>,
    begun: &mut Vec<(&'v Value<'a>, Begun)>,
) -> Result<Option<InputValue<SourceScalar>>, OutOfMemory> {
    Ok(Some(match value {
        Value::Null => InputValue::Null,
        Value::Bool(truth) => InputValue::Scalar(SourceScalar::Boolean(*truth)),
        Value::Number(number) => InputValue::Scalar(number_of(alloc, number)?),
        Value::String(text) => {
            InputValue::Scalar(SourceScalar::String(String::from_str(alloc, text)?))
        }
        Value::Array(_) => {
            begun.push((value, Begun::List(Vec::new(alloc))))?;
            return Ok(None);
        }
        Value::Object(_) => {
            begun.push((value, Begun::Object(Vec::new(alloc))))?;
            return Ok(None);
        }
    }))
}

// Puts a value, if there is one, into the list or object that is begun; where none is, it is the whole value.
fn place<'v, 'a>(
    alloc: Global,
    made: Option<InputValue<SourceScalar>>,
    begun: &mut Vec<(&'v Value<'a>, Begun)>,
) -> Result<Option<InputValue<SourceScalar>>, OutOfMemory> {
    let Some(value) = made else {
        return Ok(None);
    };
    let Some((json, mut last)) = begun.pop() else {
        return Ok(Some(value));
    };
    last.add(alloc, key_inside(json, last.len()), value)?;
    begun.push((json, last))?;
    Ok(None)
}

// Begins the next value, or ends what is begun where none is left in it.
fn go_on<'v, 'a>(
    alloc: Global,
    begun: &mut Vec<(&'v Value<'a>, Begun)>,
) -> Result<Option<InputValue<SourceScalar>>, OutOfMemory> {
    let Some((json, last)) = begun.pop() else {
        return Ok(None);
    };
    match inside(json, last.len()) {
        None => Ok(Some(last.end())),
        Some(value) => {
            begun.push((json, last))?;
            begin(alloc, value, begun)
        }
    }
}

// A number without fraction and exponent is an integer (section 2.9.1).
fn number_of(alloc: Global, number: &str) -> Result<SourceScalar, OutOfMemory> {
    let text = String::from_str(alloc, number)?;
    let is_float = number
        .bytes()
        .any(|byte| byte == b'.' || byte == b'e' || byte == b'E');
    Ok(if is_float {
        SourceScalar::Float(text)
    } else {
        SourceScalar::Int(text)
    })
}

// Values of variables have no position in a document.
fn unplaced<T>(item: T) -> Spanning<T> {
    let start = SourcePosition::new(0, 0, 0);
    Spanning {
        item,
        span: Span { start, end: start },
    }
}
