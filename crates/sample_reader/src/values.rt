//! Values made anew.
use crate::error::ReadError;
use crate::trees::Source;
use graphql_reader::SourceScalar;
use language::error::OutOfMemory;
use language::position::Spanning;
use language::value::{DefaultScalarValue, InputValue};
use std::alloc::{AllocError, Global};
use std::mem;
use std::slice::Iter;

type Read = InputValue<SourceScalar>;

type Value = InputValue<DefaultScalarValue>;

type Keyed<V> = (Spanning<String>, Spanning<V>);

// What is left of a list or of an object, and what is made of it. A list or an object inside of it stands there as `null`
// until it is made.
#[derive(Drop)]
struct Begun<'t, R, M> {
    left: Iter<'t, R>,
    made: Vec<M>,
}

impl<'t, R, M> Begun<'t, R, M> {
    fn new(alloc: Global, list: &'t Vec<R>) -> Result<Begun<'t, R, M>, AllocError> {
        Ok(Begun {
            left: list.iter(),
            made: Vec::with_capacity(alloc, list.len())?,
        })
    }
}

#[derive(Drop)]
enum Values<'t> {
    List(Begun<'t, Spanning<Read>, Spanning<Value>>),
    Object(Begun<'t, Keyed<Read>, Keyed<Value>>),
}

impl<'t> Values<'t> {
    // Makes the next value, and begins it if it is a list or an object. `None` if none is left.
    fn turn(&mut self, alloc: Global) -> Result<Option<Option<Values<'t>>>, ReadError> {
        match self {
            Values::List(begun) => {
                let Some(read) = begun.left.next() else {
                    return Ok(None);
                };
                let (value, inside) = begin(alloc, read)?;
                begun.made.push(value)?;
                Ok(Some(inside))
            }
            Values::Object(begun) => {
                let Some((key, read)) = begun.left.next() else {
                    return Ok(None);
                };
                let (value, inside) = begin(alloc, read)?;
                begun.made.push((key.clone()?, value))?;
                Ok(Some(inside))
            }
        }
    }

    // Puts a value into the place that was made last.
    fn give(&mut self, value: Value) {
        match self {
            Values::List(begun) => if let Some(last) = begun.made.last_mut() {
                last.item = value;
            },
            Values::Object(begun) => if let Some(last) = begun.made.last_mut() {
                last.1.item = value;
            },
        }
    }

    fn end(self) -> Value {
        match self {
            Values::List(begun) => InputValue::List(begun.made),
            Values::Object(begun) => InputValue::Object(begun.made),
        }
    }
}

// The value without the values in it, which it holds if it is a list or an object.
fn begin(
    alloc: Global,
    read: &Spanning<Read>,
) -> Result<(Spanning<Value>, Option<Values<'_>>), OutOfMemory> {
    let mut inside = None;
    let item = match &read.item {
        InputValue::Null => InputValue::Null,
        InputValue::Scalar(scalar) => InputValue::Scalar(made_scalar(scalar)?),
        InputValue::Enum(name) => InputValue::Enum(name.clone()?),
        InputValue::Variable(name) => InputValue::Variable(name.clone()?),
        InputValue::List(items) => {
            inside = Some(Values::List(Begun::new(alloc, items)?));
            InputValue::Null
        }
        InputValue::Object(entries) => {
            inside = Some(Values::Object(Begun::new(alloc, entries)?));
            InputValue::Null
        }
    };
    let span = read.span;
    Ok((Spanning { item, span }, inside))
}

// The text has no float, and no number past 32 bits.
fn made_scalar(scalar: &SourceScalar) -> Result<DefaultScalarValue, OutOfMemory> {
    Ok(match scalar {
        SourceScalar::Int(digits) => DefaultScalarValue::Int(digits.as_str().parse().unwrap_or(0)),
        SourceScalar::Boolean(truth) => DefaultScalarValue::Boolean(*truth),
        SourceScalar::String(text) | SourceScalar::Float(text) => {
            DefaultScalarValue::String(text.clone()?)
        }
    })
}

impl Source<'_> {
    /// The value made anew. What is begun stands on a list in memory, so no depth is too deep.
    pub(crate) fn value(&self, read: &Spanning<Read>) -> Result<Spanning<Value>, ReadError> {
        let (mut value, inside) = begin(self.alloc, read)?;
        if let Some(values) = inside {
            value.item = self.holder(values)?;
        }
        Ok(value)
    }

    fn holder(&self, mut begun: Values<'_>) -> Result<Value, ReadError> {
        let mut outer = Vec::new(self.alloc);
        // Each turn takes a byte of the text.
        for _ in 0..=self.text.len() {
            if let Some(inside) = begun.turn(self.alloc)? {
                if let Some(inside) = inside {
                    outer.push(mem::replace(&mut begun, inside))?;
                }
            } else {
                let Some(holder) = outer.pop() else {
                    return Ok(begun.end());
                };
                let value = mem::replace(&mut begun, holder).end();
                begun.give(value);
            }
        }
        Err(ReadError::OutOfMemory)
    }
}
