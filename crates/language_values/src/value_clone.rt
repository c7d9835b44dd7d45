//! `clone` of values, by a loop, so that no depth is too deep for the machine's stack.
use crate::value::InputValue;
use language_types::position::{Span, Spanning};
use std::alloc::{AllocError, Global};

impl<S: Clone> Clone for InputValue<S> {
    fn clone(&self) -> Result<InputValue<S>, AllocError> {
        match self {
            InputValue::List(items) => copy(*items.allocator(), self),
            InputValue::Object(entries) => copy(*entries.allocator(), self),
            InputValue::Null => Ok(InputValue::Null),
            InputValue::Scalar(scalar) => Ok(InputValue::Scalar(scalar.clone()?)),
            InputValue::Enum(name) => Ok(InputValue::Enum(name.clone()?)),
            InputValue::Variable(name) => Ok(InputValue::Variable(name.clone()?)),
        }
    }
}

// A list or an object of which some values are copied, and those that are left. Where it waits the first of these is
// being copied.
#[derive(Drop)]
enum Begun<'v, S> {
    List(BegunList<'v, S>),
    Object(BegunObject<'v, S>),
}

#[derive(Drop)]
struct BegunList<'v, S> {
    copies: Vec<Spanning<InputValue<S>>>,
    left: &'v [Spanning<InputValue<S>>],
}

#[derive(Drop)]
struct BegunObject<'v, S> {
    copies: Vec<(Spanning<String>, Spanning<InputValue<S>>)>,
    left: &'v [(Spanning<String>, Spanning<InputValue<S>>)],
}

// What a value comes to, as it is copied.
#[derive(Drop)]
enum Copying<'v, S> {
    Copied(InputValue<S>),
    Begun(Begun<'v, S>),
}

fn copy<S: Clone>(alloc: Global, value: &InputValue<S>) -> Result<InputValue<S>, AllocError> {
    let mut waiting = Vec::new(alloc);
    let mut copying = begin(value)?;
    for _ in 0..u64::MAX {
        match copying {
            Copying::Begun(begun) => copying = go_on(begun, &mut waiting)?,
            Copying::Copied(copied) => match waiting.pop() {
                Some(begun) => copying = Copying::Begun(begun.with(copied)?),
                None => return Ok(copied),
            },
        }
    }
    Err(AllocError)
}

// The copy of a value that holds no other, or an empty list or object to put copies in.
fn begin<'v, S: Clone>(value: &'v InputValue<S>) -> Result<Copying<'v, S>, AllocError> {
    match value {
        InputValue::List(items) => Ok(Copying::Begun(Begun::List(BegunList {
            copies: Vec::with_capacity(*items.allocator(), items.len())?,
            left: items.as_slice(),
        }))),
        InputValue::Object(entries) => Ok(Copying::Begun(Begun::Object(BegunObject {
            copies: Vec::with_capacity(*entries.allocator(), entries.len())?,
            left: entries.as_slice(),
        }))),
        InputValue::Null => Ok(Copying::Copied(InputValue::Null)),
        InputValue::Scalar(scalar) => Ok(Copying::Copied(InputValue::Scalar(scalar.clone()?))),
        InputValue::Enum(name) => Ok(Copying::Copied(InputValue::Enum(name.clone()?))),
        InputValue::Variable(name) => Ok(Copying::Copied(InputValue::Variable(name.clone()?))),
    }
}

// Begins the copy of the first value that is left, while the rest waits; where none is left the list or the object is
// copied.
fn go_on<'v, S: Clone>(
    begun: Begun<'v, S>,
    waiting: &mut Vec<Begun<'v, S>>,
) -> Result<Copying<'v, S>, AllocError> {
    match begun {
        Begun::List(list) => match list.left.first() {
            Some(item) => {
                waiting.push(Begun::List(list))?;
                begin(&item.item)
            }
            None => Ok(Copying::Copied(InputValue::List(list.copies))),
        },
        Begun::Object(object) => match object.left.first() {
            Some((_, value)) => {
                waiting.push(Begun::Object(object))?;
                begin(&value.item)
            }
            None => Ok(Copying::Copied(InputValue::Object(object.copies))),
        },
    }
}

impl<'v, S: Clone> Begun<'v, S> {
    // The same with the copy of the first value that was left.
    fn with(self, copied: InputValue<S>) -> Result<Begun<'v, S>, AllocError> {
        match self {
            Begun::List(list) => Ok(Begun::List(list.with(copied)?)),
            Begun::Object(object) => Ok(Begun::Object(object.with(copied)?)),
        }
    }
}

impl<'v, S: Clone> BegunList<'v, S> {
    fn with(mut self, copied: InputValue<S>) -> Result<BegunList<'v, S>, AllocError> {
        if let Some((first, others)) = self.left.split_first() {
            self.copies.push(Spanning {
                item: copied,
                span: first.span,
            })?;
            self.left = others;
        }
        Ok(self)
    }
}

impl<'v, S: Clone> BegunObject<'v, S> {
    fn with(mut self, copied: InputValue<S>) -> Result<BegunObject<'v, S>, AllocError> {
        if let Some(((key, first), others)) = self.left.split_first() {
            let value = Spanning {
                item: copied,
                span: first.span,
            };
            self.copies.push((key.clone()?, value))?;
            self.left = others;
        }
        Ok(self)
    }
}
