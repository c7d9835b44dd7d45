//! A value of the result, and its path.
use crate::error::IntrospectionError;
use crate::names::is_name;
use serde_json::Value;
use std::alloc::{AllocError, Global};

// The last step to a value.
#[derive(Clone, Copy)]
enum Step {
    // No step: the value is the whole result.
    Whole,
    Member(&'static str),
    Item(usize),
}

/// A value of the result. Its path is only made for an error.
#[derive(Clone, Copy)]
pub struct Place<'p> {
    alloc: Global,
    value: &'p Value,
    // The object or list that holds the value.
    above: Option<&'p Place<'p>>,
    step: Step,
}

impl<'p> Place<'p> {
    /// The whole result.
    pub fn whole(alloc: Global, value: &'p Value) -> Place<'p> {
        Place {
            alloc,
            value,
            above: None,
            step: Step::Whole,
        }
    }

    /// The allocator.
    pub fn alloc(&self) -> Global {
        self.alloc
    }

    fn below<'c>(&'c self, value: &'c Value, step: Step) -> Place<'c> {
        Place {
            alloc: self.alloc,
            value,
            above: Some(self),
            step,
        }
    }

    /// The item at an index of this list.
    pub fn item<'c>(&'c self, index: usize, value: &'c Value) -> Place<'c> {
        self.below(value, Step::Item(index))
    }

    /// The member of this object with this name.
    ///
    /// # Errors
    ///
    /// This is not an object, the member is missing, or out of memory.
    pub fn member<'c>(&'c self, name: &'static str) -> Result<Place<'c>, IntrospectionError> {
        match self.value.get(name) {
            Some(value) => Ok(self.below(value, Step::Member(name))),
            None if self.value.is_object() => Err(self.without(name)),
            None => Err(self.unexpected("an object")),
        }
    }

    /// The member with this name, if there is one and it is not null.
    pub fn optional<'c>(&'c self, name: &'static str) -> Option<Place<'c>> {
        match self.value.get(name) {
            Some(value) if !value.is_null() => Some(self.below(value, Step::Member(name))),
            _ => None,
        }
    }

    /// The items of this list.
    ///
    /// # Errors
    ///
    /// This is not a list, or out of memory.
    pub fn items(&self) -> Result<&'p [Value], IntrospectionError> {
        match self.value.as_array() {
            Some(items) => Ok(items.as_slice()),
            None => Err(self.unexpected("a list")),
        }
    }

    /// This string.
    ///
    /// # Errors
    ///
    /// This is not a string, or out of memory.
    pub fn text(&self) -> Result<&'p str, IntrospectionError> {
        match self.value.as_str() {
            Some(text) => Ok(text),
            None => Err(self.unexpected("a string")),
        }
    }

    /// This name (section 2.1.9).
    ///
    /// # Errors
    ///
    /// This is not a name, or out of memory.
    pub fn name(&self) -> Result<&'p str, IntrospectionError> {
        let text = self.text()?;
        if is_name(text) {
            Ok(text)
        } else {
            Err(self.not_a_name())
        }
    }

    /// This Boolean.
    ///
    /// # Errors
    ///
    /// This is not a Boolean, or out of memory.
    pub fn is_true(&self) -> Result<bool, IntrospectionError> {
        match self.value.as_bool() {
            Some(is_true) => Ok(is_true),
            None => Err(self.unexpected("true or false")),
        }
    }

    /// The error that something else was expected here, or out of memory for its path.
    pub fn unexpected(&self, expected: &'static str) -> IntrospectionError {
        match self.path() {
            Ok(path) => IntrospectionError::Unexpected { path, expected },
            Err(_) => IntrospectionError::OutOfMemory,
        }
    }

    fn without(&self, name: &'static str) -> IntrospectionError {
        match self.below(self.value, Step::Member(name)).path() {
            Ok(path) => IntrospectionError::Missing(path),
            Err(_) => IntrospectionError::OutOfMemory,
        }
    }

    fn not_a_name(&self) -> IntrospectionError {
        match self.path() {
            Ok(path) => IntrospectionError::NotAName(path),
            Err(_) => IntrospectionError::OutOfMemory,
        }
    }

    // The steps to the value, written from the last to the first.
    fn path(&self) -> Result<String, AllocError> {
        let mut path = String::new(self.alloc);
        let mut place = Some(self);
        while let Some(here) = place {
            path = with_step(self.alloc, here.step, path.as_str())?;
            place = here.above;
        }
        Ok(path)
    }
}

// The step before the rest of a path.
fn with_step(alloc: Global, step: Step, rest: &str) -> Result<String, AllocError> {
    let between = if rest.is_empty() || rest.starts_with('[') {
        ""
    } else {
        "."
    };
    match step {
        Step::Whole => String::from_str(alloc, rest),
        Step::Member(name) => format!(in alloc; "{name}{between}{rest}"),
        Step::Item(index) => format!(in alloc; "[{index}]{between}{rest}"),
    }
}
