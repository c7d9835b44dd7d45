//! Input objects.
ghost use Rattle.std.specs.Prelude.{◌≡◌, IfOk, None, Some, map, option_map, string_bytes};
ghost use Rattle.meta.specs.Answers.{AnswersAlike, TakesAll};
ghost use Rattle.meta.specs.Functions.{function_of};
ghost use Rattle.meta.specs.Places.{ArePlaces};

use crate::arguments::Argument;
use crate::check::CheckedScalar;
use crate::default_check::{DefaultCheck, InputValueParseFn};
use crate::kinds::MetaTypeOf;
use crate::places::{Places, places_of};
use language_types::error::OutOfMemory;
use language_values::value::DefaultScalarValue;
use std::alloc::Global;

/// Metadata of an input object (section 3.10), whose check decides which values it has.
#[derive(Drop)]
pub struct InputObjectMetaOf<S, C> {
    pub name: String,
    pub description: Option<String>,
    pub input_fields: Vec<Argument<S>>,
    check: C,
    // Where the names of the input fields stand.
    pub(crate) places: Places,
    ghost ordered: { ArePlaces (map (λ a. string_bytes a.name) input_fields.items) places },
}

/// Metadata of an input object, with the check of the scalar type `S`.
pub type InputObjectMeta<S> = InputObjectMetaOf<S, <S as CheckedScalar>::Check>;

impl InputObjectMetaOf<DefaultScalarValue, DefaultCheck> {
    ghost use Rattle.meta.specs.Kept.{input_object_check};

    /// An input object of this name with these fields, and no description.
    ///
    /// The check has to take every value. It has to give the same answer to the same value each time,
    /// down to the text of a refusal, unless it runs out of memory.
    ///
    /// # Errors
    ///
    /// Out of memory.
    pub fn new(
        alloc: Global,
        name: &str,
        input_fields: Vec<Argument<DefaultScalarValue>>,
        check: InputValueParseFn,
    ) -> Result<Self, OutOfMemory>
        requires callable { TakesAll (InputValueParseFn.pre check) }
        requires one_answer { AnswersAlike (InputValueParseFn.post check) }
        ensures name { IfOk result (λ m. string_bytes m.name ≡ name.now) }
        ensures description { IfOk result (λ m. m.description ≡ None) }
        ensures input_fields { IfOk result (λ m. m.input_fields ≡ input_fields) }
        ensures check { IfOk result (λ m. function_of (input_object_check m) ≡ check) }
    {
        InputObjectMetaOf::with_check(alloc, name, input_fields, DefaultCheck::new(check))
    }
}

impl<S: Drop, C: Drop> InputObjectMetaOf<S, C> {
    ghost use Rattle.meta.specs.Kept.{input_object_check};

    /// An input object of this name with these fields and this check, and no description (section
    /// 3.10).
    ///
    /// # Errors
    ///
    /// Out of memory.
    pub fn with_check(
        alloc: Global,
        name: &str,
        input_fields: Vec<Argument<S>>,
        check: C,
    ) -> Result<Self, OutOfMemory>
        ensures name { IfOk result (λ m. string_bytes m.name ≡ name.now) }
        ensures description { IfOk result (λ m. m.description ≡ None) }
        ensures input_fields { IfOk result (λ m. m.input_fields ≡ input_fields) }
        ensures check { IfOk result (λ m. input_object_check m ≡ check) }
    {
        let places = places_of(alloc, &input_fields)?;
        Ok(InputObjectMetaOf {
            name: String::from_str(alloc, name)?,
            description: None,
            input_fields,
            check,
            places,
        })
    }

    /// Replaces the description (section 3.2).
    ///
    /// # Errors
    ///
    /// Out of memory.
    pub fn description(mut self, text: &str) -> Result<Self, OutOfMemory>
        ensures text { IfOk result (λ m. option_map string_bytes m.description ≡ Some text.now) }
        ensures name { IfOk result (λ m. m.name ≡ self.name) }
        ensures input_fields { IfOk result (λ m. m.input_fields ≡ self.input_fields) }
        ensures check { IfOk result (λ m. input_object_check m ≡ input_object_check self) }
    {
        self.description = Some(String::from_str(*self.name.allocator(), text)?);
        Ok(self)
    }
}

impl<S, C> InputObjectMetaOf<S, C> {
    ghost use Rattle.meta.specs.Kept.{input_object_check};

    /// The input object as metadata of any kind.
    pub fn into_meta(self) -> MetaTypeOf<S, C>
        ensures { result ≡ MetaTypeOf.InputObject self }
    {
        MetaTypeOf::InputObject(self)
    }

    /// The check of the input object.
    pub fn input_value_parse_fn(&self) -> &C
        ensures { result.now ≡ input_object_check self.now }
    {
        &self.check
    }
}
