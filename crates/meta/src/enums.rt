//! Enums.
ghost use Rattle.std.specs.Prelude.{◌≡◌, IfOk, None, Some, option_map, string_bytes};
ghost use Rattle.meta.specs.Answers.{AnswersAlike, TakesAll};
ghost use Rattle.meta.specs.Functions.{function_of};
ghost use Rattle.meta.specs.Kept.{enum_check};

use crate::check::CheckedScalar;
use crate::default_check::{DefaultCheck, InputValueParseFn};
use crate::enum_values::EnumValue;
use crate::kinds::MetaTypeOf;
use language_types::error::OutOfMemory;
use std::alloc::Global;

/// Metadata of an enum (section 3.9), whose check decides which values it has.
#[derive(Drop)]
pub struct EnumMetaOf<C> {
    pub name: String,
    pub description: Option<String>,
    pub values: Vec<EnumValue>,
    check: C,
}

/// Metadata of an enum, with the check of the scalar type `S`.
pub type EnumMeta<S> = EnumMetaOf<<S as CheckedScalar>::Check>;

impl EnumMetaOf<DefaultCheck> {
    /// An enum of this name with these values, and no description.
    ///
    /// The check has to take every value. It has to give the same answer to the same value each time,
    /// down to the text of a refusal, unless it runs out of memory.
    ///
    /// # Errors
    ///
    /// Out of memory.
    pub fn new(
        alloc: Global,
        name: &str,
        values: Vec<EnumValue>,
        check: InputValueParseFn,
    ) -> Result<Self, OutOfMemory>
        requires callable { TakesAll (InputValueParseFn.pre check) }
        requires one_answer { AnswersAlike (InputValueParseFn.post check) }
        ensures name { IfOk result (λ m. string_bytes m.name ≡ name.now) }
        ensures description { IfOk result (λ m. m.description ≡ None) }
        ensures values { IfOk result (λ m. m.values ≡ values) }
        ensures check { IfOk result (λ m. function_of (enum_check m) ≡ check) }
    {
        EnumMetaOf::with_check(alloc, name, values, DefaultCheck::new(check))
    }
}

impl<C: Drop> EnumMetaOf<C> {
    /// An enum of this name with these values and this check, and no description (section 3.9).
    ///
    /// # Errors
    ///
    /// Out of memory.
    pub fn with_check(
        alloc: Global,
        name: &str,
        values: Vec<EnumValue>,
        check: C,
    ) -> Result<Self, OutOfMemory>
        ensures name { IfOk result (λ m. string_bytes m.name ≡ name.now) }
        ensures description { IfOk result (λ m. m.description ≡ None) }
        ensures values { IfOk result (λ m. m.values ≡ values) }
        ensures check { IfOk result (λ m. enum_check m ≡ check) }
    {
        Ok(EnumMetaOf {
            name: String::from_str(alloc, name)?,
            description: None,
            values,
            check,
        })
    }

    /// Replaces the description (section 3.2).
    ///
    /// # Errors
    ///
    /// Out of memory.
    pub fn description(mut self, text: &str) -> Result<Self, OutOfMemory>
        ensures text { IfOk result (λ m. option_map string_bytes m.description ≡ Some text.now) }
        ensures others { IfOk result (λ m. m ≡ record self { description = m.description }) }
    {
        self.description = Some(String::from_str(*self.name.allocator(), text)?);
        Ok(self)
    }
}

impl<C> EnumMetaOf<C> {
    /// The enum as metadata of any kind.
    pub fn into_meta<S>(self) -> MetaTypeOf<S, C>
        ensures { result ≡ MetaTypeOf.Enum self }
    {
        MetaTypeOf::Enum(self)
    }

    /// The check of the enum.
    pub fn input_value_parse_fn(&self) -> &C
        ensures { result.now ≡ enum_check self.now }
    {
        &self.check
    }
}
