//! Scalars.
ghost use Rattle.std.specs.Prelude.{◌≡◌, IfOk, None, Some, false, option_map, string_bytes};
ghost use Rattle.meta.specs.Answers.{AnswersAlike, TakesAll};
ghost use Rattle.meta.specs.Functions.{function_of, token_function_of};
ghost use Rattle.meta.specs.Kept.{scalar_check, taking_any_literal, takes_any_literal};

use crate::check::CheckedScalar;
use crate::default_check::{DefaultCheck, InputValueParseFn, ScalarTokenParseFn};
use crate::kinds::MetaTypeOf;
use language_types::error::OutOfMemory;
use std::alloc::Global;

/// Metadata of a scalar (section 3.5), whose check decides which values it has.
#[derive(Drop)]
pub struct ScalarMetaOf<C> {
    pub name: String,
    pub description: Option<String>,
    pub specified_by_url: Option<String>,
    check: C,
    any_literal: bool,
}

/// Metadata of a scalar, with the check of the scalar type `S`.
pub type ScalarMeta<S> = ScalarMetaOf<<S as CheckedScalar>::Check>;

impl ScalarMetaOf<DefaultCheck> {
    /// A scalar of this name, with no description and no URL.
    ///
    /// The check has to take every value. It has to give the same answer to the same value each time,
    /// down to the text of a refusal, unless it runs out of memory. This crate never calls the token
    /// function.
    ///
    /// # Errors
    ///
    /// Out of memory.
    pub fn new(
        alloc: Global,
        name: &str,
        check: InputValueParseFn,
        token: ScalarTokenParseFn,
    ) -> Result<Self, OutOfMemory>
        requires callable { TakesAll (InputValueParseFn.pre check) }
        requires one_answer { AnswersAlike (InputValueParseFn.post check) }
        ensures name { IfOk result (λ m. string_bytes m.name ≡ name.now) }
        ensures description { IfOk result (λ m. m.description ≡ None) }
        ensures url { IfOk result (λ m. m.specified_by_url ≡ None) }
        ensures check { IfOk result (λ m. function_of (scalar_check m) ≡ check) }
        ensures token { IfOk result (λ m. token_function_of (scalar_check m) ≡ Some token) }
        ensures any_literal { IfOk result (λ m. takes_any_literal m ≡ false) }
    {
        ScalarMetaOf::with_check(alloc, name, DefaultCheck::with_token(check, token))
    }
}

impl<C: Drop> ScalarMetaOf<C> {
    /// A scalar of this name with this check, and no description and no URL (section 3.5).
    ///
    /// # Errors
    ///
    /// Out of memory.
    pub fn with_check(alloc: Global, name: &str, check: C) -> Result<Self, OutOfMemory>
        ensures name { IfOk result (λ m. string_bytes m.name ≡ name.now) }
        ensures description { IfOk result (λ m. m.description ≡ None) }
        ensures url { IfOk result (λ m. m.specified_by_url ≡ None) }
        ensures check { IfOk result (λ m. scalar_check m ≡ check) }
        ensures any_literal { IfOk result (λ m. takes_any_literal m ≡ false) }
    {
        Ok(ScalarMetaOf {
            name: String::from_str(alloc, name)?,
            description: None,
            specified_by_url: None,
            check,
            any_literal: false,
        })
    }

    /// Replaces the description (section 3.2).
    ///
    /// # Errors
    ///
    /// Out of memory.
    pub fn description(mut self, text: &str) -> Result<Self, OutOfMemory>
        ensures text { IfOk result (λ m. option_map string_bytes m.description ≡ Some text.now) }
        ensures others { IfOk result (λ m. m ≡ record self { description = m.description }) }
    {
        self.description = Some(String::from_str(*self.name.allocator(), text)?);
        Ok(self)
    }

    /// Replaces the URL of the text that specifies the scalar (section 3.13.4).
    ///
    /// # Errors
    ///
    /// Out of memory.
    pub fn specified_by_url(mut self, url: &str) -> Result<Self, OutOfMemory>
        ensures url { IfOk result (λ m. option_map string_bytes m.specified_by_url ≡ Some url.now) }
        ensures others { IfOk result (λ m. m ≡ record self { specified_by_url = m.specified_by_url }) }
    {
        self.specified_by_url = Some(String::from_str(*self.name.allocator(), url)?);
        Ok(self)
    }
}

impl<C> ScalarMetaOf<C> {
    /// The same scalar, whose check is asked of lists and objects, too, where a schema is judged by October 2021
    /// (section 3.5).
    pub fn with_any_literal(mut self) -> Self
        ensures { result ≡ taking_any_literal self }
    {
        self.any_literal = true;
        self
    }

    /// The scalar as metadata of any kind.
    pub fn into_meta<S>(self) -> MetaTypeOf<S, C>
        ensures { result ≡ MetaTypeOf.Scalar self }
    {
        MetaTypeOf::Scalar(self)
    }

    /// Whether the check of the scalar is asked of lists and objects, too.
    pub fn takes_any_literal(&self) -> bool
        ensures { result ≡ takes_any_literal self.now }
    {
        self.any_literal
    }

    /// The check of the scalar.
    pub fn input_value_parse_fn(&self) -> &C
        ensures { result.now ≡ scalar_check self.now }
    {
        &self.check
    }
}
