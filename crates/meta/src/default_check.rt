//! Checks over the default scalars: functions that the caller passes.
ghost use Rattle.std.specs.Prelude.{◌≡◌};
ghost use Rattle.meta.specs.Answers.{AnswersAlike, TakesAll};

use crate::check::CheckedScalar;
use language_types::error::{CheckError, ParseError};
use language_values::value::{DefaultScalarValue, InputValue};
use std::alloc::Global;

/// A check: `Ok` if the value is of the type, else the text that says why not.
pub type InputValueParseFn = for<'b> fn(
    Global,
    &'b InputValue<DefaultScalarValue>,
) -> Result<(), CheckError>;

/// The kind of a scalar token in a document.
#[derive(Clone, Copy, Debug, PartialEq, Eq)]
pub enum ScalarTokenKind {
    /// A string; its text comes without its quotes (section 3.5.3).
    String,
    /// A number with a point or an exponent (section 3.5.2).
    Float,
    /// An integer: digits, with or without a sign (section 3.5.1).
    Int,
}

/// A token function: it makes a scalar from the kind and the text of a token.
pub type ScalarTokenParseFn = for<'b> fn(
    Global,
    ScalarTokenKind,
    &'b str,
) -> Result<DefaultScalarValue, ParseError>;

/// A check that takes every value and gives one answer to each. For a scalar it also keeps the token
/// function, which this crate never calls.
#[derive(Drop)]
pub struct DefaultCheck {
    run: InputValueParseFn,
    token: Option<ScalarTokenParseFn>,
    ghost callable: { TakesAll (InputValueParseFn.pre run) },
    ghost one_answer: { ∥ AnswersAlike (InputValueParseFn.post run) ∥₁ },
}

impl DefaultCheck {
    ghost use Rattle.std.specs.Prelude.{◌≡◌, None, Some};
    ghost use Rattle.meta.specs.Answers.{AnswersAlike, TakesAll};
    ghost use Rattle.meta.specs.Functions.{function_of, token_function_of};

    /// The check of an enum or an input object.
    pub fn new(run: InputValueParseFn) -> Self
        requires callable { TakesAll (InputValueParseFn.pre run) }
        requires one_answer { AnswersAlike (InputValueParseFn.post run) }
        ensures run { function_of result ≡ run }
        ensures token { token_function_of result ≡ None }
    {
        DefaultCheck { run, token: None }
    }

    /// The check of a scalar, with its token function.
    pub fn with_token(run: InputValueParseFn, token: ScalarTokenParseFn) -> Self
        requires callable { TakesAll (InputValueParseFn.pre run) }
        requires one_answer { AnswersAlike (InputValueParseFn.post run) }
        ensures run { function_of result ≡ run }
        ensures token { token_function_of result ≡ Some token }
    {
        DefaultCheck {
            run,
            token: Some(token),
        }
    }
}

impl CheckedScalar for DefaultScalarValue {
    ghost use Rattle.std.specs.Prelude.{◌≡◌};
    ghost use Rattle.std.proofs.Common.{sym, ◌∙◌};
    ghost use Rattle.std.proofs.Math.Logic.{∥∥₁_elim};
    ghost use Rattle.meta.specs.Answers.{SameAnswer-prop};
    ghost use Rattle.meta.specs.Functions.{function_of};

    type Check = DefaultCheck;

    ghost may_answer = { λ c v r. (a : _) × (w : _) × (w.now ≡ v) × InputValueParseFn.post (function_of c) a w r };

    ghost one_answer = { λ c v r s p q. ∥∥₁_elim c.one_answer (SameAnswer-prop r s)
        (λ f. f p.0 q.0 p.1 q.1 r s (p.2 ∙ sym q.2) p.3 q.3) };

    fn run_check(
        check: &DefaultCheck,
        alloc: Global,
        value: &InputValue<DefaultScalarValue>,
    ) -> Result<(), CheckError> {
        (check.run)(alloc, value)
    }
}
