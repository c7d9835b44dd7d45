//! The checks of the scalars, enums and input objects that a schema's text defines (GraphQL, October 2021, sections
//! 3.5, 3.9 and 3.10).
ghost use Rattle.std.specs.Prelude.{◌≡◌, ◌↔◌, IsTrue, string_bytes};
ghost use Rattle.std.specs.List.{list_any};
ghost use Rattle.std.specs.Str.{bytes_eq};
ghost use Rattle.sdl_scalars.specs.Checks.{Accepts, AcceptsScalar, HasName, IsFinite, IsInteger, MayAnswer, refusal};
ghost use Rattle.sdl_scalars.specs.declared.check.SourceCheck.TheVariants as c;

use crate::scalar::SourceScalar;
use language_types::error::CheckError;
use language_values::value::InputValue;
use meta::check::CheckedScalar;
use std::alloc::Global;

/// Which values a scalar, an enum or an input object accepts.
#[derive(Drop)]
pub enum SourceCheck {
    /// An integer of 32 bits (section 3.5.1).
    Int,
    /// A finite double-precision number (section 3.5.2).
    Float,
    /// A string (section 3.5.3).
    String,
    /// A Boolean (section 3.5.4).
    Boolean,
    /// A string, or an integer of any size (section 3.5.5).
    Id,
    /// One of these names (section 3.9).
    Enum(Vec<String>),
    /// An object: an input object, whose fields are checked elsewhere (section 3.10).
    Object,
    /// Every value: a custom scalar.
    Any,
}

fn is_integer(digits: &str) -> bool
    ensures { IsTrue result ↔ IsInteger digits.now }
{
    digits.parse::<i32>().is_ok()
}

fn is_finite(number: &str) -> bool
    ensures { IsTrue result ↔ IsFinite number.now }
{
    match number.parse::<f64>() {
        Ok(value) => value.is_finite(),
        Err(_) => false,
    }
}

fn accepts_scalar(check: &SourceCheck, scalar: &SourceScalar) -> bool
    ensures { IsTrue result ↔ AcceptsScalar check.now scalar.now }
{
    match (check, scalar) {
        (SourceCheck::Int, SourceScalar::Int(digits)) => is_integer(digits.as_str()),
        (SourceCheck::Float, SourceScalar::Int(number)) => is_finite(number.as_str()),
        (SourceCheck::Float, SourceScalar::Float(number)) => is_finite(number.as_str()),
        (SourceCheck::String, SourceScalar::String(_)) => true,
        (SourceCheck::Boolean, SourceScalar::Boolean(_)) => true,
        (SourceCheck::Id, SourceScalar::String(_)) => true,
        (SourceCheck::Id, SourceScalar::Int(_)) => true,
        _ => false,
    }
}

fn is_among(names: &[String], name: &str) -> bool
    ensures { result ≡ list_any (λ n. bytes_eq (string_bytes n) name.now) names.now }
{
    names.iter().any(|known| known.as_str() == name)
}

fn has_name(names: &[String], name: &str) -> bool
    ensures { IsTrue result ↔ HasName names.now name.now }
{
    is_among(names, name)
}

/// Whether the check accepts a value.
pub fn accepts(check: &SourceCheck, value: &InputValue<SourceScalar>) -> bool
    ensures { IsTrue result ↔ Accepts check.now value.now }
{
    match (check, value) {
        (SourceCheck::Any, _) => true,
        (SourceCheck::Enum(names), InputValue::Enum(name)) => {
            has_name(names.as_slice(), name.as_str())
        }
        (SourceCheck::Object, InputValue::Object(_)) => true,
        (_, InputValue::Scalar(scalar)) => accepts_scalar(check, scalar),
        _ => false,
    }
}

// Why the check refuses a value.
fn refusal(check: &SourceCheck) -> &'static str
    ensures { result.now ≡ refusal check.now }
{
    match check {
        SourceCheck::Int => "not an integer of 32 bits",
        SourceCheck::Float => "not a finite number",
        SourceCheck::String => "not a string",
        SourceCheck::Boolean => "not a truth value",
        SourceCheck::Id => "not a string or an integer",
        SourceCheck::Enum(_) => "not a value of the enum",
        SourceCheck::Object => "not an object",
        SourceCheck::Any => "",
    }
}

impl CheckedScalar for SourceScalar {
    ghost use Rattle.sdl_scalars.specs.Checks.{MayAnswer};
    ghost use Rattle.sdl_scalars.specs.OneAnswer.{one_answer};

    type Check = SourceCheck;

    ghost may_answer = { MayAnswer };

    ghost one_answer = { one_answer };

    fn run_check(
        check: &SourceCheck,
        alloc: Global,
        value: &InputValue<SourceScalar>,
    ) -> Result<(), CheckError> {
        if accepts(check, value) {
            return Ok(());
        }
        Err(CheckError::Refused(String::from_str(alloc, refusal(check))?))
    }
}
