//! The checks of the sample schemas, and their token function.
//!
//! A check refuses with the text `not a value of T`, where `T` is the name of its type.
ghost use Rattle.std.specs.Prelude.{◌≡◌, codes};
ghost use Rattle.meta.specs.Answers.{AnswersBy};
ghost use Rattle.samples.specs.Checks.{is_int, is_string, is_boolean, is_id, is_command, is_dog_command, is_object};
ghost use Rattle.samples.specs.Tokens.{RefusesToken};

use language::error::{CheckError, ParseError};
use language::value::{DefaultScalarValue, InputValue};
use meta::default_check::ScalarTokenKind;
use std::alloc::Global;

/// Accepts an integer.
///
/// # Errors
///
/// `Refused` if the value is not of the type, or `OutOfMemory`.
pub fn check_int(alloc: Global, value: &InputValue<DefaultScalarValue>) -> Result<(), CheckError>
    ensures { AnswersBy is_int (codes "not a value of Int") value.now result }
{
    match value {
        InputValue::Scalar(DefaultScalarValue::Int(_)) => Ok(()),
        _ => Err(CheckError::Refused(String::from_str(alloc, "not a value of Int")?)),
    }
}

/// Accepts a string.
///
/// # Errors
///
/// `Refused` if the value is not of the type, or `OutOfMemory`.
pub fn check_string(alloc: Global, value: &InputValue<DefaultScalarValue>) -> Result<(), CheckError>
    ensures { AnswersBy is_string (codes "not a value of String") value.now result }
{
    match value {
        InputValue::Scalar(DefaultScalarValue::String(_)) => Ok(()),
        _ => Err(CheckError::Refused(String::from_str(alloc, "not a value of String")?)),
    }
}

/// Accepts a Boolean.
///
/// # Errors
///
/// `Refused` if the value is not of the type, or `OutOfMemory`.
pub fn check_boolean(
    alloc: Global,
    value: &InputValue<DefaultScalarValue>,
) -> Result<(), CheckError>
    ensures { AnswersBy is_boolean (codes "not a value of Boolean") value.now result }
{
    match value {
        InputValue::Scalar(DefaultScalarValue::Boolean(_)) => Ok(()),
        _ => Err(CheckError::Refused(String::from_str(alloc, "not a value of Boolean")?)),
    }
}

/// Accepts a string or an integer.
///
/// # Errors
///
/// `Refused` if the value is not of the type, or `OutOfMemory`.
pub fn check_id(alloc: Global, value: &InputValue<DefaultScalarValue>) -> Result<(), CheckError>
    ensures { AnswersBy is_id (codes "not a value of ID") value.now result }
{
    match value {
        InputValue::Scalar(DefaultScalarValue::String(_) | DefaultScalarValue::Int(_)) => Ok(()),
        _ => Err(CheckError::Refused(String::from_str(alloc, "not a value of ID")?)),
    }
}

/// Accepts one of the enum values `SIT`, `HEEL` and `DOWN`.
///
/// # Errors
///
/// `Refused` if the value is not of the type, or `OutOfMemory`.
pub fn check_dog_command(
    alloc: Global,
    value: &InputValue<DefaultScalarValue>,
) -> Result<(), CheckError>
    ensures { AnswersBy is_dog_command (codes "not a value of DogCommand") value.now result }
{
    match value {
        InputValue::Enum(name) if is_command(name.as_str()) => Ok(()),
        _ => Err(CheckError::Refused(String::from_str(alloc, "not a value of DogCommand")?)),
    }
}

fn is_command(name: &str) -> bool
    ensures { result ≡ is_command name.now }
{
    name == "SIT" || name == "HEEL" || name == "DOWN"
}

/// Accepts an object.
///
/// # Errors
///
/// `Refused` if the value is not of the type, or `OutOfMemory`.
pub fn check_complex_input(
    alloc: Global,
    value: &InputValue<DefaultScalarValue>,
) -> Result<(), CheckError>
    ensures { AnswersBy is_object (codes "not a value of ComplexInput") value.now result }
{
    match value {
        InputValue::Object(_) => Ok(()),
        _ => Err(CheckError::Refused(String::from_str(alloc, "not a value of ComplexInput")?)),
    }
}

/// Accepts an object.
///
/// # Errors
///
/// `Refused` if the value is not of the type, or `OutOfMemory`.
pub fn check_pair_input(
    alloc: Global,
    value: &InputValue<DefaultScalarValue>,
) -> Result<(), CheckError>
    ensures { AnswersBy is_object (codes "not a value of PairInput") value.now result }
{
    match value {
        InputValue::Object(_) => Ok(()),
        _ => Err(CheckError::Refused(String::from_str(alloc, "not a value of PairInput")?)),
    }
}

/// Refuses every token: these crates never call a token function.
///
/// # Errors
///
/// `Refused` for every token, or `OutOfMemory`.
pub fn refuse_token(
    alloc: Global,
    _kind: ScalarTokenKind,
    _text: &str,
) -> Result<DefaultScalarValue, ParseError>
    ensures { RefusesToken (codes "no tokens are read") result }
{
    Err(ParseError::Refused(String::from_str(alloc, "no tokens are read")?))
}
