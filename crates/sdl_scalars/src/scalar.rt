//! The scalars of a text, numbers as written.
ghost use Rattle.std.specs.Prelude.{Some};
ghost use Rattle.sdl_scalars.specs.SourceScalar.{source_text, source_str, source_bool, source_prints_bool};

use language_values::scalar::ScalarValue;
use std::alloc::AllocError;
use std::fmt;

/// A scalar of a document. Two numbers are equal if and only if they are written alike.
#[derive(Debug, PartialEq, Eq, Drop)]
pub enum SourceScalar {
    /// The digits of an integer, and its sign (section 2.9.1).
    Int(String),
    /// A number with a fraction or an exponent, as written (section 2.9.2).
    Float(String),
    /// The value of a string or a block string (section 2.9.4).
    String(String),
    /// A Boolean (section 2.9.3).
    Boolean(bool),
}

impl Clone for SourceScalar {
    ghost use Rattle.sdl_scalars.specs.SourceScalar.{IsSameSource};

    ghost is_clone = { λ s t. IsSameSource s t };

    fn clone(&self) -> Result<SourceScalar, AllocError> {
        Ok(match self {
            SourceScalar::Int(digits) => SourceScalar::Int(digits.clone()?),
            SourceScalar::Float(number) => SourceScalar::Float(number.clone()?),
            SourceScalar::String(text) => SourceScalar::String(text.clone()?),
            SourceScalar::Boolean(b) => SourceScalar::Boolean(*b),
        })
    }
}

impl fmt::Display for SourceScalar {
    ghost output = { λ x. Some (source_text x) };

    fn fmt<W: fmt::Write>(&self, f: &mut fmt::Formatter<W>) -> fmt::Result {
        match self {
            SourceScalar::Int(digits) => write!(f, "{digits}"),
            SourceScalar::Float(number) => write!(f, "{number}"),
            SourceScalar::String(text) => write!(f, "{text}"),
            SourceScalar::Boolean(b) => write!(f, "{b}"),
        }
    }
}

impl ScalarValue for SourceScalar {
    ghost use Rattle.std.specs.Prelude.{refl};

    ghost text = { source_text };

    ghost str_of = { source_str };

    ghost bool_of = { source_bool };

    ghost prints_text = { λ x. refl };

    ghost prints_bool = { source_prints_bool };

    fn try_as_str(&self) -> Option<&str> {
        match self {
            SourceScalar::String(text) => Some(text.as_str()),
            _ => None,
        }
    }

    fn as_bool(&self) -> Option<bool> {
        match self {
            SourceScalar::Boolean(b) => Some(*b),
            _ => None,
        }
    }
}
