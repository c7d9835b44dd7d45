//! The kinds of named types (GraphQL, October 2021, section 4.2.2).
use crate::error::IntrospectionError;
use crate::places::Place;

/// A kind of named type.
#[derive(Clone, Copy, Debug, PartialEq, Eq)]
pub enum Kind {
    Scalar,
    Object,
    Interface,
    Union,
    Enum,
    InputObject,
}

impl Kind {
    /// The keyword of a definition of this kind (section 3.4).
    pub fn keyword(self) -> &'static str {
        match self {
            Kind::Scalar => "scalar",
            Kind::Object => "type",
            Kind::Interface => "interface",
            Kind::Union => "union",
            Kind::Enum => "enum",
            Kind::InputObject => "input",
        }
    }
}

/// The kind of a named type.
///
/// # Errors
///
/// The member `kind` is missing or no kind of named type, or out of memory.
pub fn kind_of(of_type: &Place<'_>) -> Result<Kind, IntrospectionError> {
    let kind = of_type.member("kind")?;
    match kind.text()? {
        "SCALAR" => Ok(Kind::Scalar),
        "OBJECT" => Ok(Kind::Object),
        "INTERFACE" => Ok(Kind::Interface),
        "UNION" => Ok(Kind::Union),
        "ENUM" => Ok(Kind::Enum),
        "INPUT_OBJECT" => Ok(Kind::InputObject),
        _ => Err(kind.unexpected("the kind of a named type")),
    }
}
