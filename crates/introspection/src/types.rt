//! Definitions of types (GraphQL, October 2021, section 3.4).
use crate::descriptions::write_description;
use crate::error::IntrospectionError;
use crate::kinds::{Kind, kind_of};
use crate::lists::{BLOCK, DEFINITIONS, Entry, Frame, write_list, write_optional_list};
use crate::members::{EnumValues, Fields, InputFields};
use crate::places::Place;
use crate::references::TypeNames;
use crate::strings::write_string;

// The interfaces of an object or an interface (sections 3.6 and 3.7).
const INTERFACES: Frame = Frame {
    open: " implements ",
    between: " & ",
    close: "",
};

// The members of a union (section 3.8).
const MEMBERS: Frame = Frame {
    open: " = ",
    between: " | ",
    close: "",
};

/// Writes the types of a list, without those that every schema has.
///
/// # Errors
///
/// A type has another shape, or out of memory; `text` may be partly written.
pub fn write_types(text: &mut String, types: &Place<'_>) -> Result<(), IntrospectionError> {
    write_list(text, types, &DEFINITIONS, &Types)
}

#[derive(Clone, Copy)]
struct Types;

impl Entry for Types {
    fn write(&self, text: &mut String, of_type: &Place<'_>) -> Result<(), IntrospectionError> {
        let kind = kind_of(of_type)?;
        let name = of_type.member("name")?.name()?;
        if is_of_every_schema(kind, name) {
            return Ok(());
        }
        write_definition(text, of_type, kind, name)
    }
}

// Whether it is a built-in scalar (section 3.5) or an introspection type (section 4).
fn is_of_every_schema(kind: Kind, name: &str) -> bool {
    let is_built_in = matches!(name, "Int" | "Float" | "String" | "Boolean" | "ID");
    name.starts_with("__") || (is_built_in && kind == Kind::Scalar)
}

fn write_definition(
    text: &mut String,
    of_type: &Place<'_>,
    kind: Kind,
    name: &str,
) -> Result<(), IntrospectionError> {
    text.push('\n')?;
    write_description(text, of_type, "\n")?;
    text.push_str(kind.keyword())?;
    text.push(' ')?;
    text.push_str(name)?;
    write_body(text, of_type, kind)?;
    text.push('\n')?;
    Ok(())
}

fn write_body(
    text: &mut String,
    of_type: &Place<'_>,
    kind: Kind,
) -> Result<(), IntrospectionError> {
    match kind {
        Kind::Scalar => write_specification(text, of_type),
        Kind::Object | Kind::Interface => write_fields(text, of_type),
        Kind::Union => {
            write_list(
                text,
                &of_type.member("possibleTypes")?,
                &MEMBERS,
                &TypeNames,
            )
        }
        Kind::Enum => write_list(text, &of_type.member("enumValues")?, &BLOCK, &EnumValues),
        Kind::InputObject => {
            let fields = of_type.optional("inputFields");
            write_optional_list(text, fields, &BLOCK, &InputFields)
        }
    }
}

fn write_fields(text: &mut String, of_type: &Place<'_>) -> Result<(), IntrospectionError> {
    let interfaces = of_type.optional("interfaces");
    write_optional_list(text, interfaces, &INTERFACES, &TypeNames)?;
    write_list(text, &of_type.member("fields")?, &BLOCK, &Fields)
}

// The URL of a scalar's specification (section 3.13.4). Some servers spell its name differently.
fn write_specification(text: &mut String, of_type: &Place<'_>) -> Result<(), IntrospectionError> {
    let url = of_type.optional("specifiedByURL");
    let Some(url) = url.or(of_type.optional("specifiedByUrl")) else {
        return Ok(());
    };
    text.push_str(" @specifiedBy(url: ")?;
    write_string(text, url.text()?)?;
    text.push(')')?;
    Ok(())
}
