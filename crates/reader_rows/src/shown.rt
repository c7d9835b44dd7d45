//! What a schema says of a type or a directive.
use meta::arguments::Argument;
use meta::deprecation::DeprecationStatus;
use meta::enum_values::EnumValue;
use meta::fields::Field;
use meta::kinds::MetaTypeOf;
use schema::model::SchemaTypeOf;
use sdl_reader::SourceScalar;
use sdl_scalars::check::SourceCheck;
use std::alloc::AllocError;

pub type SourceSchema = SchemaTypeOf<SourceScalar, SourceCheck>;

/// Appends what the type of the name is made of: members or values, or interfaces and then fields.
///
/// # Errors
///
/// Out of memory.
pub fn show_type(schema: &SourceSchema, name: &str, came: &mut String) -> Result<(), AllocError> {
    match schema.concrete_type_by_name(name) {
        Some(MetaTypeOf::Scalar(meta)) => match &meta.specified_by_url {
            Some(url) => write!(came, "scalar by {url}"),
            None => came.push_str("scalar"),
        },
        Some(MetaTypeOf::Object(meta)) => {
            show_names(meta.interface_names.as_slice(), came)?;
            show_fields(meta.fields.as_slice(), came)
        }
        Some(MetaTypeOf::Interface(meta)) => {
            show_names(meta.interface_names.as_slice(), came)?;
            show_fields(meta.fields.as_slice(), came)
        }
        Some(MetaTypeOf::Union(meta)) => show_names(meta.of_type_names.as_slice(), came),
        Some(MetaTypeOf::Enum(meta)) => show_values(meta.values.as_slice(), came),
        Some(MetaTypeOf::InputObject(meta)) => show_arguments(meta.input_fields.as_slice(), came),
        _ => came.push_str("none"),
    }
}

/// Appends the arguments and places of the directive of the name, and whether it is repeatable.
///
/// # Errors
///
/// Out of memory.
pub fn show_directive(
    schema: &SourceSchema,
    name: &str,
    came: &mut String,
) -> Result<(), AllocError> {
    let Some(directive) = schema.directive_by_name(name) else {
        return came.push_str("none");
    };
    show_arguments(directive.arguments.as_slice(), came)?;
    for location in directive.locations.as_slice() {
        write!(came, " {location}")?;
    }
    let is_repeatable = directive.is_repeatable;
    write!(came, " {is_repeatable}")
}

fn show_names(names: &[String], came: &mut String) -> Result<(), AllocError> {
    for name in names {
        write!(came, "{name};")?;
    }
    Ok(())
}

fn show_fields(fields: &[Field<SourceScalar>], came: &mut String) -> Result<(), AllocError> {
    for field in fields {
        write!(came, " {}(", field.name)?;
        match &field.arguments {
            Some(arguments) => show_arguments(arguments.as_slice(), came)?,
            None => came.push_str("any")?,
        }
        let end = status(&field.deprecation_status);
        write!(came, "): {}{end}", field.field_type)?;
    }
    Ok(())
}

// Arguments or input fields.
fn show_arguments(
    arguments: &[Argument<SourceScalar>],
    came: &mut String,
) -> Result<(), AllocError> {
    for argument in arguments {
        write!(came, "{}: {}", argument.name, argument.arg_type)?;
        if let Some(value) = &argument.default_value {
            write!(came, " = {value}")?;
        }
        came.push(';')?;
    }
    Ok(())
}

fn show_values(values: &[EnumValue], came: &mut String) -> Result<(), AllocError> {
    for value in values {
        let end = status(&value.deprecation_status);
        write!(came, "{}{end};", value.name)?;
    }
    Ok(())
}

fn status(status: &DeprecationStatus) -> &str {
    match status.reason() {
        Some(reason) => reason,
        None => { if status.is_deprecated() { "!" } else { "" } }
    }
}
