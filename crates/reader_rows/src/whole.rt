//! All that a schema says, as a text: its description, its roots, each type with what it is made of, and each
//! directive.
use crate::shown::SourceSchema;
use introspection::schema_text;
use meta::arguments::Argument;
use meta::enum_values::EnumValue;
use meta::fields::Field;
use meta::kinds::MetaTypeOf;
use schema::model::DirectiveType;
use sdl_reader::{SourceScalar, read_schema};
use sdl_scalars::check::SourceCheck;
use std::alloc::{AllocError, Global};

/// Appends whether the schema of a text is that of the introspection result that stands after a line `---`, or else
/// what each of both says.
///
/// # Errors
///
/// Out of memory.
pub fn tell_both(alloc: Global, text: &str, came: &mut String) -> Result<(), AllocError> {
    let (own, response) = text.split_once("\n---\n").unwrap_or((text, ""));
    let mut wanted = String::new(alloc);
    show_text(alloc, own, &mut wanted)?;
    let mut found = String::new(alloc);
    show_result(alloc, response, &mut found)?;
    tell_same(wanted.as_str(), found.as_str(), came)
}

fn tell_same(wanted: &str, found: &str, came: &mut String) -> Result<(), AllocError> {
    if wanted.starts_with("schema ") && found == wanted {
        came.push_str("the same\n")
    } else {
        writeln!(came, "{wanted}\n---\n{found}")
    }
}

fn show_result(alloc: Global, response: &str, shown: &mut String) -> Result<(), AllocError> {
    match schema_text(alloc, response) {
        Ok(text) => show_text(alloc, text.as_str(), shown),
        Err(error) => write!(shown, "{error}"),
    }
}

// What the schema of a text holds, or why it is not a schema.
fn show_text(alloc: Global, text: &str, shown: &mut String) -> Result<(), AllocError> {
    match read_schema(alloc, text) {
        Ok(schema) => show_schema(alloc, &schema, shown),
        Err(error) => write!(shown, "no schema: {error}"),
    }
}

fn show_schema(alloc: Global, schema: &SourceSchema, shown: &mut String) -> Result<(), AllocError> {
    let description = schema.description();
    write!(shown, "schema {description:?}")?;
    show_roots(schema, shown)?;
    show_types(alloc, schema, shown)?;
    show_directives(alloc, schema, shown)
}

fn name_of(meta: Option<&MetaTypeOf<SourceScalar, SourceCheck>>) -> Option<&str> {
    match meta {
        Some(meta) => meta.name(),
        None => None,
    }
}

fn show_roots(schema: &SourceSchema, shown: &mut String) -> Result<(), AllocError> {
    let query = schema.concrete_query_type().name();
    let mutation = name_of(schema.concrete_mutation_type());
    let subscription = name_of(schema.concrete_subscription_type());
    write!(shown, "\nroots {query:?} {mutation:?} {subscription:?}")
}

fn show_types(alloc: Global, schema: &SourceSchema, shown: &mut String) -> Result<(), AllocError> {
    match schema.concrete_type_list(alloc) {
        Ok(types) => show_each_type(types.as_slice(), shown),
        Err(_) => shown.push_str("\nno list of types"),
    }
}

fn show_each_type(
    types: &[&MetaTypeOf<SourceScalar, SourceCheck>],
    shown: &mut String,
) -> Result<(), AllocError> {
    for meta in types {
        let (name, description) = (meta.name(), meta.description());
        write!(shown, "\n{name:?} {description:?} ")?;
        show_body(*meta, shown)?;
    }
    Ok(())
}

fn show_body(
    meta: &MetaTypeOf<SourceScalar, SourceCheck>,
    shown: &mut String,
) -> Result<(), AllocError> {
    match meta {
        MetaTypeOf::Scalar(scalar) => write!(shown, "scalar {:?}", scalar.specified_by_url),
        MetaTypeOf::Object(object) => {
            write!(shown, "object {:?}", object.interface_names)?;
            show_fields(object.fields.as_slice(), shown)
        }
        MetaTypeOf::Interface(interface) => {
            write!(shown, "interface {:?}", interface.interface_names)?;
            show_fields(interface.fields.as_slice(), shown)
        }
        MetaTypeOf::Union(union) => write!(shown, "union {:?}", union.of_type_names),
        MetaTypeOf::Enum(meta) => show_values(meta.values.as_slice(), shown),
        MetaTypeOf::InputObject(input) => show_inputs(input.input_fields.as_slice(), shown),
        _ => shown.push_str("no type of a text"),
    }
}

fn show_fields(fields: &[Field<SourceScalar>], shown: &mut String) -> Result<(), AllocError> {
    for field in fields {
        write!(shown, "\n  {} {:?} ", field.name, field.description)?;
        match &field.arguments {
            Some(arguments) => show_inputs(arguments.as_slice(), shown)?,
            None => shown.push_str("any")?,
        }
        write!(
            shown,
            ": {} {:?}",
            field.field_type, field.deprecation_status
        )?;
    }
    Ok(())
}

fn show_values(values: &[EnumValue], shown: &mut String) -> Result<(), AllocError> {
    shown.push_str("enum")?;
    for value in values {
        write!(shown, "\n  {} {:?} ", value.name, value.description)?;
        write!(shown, "{:?}", value.deprecation_status)?;
    }
    Ok(())
}

// Arguments or input fields.
fn show_inputs(inputs: &[Argument<SourceScalar>], shown: &mut String) -> Result<(), AllocError> {
    shown.push_str("inputs")?;
    for input in inputs {
        write!(
            shown,
            "; {} {:?} {}",
            input.name, input.description, input.arg_type
        )?;
        if let Some(value) = &input.default_value {
            write!(shown, " = {value}")?;
        }
    }
    Ok(())
}

fn show_directives(
    alloc: Global,
    schema: &SourceSchema,
    shown: &mut String,
) -> Result<(), AllocError> {
    match schema.directive_list(alloc) {
        Ok(directives) => show_each_directive(directives.as_slice(), shown),
        Err(_) => shown.push_str("\nno list of directives"),
    }
}

fn show_each_directive(
    directives: &[&DirectiveType<SourceScalar>],
    shown: &mut String,
) -> Result<(), AllocError> {
    for directive in directives {
        write!(shown, "\n@{} {:?} ", directive.name, directive.description)?;
        show_inputs(directive.arguments.as_slice(), shown)?;
        write!(
            shown,
            " {} {:?}",
            directive.is_repeatable, directive.locations
        )?;
    }
    Ok(())
}
