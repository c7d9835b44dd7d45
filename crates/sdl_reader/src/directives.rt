//! The directives of a schema (GraphQL, October 2021, section 3.13).
use crate::fields::{arguments_of, copied};
use graphql_reader::SourceScalar;
use graphql_reader::type_system::{DirectiveDefinition, DirectivePlace};
use language_types::error::OutOfMemory;
use language_types::position::{SourcePosition, Spanning};
use language_types::types::Type;
use language_values::value::InputValue;
use meta::Argument;
use schema::error::SchemaError;
use schema::model::{DirectiveLocation, DirectiveType, SchemaTypeOf};
use sdl_index::error::{SchemaFault, SchemaReadError};
use sdl_index::parts::DefinedDirective;
use sdl_scalars::check::SourceCheck;
use std::alloc::Global;

/// A schema that is read from a text.
pub type SourceSchema = SchemaTypeOf<SourceScalar, SourceCheck>;

/// Adds directives to a schema, after `@deprecated` with its default reason (section 3.13.3), which the directives that
/// each schema has lack. One of the name of a standard directive takes its place.
///
/// # Errors
///
/// A directive is refused for an argument's type, or out of memory.
pub fn add_directives<'a>(
    alloc: Global,
    schema: &mut SourceSchema,
    directives: &[DefinedDirective<'_, 'a>],
) -> Result<(), SchemaReadError<'a>> {
    let deprecated = deprecated(alloc)?;
    add_directive(alloc, schema, deprecated, SourcePosition::new(0, 0, 0))?;
    for defined in directives {
        let item = defined.item;
        let directive = directive_of(alloc, item)?;
        add_directive(alloc, schema, directive, item.name.span.start)?;
    }
    Ok(())
}

// Adds a directive that stands at a position.
fn add_directive<'a>(
    alloc: Global,
    schema: &mut SourceSchema,
    directive: DirectiveType<SourceScalar>,
    position: SourcePosition,
) -> Result<(), SchemaReadError<'a>> {
    match schema.add_directive(directive) {
        Ok(()) => Ok(()),
        Err(SchemaError::OutOfMemory) => Err(SchemaReadError::OutOfMemory),
        Err(error) => Err(SchemaReadError::of_fault(alloc, position, SchemaFault::Refused(error))),
    }
}

// `directive @deprecated(reason: String = "No longer supported") on FIELD_DEFINITION | ENUM_VALUE` (section 3.13.3).
fn deprecated(alloc: Global) -> Result<DirectiveType<SourceScalar>, OutOfMemory> {
    let text = String::from_str(alloc, "No longer supported")?;
    let reason = Argument::new(alloc, "reason", Type::nullable(alloc, "String")?)?.default_value(
        InputValue::Scalar(SourceScalar::String(text)),
    );
    Ok(DirectiveType {
        name: String::from_str(alloc, "deprecated")?,
        description: None,
        locations: vec![in alloc;
            DirectiveLocation::FieldDefinition,
            DirectiveLocation::EnumValue,
        ]?,
        arguments: vec![in alloc; reason]?,
        is_repeatable: false,
    })
}

fn directive_of(
    alloc: Global,
    defined: &DirectiveDefinition<'_>,
) -> Result<DirectiveType<SourceScalar>, OutOfMemory> {
    let arguments = arguments_of(alloc, defined.arguments.as_slice())?;
    Ok(DirectiveType {
        name: String::from_str(alloc, defined.name.item)?,
        description: copied(alloc, &defined.description)?,
        locations: locations_of(alloc, defined.locations.as_slice())?,
        arguments,
        is_repeatable: defined.is_repeatable,
    })
}

fn locations_of(
    alloc: Global,
    places: &[Spanning<DirectivePlace>],
) -> Result<Vec<DirectiveLocation>, OutOfMemory> {
    let mut locations = Vec::new(alloc);
    for place in places {
        locations.push(location_of(place.item))?;
    }
    Ok(locations)
}

fn location_of(place: DirectivePlace) -> DirectiveLocation {
    match place {
        DirectivePlace::Query => DirectiveLocation::Query,
        DirectivePlace::Mutation => DirectiveLocation::Mutation,
        DirectivePlace::Subscription => DirectiveLocation::Subscription,
        DirectivePlace::Field => DirectiveLocation::Field,
        DirectivePlace::FragmentDefinition => DirectiveLocation::FragmentDefinition,
        DirectivePlace::FragmentSpread => DirectiveLocation::FragmentSpread,
        DirectivePlace::InlineFragment => DirectiveLocation::InlineFragment,
        DirectivePlace::VariableDefinition => DirectiveLocation::VariableDefinition,
        DirectivePlace::Schema => DirectiveLocation::Schema,
        DirectivePlace::Scalar => DirectiveLocation::Scalar,
        DirectivePlace::Object => DirectiveLocation::Object,
        DirectivePlace::FieldDefinition => DirectiveLocation::FieldDefinition,
        DirectivePlace::ArgumentDefinition => DirectiveLocation::ArgumentDefinition,
        DirectivePlace::Interface => DirectiveLocation::Interface,
        DirectivePlace::Union => DirectiveLocation::Union,
        DirectivePlace::Enum => DirectiveLocation::Enum,
        DirectivePlace::EnumValue => DirectiveLocation::EnumValue,
        DirectivePlace::InputObject => DirectiveLocation::InputObject,
        DirectivePlace::InputFieldDefinition => DirectiveLocation::InputFieldDefinition,
    }
}
