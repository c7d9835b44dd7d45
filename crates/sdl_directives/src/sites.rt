//! Where directives stand in a type system document.
ghost use Rattle.std.specs.Prelude.{◌≡◌, ◌++◌, IfOk, OnOk};
ghost use Rattle.std.specs.List.{flat_map};
ghost use Rattle.sdl_directives.specs.Locations.{body_location};
ghost use Rattle.sdl_directives.specs.Sites.{body_sites, definition_sites, enum_value_sites, field_sites};
ghost use Rattle.sdl_directives.specs.Sites.{parameter_sites, site_at, site_values};

use crate::locations::body_location;
use graphql_reader::SourceScalar;
use graphql_reader::type_system::{
    DirectivePlace, EnumValueDefinition, FieldDefinition, InputValueDefinition, TypeBody,
    TypeDefinition, TypeSystemDefinition,
};
use language::error::OutOfMemory;
use language::position::Spanning;
use language::tree::Directive;
use std::alloc::Global;

/// The directives of a definition or of a member, and their location.
#[derive(Clone, Copy)]
pub struct Site<'d, 't> {
    pub location: DirectivePlace,
    pub directives: &'d [Spanning<Directive<'t, SourceScalar>>],
}

/// All directives of a document, by the definitions and members that have them, in the order of the text.
///
/// # Errors
///
/// Out of memory.
pub fn sites_of<'d, 't>(
    alloc: Global,
    document: &'d [TypeSystemDefinition<'t>],
) -> Result<Vec<Site<'d, 't>>, OutOfMemory>
    ensures { IfOk result (λ v. site_values v.items ≡ flat_map definition_sites document.now) }
{
    let mut sites = Vec::new(alloc);
    for definition in document {
        add_definition(&mut sites, definition)?;
    }
    Ok(sites)
}

fn add_definition<'d, 't>(
    sites: &mut Vec<Site<'d, 't>>,
    definition: &'d TypeSystemDefinition<'t>,
) -> Result<(), OutOfMemory>
    ensures { OnOk result (site_values sites.new.items ≡ site_values sites.old.items
        ++ definition_sites definition.now) }
{
    match definition {
        TypeSystemDefinition::Schema(defined) => {
            add_site(sites, DirectivePlace::Schema, &defined.item.directives)
        }
        TypeSystemDefinition::Type(defined) => add_type(sites, &defined.item),
        TypeSystemDefinition::Directive(defined) => add_parameters(
            sites,
            DirectivePlace::ArgumentDefinition,
            defined.item.arguments.as_slice(),
        ),
    }
}

fn add_type<'d, 't>(
    sites: &mut Vec<Site<'d, 't>>,
    defined: &'d TypeDefinition<'t>,
) -> Result<(), OutOfMemory>
    ensures { OnOk result (site_values sites.new.items ≡ site_values sites.old.items
        ++ (site_at (body_location defined.now.body) defined.now.directives ++ body_sites defined.now.body)) }
{
    add_site(sites, body_location(&defined.body), &defined.directives)?;
    add_body(sites, &defined.body)
}

fn add_body<'d, 't>(
    sites: &mut Vec<Site<'d, 't>>,
    body: &'d TypeBody<'t>,
) -> Result<(), OutOfMemory>
    ensures { OnOk result (site_values sites.new.items ≡ site_values sites.old.items ++ body_sites body.now) }
{
    match body {
        TypeBody::Object(fields) => add_fields(sites, fields.as_slice()),
        TypeBody::Interface(fields) => add_fields(sites, fields.as_slice()),
        TypeBody::Enum(values) => add_enum_values(sites, values.as_slice()),
        TypeBody::InputObject(fields) => add_parameters(
            sites,
            DirectivePlace::InputFieldDefinition,
            fields.as_slice(),
        ),
        TypeBody::Scalar => Ok(()),
        TypeBody::Union(_) => Ok(()),
    }
}

fn add_fields<'d, 't>(
    sites: &mut Vec<Site<'d, 't>>,
    fields: &'d [FieldDefinition<'t>],
) -> Result<(), OutOfMemory>
    ensures { OnOk result (site_values sites.new.items ≡ site_values sites.old.items
        ++ flat_map field_sites fields.now) }
{
    for field in fields {
        add_field(sites, field)?;
    }
    Ok(())
}

fn add_field<'d, 't>(
    sites: &mut Vec<Site<'d, 't>>,
    field: &'d FieldDefinition<'t>,
) -> Result<(), OutOfMemory>
    ensures { OnOk result (site_values sites.new.items ≡ site_values sites.old.items ++ field_sites field.now) }
{
    add_parameters(
        sites,
        DirectivePlace::ArgumentDefinition,
        field.arguments.as_slice(),
    )?;
    add_site(sites, DirectivePlace::FieldDefinition, &field.directives)
}

// Adds the directives of arguments, or of fields of an input object.
fn add_parameters<'d, 't>(
    sites: &mut Vec<Site<'d, 't>>,
    location: DirectivePlace,
    parameters: &'d [InputValueDefinition<'t>],
) -> Result<(), OutOfMemory>
    ensures { OnOk result (site_values sites.new.items ≡ site_values sites.old.items
        ++ flat_map (parameter_sites location) parameters.now) }
{
    for parameter in parameters {
        add_site(sites, location, &parameter.directives)?;
    }
    Ok(())
}

fn add_enum_values<'d, 't>(
    sites: &mut Vec<Site<'d, 't>>,
    values: &'d [EnumValueDefinition<'t>],
) -> Result<(), OutOfMemory>
    ensures { OnOk result (site_values sites.new.items ≡ site_values sites.old.items
        ++ flat_map enum_value_sites values.now) }
{
    for value in values {
        add_site(sites, DirectivePlace::EnumValue, &value.directives)?;
    }
    Ok(())
}

fn add_site<'d, 't>(
    sites: &mut Vec<Site<'d, 't>>,
    location: DirectivePlace,
    directives: &'d Option<Vec<Spanning<Directive<'t, SourceScalar>>>>,
) -> Result<(), OutOfMemory>
    ensures { OnOk result (site_values sites.new.items ≡ site_values sites.old.items
        ++ site_at location directives.now) }
{
    if let Some(list) = directives {
        let directives = list.as_slice();
        sites.push(Site {
            location,
            directives,
        })?;
    }
    Ok(())
}
