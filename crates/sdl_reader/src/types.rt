//! Metadata of types, each from its definition and extensions.
use crate::fields::{add_arguments, add_fields, add_names, add_values, copied};
use graphql_reader::SourceScalar;
use graphql_reader::type_system::{TypeBody, TypeDefinition};
use language_types::error::OutOfMemory;
use language_types::types::Type;
use meta::arguments::Argument;
use meta::enum_values::EnumValue;
use meta::enums::EnumMetaOf;
use meta::fields::Field;
use meta::inputs::InputObjectMetaOf;
use meta::interfaces::InterfaceMeta;
use meta::kinds::MetaTypeOf;
use meta::objects::ObjectMeta;
use meta::scalars::ScalarMetaOf;
use meta::unions::UnionMeta;
use sdl_index::applied::specified_by;
use sdl_index::parts::{DefinedType, Parts};
use sdl_scalars::check::SourceCheck;
use std::alloc::Global;

/// Metadata of a type of a text.
pub type SourceMeta = MetaTypeOf<SourceScalar, SourceCheck>;

// The extensions of a type.
type Extensions<'e, 'd, 'a> = &'e [DefinedType<'d, 'a>];

/// The types of a document, followed by the standard types.
///
/// # Errors
///
/// Out of memory.
pub fn types_of(alloc: Global, parts: &Parts<'_, '_>) -> Result<Vec<SourceMeta>, OutOfMemory> {
    let mut types = Vec::new(alloc);
    add_types(alloc, parts, parts.types.as_slice(), &mut types)?;
    add_types(alloc, parts, parts.standard.as_slice(), &mut types)?;
    Ok(types)
}

fn add_types<'d>(
    alloc: Global,
    parts: &Parts<'d, '_>,
    defined: &[DefinedType<'d, '_>],
    types: &mut Vec<SourceMeta>,
) -> Result<(), OutOfMemory> {
    for definition in defined {
        let extensions = parts.extensions_of(definition.name());
        types.push(type_of(alloc, definition.item, extensions)?)?;
    }
    Ok(())
}

fn type_of<'d>(
    alloc: Global,
    defined: &'d TypeDefinition<'_>,
    extensions: Extensions<'_, 'd, '_>,
) -> Result<SourceMeta, OutOfMemory> {
    match &defined.body {
        TypeBody::Scalar => scalar_of(alloc, defined, extensions),
        TypeBody::Object(_) => object_of(alloc, defined, extensions),
        TypeBody::Interface(_) => interface_of(alloc, defined, extensions),
        TypeBody::Union(_) => union_of(alloc, defined, extensions),
        TypeBody::Enum(_) => enum_of(alloc, defined, extensions),
        TypeBody::InputObject(_) => input_object_of(alloc, defined, extensions),
    }
}

// Built-in scalars are known by their names (section 3.5).
fn check_of(name: &str) -> SourceCheck {
    match name {
        "Int" => SourceCheck::Int,
        "Float" => SourceCheck::Float,
        "String" => SourceCheck::String,
        "Boolean" => SourceCheck::Boolean,
        "ID" => SourceCheck::Id,
        _ => SourceCheck::Any,
    }
}

fn scalar_of<'d>(
    alloc: Global,
    defined: &'d TypeDefinition<'_>,
    extensions: Extensions<'_, 'd, '_>,
) -> Result<SourceMeta, OutOfMemory> {
    let name = defined.name.item;
    let mut meta = scalar_named(alloc, name)?;
    meta.description = copied(alloc, &defined.description)?;
    if let Some(url) = url_of(defined, extensions) {
        meta.specified_by_url = Some(String::from_str(alloc, url)?);
    }
    Ok(meta.into_meta())
}

// A scalar of this name, without a description. A custom one takes any literal (section 3.5).
fn scalar_named(alloc: Global, name: &str) -> Result<ScalarMetaOf<SourceCheck>, OutOfMemory> {
    let check = check_of(name);
    let custom = matches!(check, SourceCheck::Any);
    let meta = ScalarMetaOf::with_check(alloc, name, check)?;
    if custom {
        Ok(meta.with_any_literal())
    } else {
        Ok(meta)
    }
}

fn url_of<'d>(
    defined: &'d TypeDefinition<'_>,
    extensions: Extensions<'_, 'd, '_>,
) -> Option<&'d str> {
    let url = specified_by(&defined.directives);
    if url.is_some() {
        return url;
    }
    for part in extensions {
        let item = part.item;
        let url = specified_by(&item.directives);
        if url.is_some() {
            return url;
        }
    }
    None
}

fn object_of(
    alloc: Global,
    defined: &TypeDefinition<'_>,
    extensions: Extensions<'_, '_, '_>,
) -> Result<SourceMeta, OutOfMemory> {
    let fields = fields_of(alloc, defined, extensions)?;
    let interface_names = interfaces_of(alloc, defined, extensions)?;
    let mut object = ObjectMeta::new(alloc, defined.name.item, fields)?;
    object.description = copied(alloc, &defined.description)?;
    object.interface_names = interface_names;
    Ok(MetaTypeOf::Object(object))
}

fn interface_of(
    alloc: Global,
    defined: &TypeDefinition<'_>,
    extensions: Extensions<'_, '_, '_>,
) -> Result<SourceMeta, OutOfMemory> {
    let fields = fields_of(alloc, defined, extensions)?;
    let interface_names = interfaces_of(alloc, defined, extensions)?;
    let mut interface = InterfaceMeta::new(alloc, defined.name.item, fields)?;
    interface.description = copied(alloc, &defined.description)?;
    interface.interface_names = interface_names;
    Ok(MetaTypeOf::Interface(interface))
}

// `__typename: String!`, which each object and interface has (section 4.1).
fn typename(alloc: Global) -> Result<Field<SourceScalar>, OutOfMemory> {
    let mut field = Field::new(alloc, "__typename", Type::non_null(alloc, "String")?)?;
    field.arguments = Some(Vec::new(alloc));
    Ok(field)
}

fn fields_of(
    alloc: Global,
    defined: &TypeDefinition<'_>,
    extensions: Extensions<'_, '_, '_>,
) -> Result<Vec<Field<SourceScalar>>, OutOfMemory> {
    let mut fields = Vec::new(alloc);
    fields.push(typename(alloc)?)?;
    add_fields_of(alloc, defined, &mut fields)?;
    for part in extensions {
        add_fields_of(alloc, part.item, &mut fields)?;
    }
    Ok(fields)
}

fn add_fields_of(
    alloc: Global,
    part: &TypeDefinition<'_>,
    fields: &mut Vec<Field<SourceScalar>>,
) -> Result<(), OutOfMemory> {
    match &part.body {
        TypeBody::Object(defined) | TypeBody::Interface(defined) => {
            add_fields(alloc, defined.as_slice(), fields)
        }
        _ => Ok(()),
    }
}

fn interfaces_of(
    alloc: Global,
    defined: &TypeDefinition<'_>,
    extensions: Extensions<'_, '_, '_>,
) -> Result<Vec<String>, OutOfMemory> {
    let mut names = Vec::new(alloc);
    add_names(alloc, defined.interfaces.as_slice(), &mut names)?;
    for part in extensions {
        let item = part.item;
        add_names(alloc, item.interfaces.as_slice(), &mut names)?;
    }
    Ok(names)
}

fn union_of(
    alloc: Global,
    defined: &TypeDefinition<'_>,
    extensions: Extensions<'_, '_, '_>,
) -> Result<SourceMeta, OutOfMemory> {
    let of_type_names = members_of(alloc, defined, extensions)?;
    Ok(MetaTypeOf::Union(UnionMeta {
        name: String::from_str(alloc, defined.name.item)?,
        description: copied(alloc, &defined.description)?,
        of_type_names,
    }))
}

fn members_of(
    alloc: Global,
    defined: &TypeDefinition<'_>,
    extensions: Extensions<'_, '_, '_>,
) -> Result<Vec<String>, OutOfMemory> {
    let mut names = Vec::new(alloc);
    add_members_of(alloc, defined, &mut names)?;
    for part in extensions {
        add_members_of(alloc, part.item, &mut names)?;
    }
    Ok(names)
}

fn add_members_of(
    alloc: Global,
    part: &TypeDefinition<'_>,
    names: &mut Vec<String>,
) -> Result<(), OutOfMemory> {
    match &part.body {
        TypeBody::Union(members) => add_names(alloc, members.as_slice(), names),
        _ => Ok(()),
    }
}

fn enum_of(
    alloc: Global,
    defined: &TypeDefinition<'_>,
    extensions: Extensions<'_, '_, '_>,
) -> Result<SourceMeta, OutOfMemory> {
    let mut names = Vec::new(alloc);
    let mut values = Vec::new(alloc);
    add_values_of(alloc, defined, &mut names, &mut values)?;
    for part in extensions {
        add_values_of(alloc, part.item, &mut names, &mut values)?;
    }
    let check = SourceCheck::Enum(names);
    let mut meta = EnumMetaOf::with_check(alloc, defined.name.item, values, check)?;
    meta.description = copied(alloc, &defined.description)?;
    Ok(meta.into_meta())
}

fn input_object_of(
    alloc: Global,
    defined: &TypeDefinition<'_>,
    extensions: Extensions<'_, '_, '_>,
) -> Result<SourceMeta, OutOfMemory> {
    let mut fields = Vec::new(alloc);
    add_inputs_of(alloc, defined, &mut fields)?;
    for part in extensions {
        add_inputs_of(alloc, part.item, &mut fields)?;
    }
    let name = defined.name.item;
    let mut meta = InputObjectMetaOf::with_check(alloc, name, fields, SourceCheck::Object)?;
    meta.description = copied(alloc, &defined.description)?;
    Ok(meta.into_meta())
}

fn add_values_of(
    alloc: Global,
    part: &TypeDefinition<'_>,
    names: &mut Vec<String>,
    values: &mut Vec<EnumValue>,
) -> Result<(), OutOfMemory> {
    match &part.body {
        TypeBody::Enum(listed) => add_values(alloc, listed.as_slice(), names, values),
        _ => Ok(()),
    }
}

fn add_inputs_of(
    alloc: Global,
    part: &TypeDefinition<'_>,
    fields: &mut Vec<Argument<SourceScalar>>,
) -> Result<(), OutOfMemory> {
    match &part.body {
        TypeBody::InputObject(listed) => add_arguments(alloc, listed.as_slice(), fields),
        _ => Ok(()),
    }
}
