//! Extensions of types, and which of them extend a definition (GraphQL, October 2021, section 3.4.3).
ghost use Rattle.std.specs.Prelude.{◌≡◌, ◌++◌, IfOk, OnOk};
ghost use Rattle.sdl_own_faults.specs.Parts.{definitions_of, extends, extension_in, extensions_in, is_same_kind};
ghost use Rattle.sdl_own_faults.specs.Parts.{listed_by, listing_in, listing_of};

use graphql_reader::type_system::{TypeBody, TypeDefinition, TypeSystemDefinition};
use language_types::error::OutOfMemory;
use language_types::position::Spanning;
use std::alloc::Global;

/// A definition or extension of a type.
#[derive(Clone, Copy)]
pub(crate) struct Part<'d, 't> {
    pub(crate) definition: &'d TypeDefinition<'t>,
}

/// The extensions of types in a document.
///
/// # Errors
///
/// Out of memory.
pub(crate) fn extensions_in<'d, 't>(
    alloc: Global,
    document: &'d [TypeSystemDefinition<'t>],
) -> Result<Vec<Part<'d, 't>>, OutOfMemory>
    ensures { IfOk result (λ v. definitions_of v.items ≡ extensions_in document.now) }
{
    let mut extensions = Vec::new(alloc);
    for definition in document {
        add_extension(&mut extensions, definition)?;
    }
    Ok(extensions)
}

fn add_extension<'d, 't>(
    extensions: &mut Vec<Part<'d, 't>>,
    definition: &'d TypeSystemDefinition<'t>,
) -> Result<(), OutOfMemory>
    ensures { OnOk result (definitions_of extensions.new.items ≡ definitions_of extensions.old.items
        ++ extension_in definition.now) }
{
    if let TypeSystemDefinition::Type(defined) = definition {
        if defined.item.is_extension {
            let definition = &defined.item;
            extensions.push(Part { definition })?;
        }
    }
    Ok(())
}

/// Those of the extensions that list types: interfaces, or members of a union.
///
/// # Errors
///
/// Out of memory.
pub(crate) fn listing_in<'d, 't>(
    alloc: Global,
    extensions: &[Part<'d, 't>],
) -> Result<Vec<Part<'d, 't>>, OutOfMemory>
    ensures { IfOk result (λ v. definitions_of v.items ≡ listing_in (definitions_of extensions.now)) }
{
    let mut listing = Vec::new(alloc);
    for extension in extensions {
        add_listing(&mut listing, *extension)?;
    }
    Ok(listing)
}

fn add_listing<'d, 't>(
    listing: &mut Vec<Part<'d, 't>>,
    extension: Part<'d, 't>,
) -> Result<(), OutOfMemory>
    ensures { OnOk result (definitions_of listing.new.items ≡ definitions_of listing.old.items
        ++ listing_of extension.entry.definition.now) }
{
    if !listed_by(extension.definition).is_empty() {
        listing.push(extension)?;
    }
    Ok(())
}

/// The types that a definition or extension lists: the members of a union, or the interfaces that a type implements.
pub(crate) fn listed_by<'d, 't>(defined: &'d TypeDefinition<'t>) -> &'d [Spanning<&'t str>]
    ensures { result.now ≡ listed_by defined.now }
{
    match &defined.body {
        TypeBody::Union(names) => names.as_slice(),
        _ => defined.interfaces.as_slice(),
    }
}

/// Whether an extension has the name and the kind of a definition.
pub(crate) fn extends(extension: &TypeDefinition<'_>, defined: &TypeDefinition<'_>) -> bool
    ensures { result ≡ extends extension.now defined.now }
{
    extension.name.item == defined.name.item && is_same_kind(&extension.body, &defined.body)
}

fn is_same_kind(one: &TypeBody<'_>, other: &TypeBody<'_>) -> bool
    ensures { result ≡ is_same_kind one.now other.now }
{
    match (one, other) {
        (TypeBody::Scalar, TypeBody::Scalar) => true,
        (TypeBody::Object(_), TypeBody::Object(_)) => true,
        (TypeBody::Interface(_), TypeBody::Interface(_)) => true,
        (TypeBody::Union(_), TypeBody::Union(_)) => true,
        (TypeBody::Enum(_), TypeBody::Enum(_)) => true,
        (TypeBody::InputObject(_), TypeBody::InputObject(_)) => true,
        _ => false,
    }
}
