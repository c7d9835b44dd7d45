//! The definitions of a document, by kind.
use graphql_reader::type_system::{
    DirectiveDefinition, SchemaDefinition, TypeDefinition, TypeSystemDefinition,
};
use language::error::OutOfMemory;
use language::position::Spanning;
use std::alloc::Global;

/// A definition or an extension of a schema in a document.
#[derive(Clone, Copy)]
pub struct DefinedSchema<'d, 'a> {
    pub item: &'d Spanning<SchemaDefinition<'a>>,
}

/// A definition or an extension of a type in a document.
#[derive(Clone, Copy)]
pub struct DefinedType<'d, 'a> {
    pub item: &'d TypeDefinition<'a>,
}

impl<'d, 'a> DefinedType<'d, 'a> {
    /// The name of the type.
    pub fn name(&self) -> &'a str {
        let item = self.item;
        item.name.item
    }
}

/// A definition of a directive in a document.
#[derive(Clone, Copy)]
pub struct DefinedDirective<'d, 'a> {
    pub item: &'d DirectiveDefinition<'a>,
}

/// The definitions and extensions of a document, which they borrow, and those standard types that it does not define
/// itself.
#[derive(Drop)]
pub struct Parts<'d, 'a> {
    pub schemas: Vec<DefinedSchema<'d, 'a>>,
    pub types: Vec<DefinedType<'d, 'a>>,
    /// By the names of their types, those of one type in the order of the text.
    pub extensions: Vec<DefinedType<'d, 'a>>,
    pub standard: Vec<DefinedType<'d, 'a>>,
    pub directives: Vec<DefinedDirective<'d, 'a>>,
}

impl<'d, 'a> Parts<'d, 'a> {
    /// The extensions of the type with this name, in the order of the text.
    pub fn extensions_of(&self, name: &str) -> &[DefinedType<'d, 'a>] {
        let extensions = self.extensions.as_slice();
        let start = extensions.partition_point(|part| part.name() < name);
        let rest = &extensions[start..];
        let end = rest.partition_point(|part| part.name() == name);
        &rest[..end]
    }
}

/// The parts of a document. `standard` holds the definitions of the standard types.
///
/// # Errors
///
/// Out of memory.
pub fn parts_of<'d, 'a>(
    alloc: Global,
    document: &'d [TypeSystemDefinition<'a>],
    standard: &'d [TypeSystemDefinition<'a>],
) -> Result<Parts<'d, 'a>, OutOfMemory> {
    let mut parts = Parts {
        schemas: Vec::new(alloc),
        types: Vec::new(alloc),
        extensions: Vec::new(alloc),
        standard: Vec::new(alloc),
        directives: Vec::new(alloc),
    };
    for definition in document {
        add_part(&mut parts, definition)?;
    }
    for definition in standard {
        add_standard(&mut parts, definition)?;
    }
    parts.extensions.sort_by_key(|part| part.name())?;
    Ok(parts)
}

fn add_part<'d, 'a>(
    parts: &mut Parts<'d, 'a>,
    definition: &'d TypeSystemDefinition<'a>,
) -> Result<(), OutOfMemory> {
    match definition {
        TypeSystemDefinition::Schema(item) => parts.schemas.push(DefinedSchema { item })?,
        TypeSystemDefinition::Type(defined) => add_type(parts, &defined.item)?,
        TypeSystemDefinition::Directive(defined) => parts.directives.push(DefinedDirective {
            item: &defined.item,
        })?,
    }
    Ok(())
}

fn add_type<'d, 'a>(
    parts: &mut Parts<'d, 'a>,
    item: &'d TypeDefinition<'a>,
) -> Result<(), OutOfMemory> {
    if item.is_extension {
        parts.extensions.push(DefinedType { item })?;
    } else {
        parts.types.push(DefinedType { item })?;
    }
    Ok(())
}

// Adds a standard type, unless the document defines its name.
fn add_standard<'d, 'a>(
    parts: &mut Parts<'d, 'a>,
    definition: &'d TypeSystemDefinition<'a>,
) -> Result<(), OutOfMemory> {
    if let TypeSystemDefinition::Type(defined) = definition {
        if first_named(parts.types.as_slice(), defined.item.name.item).is_none() {
            parts.standard.push(DefinedType {
                item: &defined.item,
            })?;
        }
    }
    Ok(())
}

/// The first type with this name.
pub fn first_named<'d, 'a>(
    types: &[DefinedType<'d, 'a>],
    name: &str,
) -> Option<DefinedType<'d, 'a>> {
    for defined in types {
        if defined.name() == name {
            return Some(*defined);
        }
    }
    None
}
