//! Definitions without members, in place of touched types.
use crate::touched::{STAND_IN, Touched};
use graphql_reader::type_system::{
    RootOperationType, SchemaDefinition, TypeBody, TypeDefinition, TypeSystemDefinition,
};
use language::tree::OperationType;
use language_types::error::OutOfMemory;
use language_types::position::{SourcePosition, Span, Spanning};
use name_tables::map::NameMap;
use std::alloc::Global;

impl<'a> Touched<'a> {
    /// Whether this defines or extends what is touched.
    pub(crate) fn has_definition(&self, definition: &TypeSystemDefinition<'_>) -> bool {
        match definition {
            TypeSystemDefinition::Schema(_) => self.schema,
            TypeSystemDefinition::Type(defined) => self.has_type(defined.item.name.item),
            TypeSystemDefinition::Directive(defined) => {
                self.directives.index(defined.item.name.item).is_some()
            }
        }
    }
}

/// A definition for each touched type that the document defines, by the first one of its name, and a query root where
/// there is none.
///
/// # Errors
///
/// Out of memory.
pub(crate) fn shells_of<'a>(
    alloc: Global,
    document: &[TypeSystemDefinition<'a>],
    touched: &Touched<'_>,
) -> Result<Vec<TypeSystemDefinition<'a>>, OutOfMemory> {
    let mut defined = NameMap::new(alloc);
    let mut shells = Vec::new(alloc);
    for definition in document {
        if let TypeSystemDefinition::Type(found) = definition {
            let is_touched = touched.has_type(found.item.name.item);
            if is_touched && !found.item.is_extension {
                add_shell(alloc, found, &mut defined, &mut shells)?;
            }
        }
    }
    if touched.schema || touched.query {
        shells.push(query_root(alloc)?)?;
    }
    Ok(shells)
}

// Appends a definition of this type, unless there is one.
fn add_shell<'a>(
    alloc: Global,
    found: &Spanning<TypeDefinition<'a>>,
    defined: &mut NameMap<'a, ()>,
    shells: &mut Vec<TypeSystemDefinition<'a>>,
) -> Result<(), OutOfMemory> {
    if defined.insert(found.item.name.item, ())?.is_none() {
        shells.push(shell_of(alloc, found))?;
    }
    Ok(())
}

// An object without fields where the type is one, and else a scalar, which takes any value. Its places are those of the
// type.
fn shell_of<'a>(alloc: Global, found: &Spanning<TypeDefinition<'a>>) -> TypeSystemDefinition<'a> {
    let body = match &found.item.body {
        TypeBody::Object(_) => TypeBody::Object(Vec::new(alloc)),
        _ => TypeBody::Scalar,
    };
    let name = Spanning {
        item: found.item.name.item,
        span: found.item.name.span,
    };
    TypeSystemDefinition::Type(Spanning {
        item: TypeDefinition {
            is_extension: false,
            description: None,
            name,
            interfaces: Vec::new(alloc),
            directives: None,
            body,
        },
        span: found.span,
    })
}

// `extend schema { query: __Schema }`, at the start of the text.
fn query_root<'a>(alloc: Global) -> Result<TypeSystemDefinition<'a>, OutOfMemory> {
    let start = SourcePosition::new(0, 0, 0);
    let span = Span { start, end: start };
    let name = Spanning {
        item: STAND_IN,
        span,
    };
    let root = RootOperationType {
        operation_type: OperationType::Query,
        name,
    };
    Ok(TypeSystemDefinition::Schema(Spanning {
        item: SchemaDefinition {
            is_extension: true,
            description: None,
            directives: None,
            roots: vec![in alloc; root]?,
        },
        span,
    }))
}
