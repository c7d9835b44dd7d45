//! The root operation types of a schema (GraphQL, October 2021, section 3.3.1).
use crate::error::{Defined, PlacedFault, SchemaFault};
use crate::kinds::{KnownTypes, TypeKind};
use crate::parts::{DefinedType, Parts, first_named};
use graphql_reader::type_system::{RootOperationType, SchemaDefinition};
use language::error::OutOfMemory;
use language::position::{SourcePosition, Spanning};
use language::tree::OperationType;
use schema::error::SchemaError;
use std::alloc::Global;

/// The name of a root type, and its position.
#[derive(Clone, Copy)]
pub struct Root<'a> {
    pub name: &'a str,
    pub position: SourcePosition,
}

/// The root types that a document names.
#[derive(Clone, Copy)]
pub struct Roots<'a> {
    pub query: Option<Root<'a>>,
    pub mutation: Option<Root<'a>>,
    pub subscription: Option<Root<'a>>,
    /// The position of the schema definition, or the start of a document that has none.
    pub position: SourcePosition,
}

impl<'a> Roots<'a> {
    /// The name of the mutation root type, or `_EmptyMutation`.
    pub fn mutation_name(&self) -> &'a str {
        match self.mutation {
            Some(root) => root.name,
            None => "_EmptyMutation",
        }
    }

    /// The name of the subscription root type, or `_EmptySubscription`.
    pub fn subscription_name(&self) -> &'a str {
        match self.subscription {
            Some(root) => root.name,
            None => "_EmptySubscription",
        }
    }

    fn of_operation(&self, operation_type: OperationType) -> Option<Root<'a>> {
        match operation_type {
            OperationType::Query => self.query,
            OperationType::Mutation => self.mutation,
            OperationType::Subscription => self.subscription,
        }
    }

    fn with(self, operation_type: OperationType, root: Root<'a>) -> Roots<'a> {
        let root = Some(root);
        match operation_type {
            OperationType::Query => Roots {
                query: root,
                ..self
            },
            OperationType::Mutation => Roots {
                mutation: root,
                ..self
            },
            OperationType::Subscription => Roots {
                subscription: root,
                ..self
            },
        }
    }
}

/// The root types of a document, and the faults of those that it names. Without a schema definition they are the types
/// `Query`, `Mutation` and `Subscription`. Of several schema definitions, and of several roots of one operation, the
/// first counts.
///
/// # Errors
///
/// Out of memory.
pub fn roots_of<'a>(
    parts: &Parts<'_, 'a>,
    faults: &mut Vec<PlacedFault<'a>>,
) -> Result<Roots<'a>, OutOfMemory> {
    let mut roots = Roots {
        query: None,
        mutation: None,
        subscription: None,
        position: SourcePosition::new(0, 0, 0),
    };
    let mut is_defined = false;
    for schema in parts.schemas.as_slice() {
        let item = schema.item;
        if is_defined && !item.item.is_extension {
            let fault = SchemaFault::SecondSchema;
            faults.push(PlacedFault {
                position: item.span.start,
                fault,
            })?;
        } else {
            roots = with_schema(roots, item, faults)?;
            is_defined = is_defined || !item.item.is_extension;
        }
    }
    if is_defined {
        return Ok(roots);
    }
    Ok(with_usual_roots(roots, parts.types.as_slice()))
}

// The roots that a schema definition or an extension adds.
fn with_schema<'a>(
    roots: Roots<'a>,
    schema: &Spanning<SchemaDefinition<'a>>,
    faults: &mut Vec<PlacedFault<'a>>,
) -> Result<Roots<'a>, OutOfMemory> {
    let mut roots = roots;
    if !schema.item.is_extension {
        roots.position = schema.span.start;
    }
    for named in schema.item.roots.as_slice() {
        roots = with_root(roots, named, faults)?;
    }
    Ok(roots)
}

fn with_root<'a>(
    roots: Roots<'a>,
    named: &RootOperationType<'a>,
    faults: &mut Vec<PlacedFault<'a>>,
) -> Result<Roots<'a>, OutOfMemory> {
    let root = Root {
        name: named.name.item,
        position: named.name.span.start,
    };
    if roots.of_operation(named.operation_type).is_some() {
        faults.push(PlacedFault {
            position: root.position,
            fault: SchemaFault::Repeated(Defined::Root, word_of(named.operation_type)),
        })?;
        return Ok(roots);
    }
    Ok(roots.with(named.operation_type, root))
}

fn word_of(operation_type: OperationType) -> &'static str {
    match operation_type {
        OperationType::Query => "query",
        OperationType::Mutation => "mutation",
        OperationType::Subscription => "subscription",
    }
}

fn with_usual_roots<'a>(roots: Roots<'a>, types: &[DefinedType<'_, 'a>]) -> Roots<'a> {
    Roots {
        query: named_or_usual(roots.query, types, "Query"),
        mutation: named_or_usual(roots.mutation, types, "Mutation"),
        subscription: named_or_usual(roots.subscription, types, "Subscription"),
        position: roots.position,
    }
}

fn named_or_usual<'a>(
    named: Option<Root<'a>>,
    types: &[DefinedType<'_, 'a>],
    name: &str,
) -> Option<Root<'a>> {
    if named.is_some() {
        return named;
    }
    match first_named(types, name) {
        Some(defined) => {
            let item = defined.item;
            Some(Root {
                name: item.name.item,
                position: item.name.span.start,
            })
        }
        None => None,
    }
}

/// Appends a fault if there is no query root type, and for each root type that is not defined. That of queries must be
/// an object.
///
/// # Errors
///
/// Out of memory.
pub fn add_root_faults<'a>(
    alloc: Global,
    known: &KnownTypes<'a>,
    roots: &Roots<'a>,
    faults: &mut Vec<PlacedFault<'a>>,
) -> Result<(), OutOfMemory> {
    match roots.query {
        None => faults.push(PlacedFault {
            position: roots.position,
            fault: SchemaFault::NoQueryRoot,
        })?,
        Some(root) => check_query(alloc, known, root, faults)?,
    }
    check_root(alloc, known, roots.mutation, faults)?;
    check_root(alloc, known, roots.subscription, faults)
}

fn check_query<'a>(
    alloc: Global,
    known: &KnownTypes<'a>,
    root: Root<'a>,
    faults: &mut Vec<PlacedFault<'a>>,
) -> Result<(), OutOfMemory> {
    match known.kind(root.name) {
        Some(TypeKind::Object) => Ok(()),
        Some(_) => {
            faults.push(PlacedFault {
                position: root.position,
                fault: SchemaFault::Refused(SchemaError::QueryNotObject),
            })?;
            Ok(())
        }
        None => check_root(alloc, known, Some(root), faults),
    }
}

fn check_root<'a>(
    alloc: Global,
    known: &KnownTypes<'a>,
    root: Option<Root<'a>>,
    faults: &mut Vec<PlacedFault<'a>>,
) -> Result<(), OutOfMemory> {
    if let Some(root) = root {
        if known.kind(root.name).is_none() {
            let error = SchemaError::MissingRoot(String::from_str(alloc, root.name)?);
            faults.push(PlacedFault {
                position: root.position,
                fault: SchemaFault::Refused(error),
            })?;
        }
    }
    Ok(())
}
