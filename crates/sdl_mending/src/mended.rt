//! The document without what reasons touch, and its schema.
ghost use Rattle.std.specs.Prelude.{◌≡◌, IfOk, IfSome};

use crate::shells::shells_of;
use crate::touched::Touched;
use graphql_reader::SourceScalar;
use graphql_reader::type_system::TypeSystemDefinition;
use language_types::error::OutOfMemory;
use schema::model::{Dialect, SchemaTypeOf};
use sdl_reader::{SchemaReadError, schema_of_document};
use sdl_scalars::check::SourceCheck;
use std::alloc::Global;

/// What is left of definitions that make no schema, where that is left out which the reasons touch.
#[derive(Drop)]
pub struct Mended<'a> {
    /// What is left out.
    pub touched: Touched<'a>,
    /// A definition without members for each touched type, and then what is left.
    pub document: Vec<TypeSystemDefinition<'a>>,
    /// The schema of this document. Its dialect is that of October 2021, in which a scalar takes any value.
    pub schema: SchemaTypeOf<SourceScalar, SourceCheck>,
}

impl<'a> Mended<'a> {
    /// What is left of a document without what is touched, and its schema; `None` where it makes none, either. Each
    /// touched type of the document is defined without members: as an object if it is one, and else as a scalar, which
    /// takes any value.
    ///
    /// # Errors
    ///
    /// Out of memory.
    pub fn of_document(
        alloc: Global,
        document: Vec<TypeSystemDefinition<'a>>,
        touched: Touched<'a>,
    ) -> Result<Option<Mended<'a>>, OutOfMemory>
        ensures touched { IfOk result (λ read. IfSome read (λ m. m.touched ≡ touched.entry)) }
        ensures dialect { IfOk result (λ read. IfSome read (λ m. m.schema.dialect ≡ Dialect.October2021)) }
    {
        let document = left_of(alloc, document, &touched)?;
        match schema_of_document(alloc, document.as_slice()) {
            Ok(read) => {
                let mut schema = read;
                schema.set_dialect(Dialect::October2021);
                Ok(Some(Mended {
                    touched,
                    document,
                    schema,
                }))
            }
            Err(SchemaReadError::OutOfMemory) => Err(OutOfMemory),
            Err(_) => Ok(None),
        }
    }
}

// The document without what is touched, behind definitions without members.
fn left_of<'a>(
    alloc: Global,
    document: Vec<TypeSystemDefinition<'a>>,
    touched: &Touched<'_>,
) -> Result<Vec<TypeSystemDefinition<'a>>, OutOfMemory> {
    let mut left = shells_of(alloc, document.as_slice(), touched)?;
    for definition in document {
        if !touched.has_definition(&definition) {
            left.push(definition)?;
        }
    }
    Ok(left)
}
