//! The readers of a team's texts, in time of the processor.
use crate::failure::Failure;
use crate::times::{Stopwatch, median_of};
use graphql_reader::{SourceScalar, read_document, read_type_system};
use introspection::schema_text;
use sdl_reader::read_schema;
use std::alloc::Global;
use std::rt::CpuClock;
use validation::SchemaType;

/// What a text is read as.
#[derive(Clone, Copy, Debug)]
pub enum Kind {
    /// A type system document.
    TypeSystem,
    /// An executable document.
    Queries,
    /// Type definitions, of which a schema is made.
    Schema,
    /// An introspection result, of which a schema is made.
    Introspection,
}

/// What a text is read as, by an argument.
///
/// # Errors
///
/// The argument is none of `sdl`, `queries`, `schema` and `introspection`.
pub fn kind_named(word: &str) -> Result<Kind, Failure> {
    match word {
        "sdl" => Ok(Kind::TypeSystem),
        "queries" => Ok(Kind::Queries),
        "schema" => Ok(Kind::Schema),
        "introspection" => Ok(Kind::Introspection),
        _ => Err(Failure::Usage),
    }
}

fn read_introspection(alloc: Global, text: &str) -> Result<SchemaType<SourceScalar>, Failure> {
    let definitions = schema_text(alloc, text)?;
    Ok(read_schema(alloc, definitions.as_str())?)
}

/// Reads the text so often, and returns the median of the times in nanoseconds, or `None` for no times.
///
/// # Errors
///
/// The text is not what it is read as, the clock failed, or out of memory.
pub fn time_reader<R: CpuClock>(
    watch: &mut Stopwatch<'_, R>,
    alloc: Global,
    kind: Kind,
    text: &str,
    times: usize,
) -> Result<Option<u128>, Failure> {
    match kind {
        Kind::TypeSystem => median_of(alloc, times, || {
            watch.time_of(|| Ok(read_type_system(alloc, text)?))
        }),
        Kind::Queries => median_of(alloc, times, || {
            watch.time_of(|| Ok(read_document(alloc, text)?))
        }),
        Kind::Schema => median_of(alloc, times, || {
            watch.time_of(|| Ok(read_schema(alloc, text)?))
        }),
        Kind::Introspection => median_of(alloc, times, || {
            watch.time_of(|| read_introspection(alloc, text))
        }),
    }
}
