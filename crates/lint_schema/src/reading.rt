//! Reads a schema from its files.
ghost use Rattle.std.specs.Prelude.{◌≡◌, ◌<◌, [], IfOk, IfSome, None, OnOk, length};
ghost use Rattle.lint_schema.specs.Judged.{AddsRest};
ghost use Rattle.sdl_faults.specs.Valid.{IsValidSchema};

use crate::definitions::{Definitions, add_syntax_faults, definitions_of};
use crate::faults::add_schema_faults;
use crate::judging::{add_mended_faults, add_plain_faults, add_type_system_faults};
use graphql_reader::type_system::TypeSystemDefinition;
use graphql_reader::{ReadError, SourceScalar, read_type_system};
use language_types::error::OutOfMemory;
use lint_sources::faults::Fault;
use lint_sources::sources::{Joined, Source};
use schema::model::{Dialect, SchemaTypeOf};
use sdl_directives::STANDARD_DIRECTIVES;
use sdl_mending::{Mended, Touched};
use sdl_reader::{SchemaReadError, schema_of_document};
use sdl_scalars::check::SourceCheck;
use std::alloc::Global;

type SourceSchema = SchemaTypeOf<SourceScalar, SourceCheck>;

type TypeSystem<'t> = Vec<TypeSystemDefinition<'t>>;

/// The schema of these files in this dialect, or `None` if there are faults. Those of the files are added to `faults`:
/// what is no type definitions by itself; if there is no such file and no earlier fault, why the definitions of all
/// make no schema, and what else is wrong with them that these reasons don't touch; and if they make one, what is wrong
/// with it as a type system.
///
/// # Errors
///
/// Out of memory; some faults may be added then.
pub fn schema_of(
    alloc: Global,
    dialect: Dialect,
    sources: &[Source],
    faults: &mut Vec<Fault>,
) -> Result<Option<SourceSchema>, OutOfMemory>
    ensures some { IfOk result (λ read. IfSome read (λ _. faults.new.items ≡ [])) }
    ensures none { IfOk result (λ read. read ≡ None → 0 < length faults.new.items) }
    ensures valid { IfOk result (λ read. IfSome read IsValidSchema) }
    ensures dialect { IfOk result (λ read. IfSome read (λ schema. schema.dialect ≡ dialect)) }
{
    let definitions = definitions_of(alloc, sources, faults)?;
    if !faults.is_empty() {
        return Ok(None);
    }
    schema_of_text(alloc, dialect, sources, &definitions, faults)
}

// The schema of these definitions, where there is no fault yet.
fn schema_of_text(
    alloc: Global,
    dialect: Dialect,
    sources: &[Source],
    definitions: &Definitions,
    faults: &mut Vec<Fault>,
) -> Result<Option<SourceSchema>, OutOfMemory>
    ensures some { IfOk result (λ read. IfSome read (λ _. faults.new.items ≡ [])) }
    ensures none { IfOk result (λ read. read ≡ None → 0 < length faults.new.items) }
    ensures valid { IfOk result (λ read. IfSome read IsValidSchema) }
    ensures dialect { IfOk result (λ read. IfSome read (λ schema. schema.dialect ≡ dialect)) }
{
    let joined = &definitions.joined;
    match documents_of(alloc, joined.text()) {
        Ok((document, standard)) => schema_of_read(
            alloc,
            dialect,
            sources,
            definitions,
            document.as_slice(),
            standard.as_slice(),
            faults,
        ),
        Err(error) => {
            add_unread(
                alloc,
                sources,
                joined,
                &SchemaReadError::from(error),
                faults,
            )?;
            Ok(None)
        }
    }
}

// Adds why these definitions can't be read. Where there are several files, that is the syntax error of each.
fn add_unread(
    alloc: Global,
    sources: &[Source],
    joined: &Joined,
    error: &SchemaReadError<'_>,
    faults: &mut Vec<Fault>,
) -> Result<(), OutOfMemory>
    ensures { OnOk result (0 < length faults.new.items) }
{
    if sources.len() > 1 {
        add_syntax_faults(alloc, sources, faults)?;
    }
    if !faults.is_empty() {
        return Ok(());
    }
    add_schema_faults(alloc, sources, joined, error, faults)
}

// The schema of these definitions that were read. Each of several files must be definitions by itself, so that no token
// reaches from one into the next.
fn schema_of_read<'d, 't>(
    alloc: Global,
    dialect: Dialect,
    sources: &[Source],
    definitions: &'t Definitions,
    document: &'d [TypeSystemDefinition<'t>],
    standard: &'d [TypeSystemDefinition<'t>],
    faults: &mut Vec<Fault>,
) -> Result<Option<SourceSchema>, OutOfMemory>
    ensures some { IfOk result (λ read. IfSome read (λ _. faults.new.items ≡ [])) }
    ensures none { IfOk result (λ read. read ≡ None → 0 < length faults.new.items) }
    ensures valid { IfOk result (λ read. IfSome read IsValidSchema) }
    ensures dialect { IfOk result (λ read. IfSome read (λ schema. schema.dialect ≡ dialect)) }
{
    if sources.len() > 1 && !definitions.are_of_files(sources, document) {
        add_syntax_faults(alloc, sources, faults)?;
    }
    if !faults.is_empty() {
        return Ok(None);
    }
    let joined = &definitions.joined;
    schema_of_definitions(alloc, dialect, sources, joined, document, standard, faults)
}

// The schema of these definitions, each within a file.
fn schema_of_definitions<'d, 't>(
    alloc: Global,
    dialect: Dialect,
    sources: &[Source],
    joined: &Joined,
    document: &'d [TypeSystemDefinition<'t>],
    standard: &'d [TypeSystemDefinition<'t>],
    faults: &mut Vec<Fault>,
) -> Result<Option<SourceSchema>, OutOfMemory>
    ensures some { IfOk result (λ read. IfSome read (λ _. faults.new.items ≡ faults.old.items)) }
    ensures none { IfOk result (λ read. read ≡ None → 0 < length faults.new.items) }
    ensures valid { IfOk result (λ read. IfSome read IsValidSchema) }
    ensures dialect { IfOk result (λ read. IfSome read (λ schema. schema.dialect ≡ dialect)) }
{
    match schema_of_document(alloc, document) {
        Ok(read) => {
            let schema = in_dialect(read, dialect);
            judged(alloc, sources, joined, document, standard, schema, faults)
        }
        Err(error) => {
            add_refusal(alloc, sources, joined, &error, faults)?;
            Ok(None)
        }
    }
}

// Adds why the definitions make no schema, and what else is wrong with them.
fn add_refusal(
    alloc: Global,
    sources: &[Source],
    joined: &Joined,
    error: &SchemaReadError<'_>,
    faults: &mut Vec<Fault>,
) -> Result<(), OutOfMemory>
    ensures { OnOk result (0 < length faults.new.items) }
{
    add_schema_faults(alloc, sources, joined, error, faults)?;
    add_rest(alloc, sources, joined, error, faults)
}

// Adds what is wrong with the definitions beside why they make no schema. They are read again, so that they live as
// long as the error, whose names are kept beside theirs.
fn add_rest<'t>(
    alloc: Global,
    sources: &[Source],
    joined: &'t Joined,
    error: &'t SchemaReadError<'t>,
    faults: &mut Vec<Fault>,
) -> Result<(), OutOfMemory>
    ensures { OnOk result (0 < length faults.old.items → 0 < length faults.new.items) }
{
    match documents_of(alloc, joined.text()) {
        Ok((document, standard)) => add_untouched(
            alloc,
            sources,
            joined,
            document.as_slice(),
            standard.as_slice(),
            error,
            faults,
        ),
        Err(ReadError::Syntax(_)) => Ok(()),
        Err(ReadError::OutOfMemory) => Err(OutOfMemory),
    }
}

fn add_untouched<'d, 't>(
    alloc: Global,
    sources: &[Source],
    joined: &'t Joined,
    document: &'d [TypeSystemDefinition<'t>],
    standard: &'d [TypeSystemDefinition<'t>],
    error: &'t SchemaReadError<'t>,
    faults: &mut Vec<Fault>,
) -> Result<(), OutOfMemory>
    ensures { OnOk result (AddsRest sources.now joined.now document.now standard.now error.now faults.old.items
        faults.new.items) }
{
    let SchemaReadError::Faults(reasons) = error else {
        return add_plain_faults(alloc, sources, joined, document, standard, faults);
    };
    let touched = Touched::by_reasons(alloc, document, reasons.as_slice())?;
    match mended_of(alloc, joined.text(), touched)? {
        Some(mended) => {
            add_mended_faults(alloc, sources, joined, document, standard, &mended, faults)
        }
        None => add_plain_faults(alloc, sources, joined, document, standard, faults),
    }
}

// What is left of a text without what is touched. It is read again, since a tree can't be copied, and the one that was
// read is still wanted as a whole.
fn mended_of<'t>(
    alloc: Global,
    text: &'t str,
    touched: Touched<'t>,
) -> Result<Option<Mended<'t>>, OutOfMemory>
    ensures { IfOk result (λ read. IfSome read (λ m. m.touched ≡ touched.entry)) }
{
    match read_type_system(alloc, text) {
        Ok(document) => Mended::of_document(alloc, document, touched),
        Err(ReadError::Syntax(_)) => Ok(None),
        Err(ReadError::OutOfMemory) => Err(OutOfMemory),
    }
}

// The schema in another dialect. It is set before the schema is judged, since which default values conform depends on
// it.
fn in_dialect(schema: SourceSchema, dialect: Dialect) -> SourceSchema
    ensures { result ≡ record schema { dialect = dialect } }
{
    let mut schema = schema;
    schema.set_dialect(dialect);
    schema
}

// A schema of these definitions, unless it has faults.
fn judged<'d, 't>(
    alloc: Global,
    sources: &[Source],
    joined: &Joined,
    document: &'d [TypeSystemDefinition<'t>],
    standard: &'d [TypeSystemDefinition<'t>],
    schema: SourceSchema,
    faults: &mut Vec<Fault>,
) -> Result<Option<SourceSchema>, OutOfMemory>
    ensures some { IfOk result (λ read. IfSome read (λ _. faults.new.items ≡ faults.old.items)) }
    ensures none { IfOk result (λ read. read ≡ None → 0 < length faults.new.items) }
    ensures valid { IfOk result (λ read. IfSome read IsValidSchema) }
    ensures dialect { IfOk result (λ read. IfSome read (λ kept. kept.dialect ≡ schema.dialect)) }
{
    let before = faults.len();
    add_type_system_faults(alloc, sources, joined, document, standard, &schema, faults)?;
    if faults.len() > before {
        return Ok(None);
    }
    Ok(Some(schema))
}

// The definitions of a text, and those of the directives that each text may use.
fn documents_of(
    alloc: Global,
    text: &str,
) -> Result<(TypeSystem<'_>, TypeSystem<'_>), ReadError<'_>> {
    let document = read_type_system(alloc, text)?;
    let standard = read_type_system(alloc, STANDARD_DIRECTIVES)?;
    Ok((document, standard))
}
