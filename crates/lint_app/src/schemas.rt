//! Reads the schema from its files.
ghost use Rattle.std.specs.Prelude.{◌≡◌, IfOk};
ghost use Rattle.lint_app.specs.Tasks.{IsRootOf, IsSchemaOf};
ghost use Rattle.lint_app.specs.Tasks as tasks;

use graphql_reader::SourceScalar;
use lint_args::task::Task;
use lint_files::failure::Failure;
use lint_files::files::{Inputs, read_sources};
use lint_files::paths::paths_of;
use lint_schema::schema_of;
use lint_sources::faults::Fault;
use lint_sources::sources::Source;
use std::alloc::Global;
use validation::{Dialect, RootNode, SchemaType};

/// The schema of a task, a valid type system in the dialect that the task asks for, with introspection disabled if it
/// says so, and its limit on errors. Its faults go to `faults`.
///
/// # Errors
///
/// The schema or one of its files is invalid, which has been reported, or out of memory.
pub fn read_root<I: Inputs>(
    alloc: Global,
    task: &Task<'_>,
    inputs: &I,
    faults: &mut Vec<Fault>,
) -> Result<RootNode<SourceScalar>, Failure>
    ensures { IfOk result (IsRootOf task.now) }
{
    let paths = paths_of(alloc, inputs, task.schemas.as_slice())?;
    let sources = read_sources(alloc, inputs, paths.as_slice(), faults)?;
    let schema = schema_of_files(alloc, dialect_of(task), sources.as_slice(), faults)?;
    let root = RootNode::new(schema).with_max_errors(task.max_errors);
    Ok(if task.is_closed {
        root.disable_introspection()
    } else {
        root
    })
}

// The dialect that a task asks for.
fn dialect_of(task: &Task<'_>) -> Dialect
    ensures { result ≡ tasks.dialect_of task.now }
{
    if task.is_juniper {
        Dialect::Juniper
    } else {
        Dialect::October2021
    }
}

fn schema_of_files(
    alloc: Global,
    dialect: Dialect,
    sources: &[Source],
    faults: &mut Vec<Fault>,
) -> Result<SchemaType<SourceScalar>, Failure>
    ensures { IfOk result (IsSchemaOf dialect) }
{
    match schema_of(alloc, dialect, sources, faults)? {
        Some(schema) => Ok(schema),
        None => Err(Failure::Told),
    }
}
