//! The roots of a schema are different types (GraphQL, October 2021, section 3.3.1).
ghost use Rattle.std.specs.Prelude.{◌≡◌, ◌++◌, OnOk, option_and_then, option_copied};
ghost use Rattle.meta.specs.Kinds.{name_of_meta};
ghost use Rattle.type_system_report.specs.Fault.{reported};
ghost use Rattle.type_system.specs.RootTypes.{root_name, shared_root, shared_roots};

use language::error::OutOfMemory;
use language::tree::OperationType;
use schema::meta::MetaTypeOf;
use schema::model::SchemaTypeOf;
use type_system_interfaces::members::type_name;
use type_system_report::report::report;
use type_system_report::{CoordinateOf, Fault, FaultKindOf};

/// Reports each two roots that are one type.
pub(crate) fn report_shared_roots<'a, S, C>(
    faults: &mut Vec<Fault<'a>>,
    schema: &'a SchemaTypeOf<S, C>,
) -> Result<(), OutOfMemory>
    ensures { OnOk result (reported faults.new ≡ reported faults.old ++ shared_roots schema.now) }
{
    let query = OperationType::Query;
    let mutation = OperationType::Mutation;
    let subscription = OperationType::Subscription;
    report_shared_root(faults, schema, query, mutation)?;
    report_shared_root(faults, schema, query, subscription)?;
    report_shared_root(faults, schema, mutation, subscription)
}

fn report_shared_root<'a, S, C>(
    faults: &mut Vec<Fault<'a>>,
    schema: &'a SchemaTypeOf<S, C>,
    a: OperationType,
    b: OperationType,
) -> Result<(), OutOfMemory>
    ensures { OnOk result (reported faults.new ≡ reported faults.old ++ shared_root schema.now a b) }
{
    if let Some(name) = root_name(schema, a) {
        if root_name(schema, b) == Some(name) {
            report(
                faults,
                CoordinateOf::Type(name),
                FaultKindOf::SharedRoot(a, b),
            )?;
        }
    }
    Ok(())
}

/// The name of the root of operations of this kind, if there is one.
pub(crate) fn root_name<'a, S, C>(
    schema: &'a SchemaTypeOf<S, C>,
    root: OperationType,
) -> Option<&'a str>
    ensures { option_copied result ≡ root_name schema.now.roots root }
{
    match root {
        OperationType::Query => Some(query_name(schema)),
        OperationType::Mutation => mutation_name(schema),
        OperationType::Subscription => subscription_name(schema),
    }
}

/// The name of the query root.
pub(crate) fn query_name<'a, S, C>(schema: &'a SchemaTypeOf<S, C>) -> &'a str
    ensures { result.now ≡ schema.now.roots.query }
{
    type_name(schema.concrete_query_type())
}

fn mutation_name<'a, S, C>(schema: &'a SchemaTypeOf<S, C>) -> Option<&'a str>
    ensures { option_copied result ≡ schema.now.roots.mutation }
{
    name_if_found(schema.concrete_mutation_type())
}

fn subscription_name<'a, S, C>(schema: &'a SchemaTypeOf<S, C>) -> Option<&'a str>
    ensures { option_copied result ≡ schema.now.roots.subscription }
{
    name_if_found(schema.concrete_subscription_type())
}

fn name_if_found<'a, S, C>(meta: Option<&'a MetaTypeOf<S, C>>) -> Option<&'a str>
    ensures { option_copied result ≡ option_and_then name_of_meta (option_copied meta.entry) }
{
    match meta {
        Some(found) => found.name(),
        None => None,
    }
}
