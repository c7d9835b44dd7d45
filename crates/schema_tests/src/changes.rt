//! Changes to the schema `pets`.
use crate::relations::show_directives;
use crate::said::said;
use crate::schemas::{Schema, pets_schema};
use language_types::error::OutOfMemory;
use language_values::value::DefaultScalarValue;
use samples::build::argument;
use samples::documents::alone;
use schema::error::SchemaError;
use schema::model::DirectiveType;
use std::alloc::Global;
use std::process::Abort;

type Directive = DirectiveType<DefaultScalarValue>;

/// Steps in sequence, each with its result: a directive `flag` with an argument of the type is added, or a directive
/// `skip` without arguments; how many arguments `skip` has; the directives; the description is set, or asked for.
const STEPS: &str = r#"add_flag Dog: NotInputType("Dog")
directives: deprecated include skip specifiedBy
add_flag Nope: UnknownType("Nope")
directives: deprecated include skip specifiedBy
arguments_of skip: 1
add_skip: done
arguments_of skip: 0
directives: deprecated include skip specifiedBy
add_flag Int: done
directives: deprecated flag include skip specifiedBy
description: none
describe animals: done
description: animals
describe beasts: done
description: beasts"#;

/// The directive `flag` with an argument of this type.
fn flag(alloc: Global, type_name: &str) -> Result<Directive, OutOfMemory> {
    let arguments = alone(alloc, argument(alloc, "x", type_name)?)?;
    DirectiveType::new(alloc, "flag", Vec::new(alloc), arguments, false)
}

/// The directive `skip` without arguments.
fn bare_skip(alloc: Global) -> Result<Directive, OutOfMemory> {
    DirectiveType::new(alloc, "skip", Vec::new(alloc), Vec::new(alloc), false)
}

/// Adds the directive, and appends the result.
fn add(
    rt: &impl Abort,
    schema: &mut Schema,
    directive: Result<Directive, OutOfMemory>,
    came: &mut String,
) {
    let shown = match schema.add_directive(directive.expect(rt, "memory")) {
        Ok(()) => came.push_str(" done"),
        Err(refused) => write!(came, " {refused:?}"),
    };
    shown.expect(rt, "memory");
}

fn count_arguments(schema: &Schema, name: &str) -> usize {
    match schema.directive_by_name(name) {
        Some(directive) => directive.arguments.len(),
        None => usize::MAX,
    }
}

fn take(
    rt: &impl Abort,
    alloc: Global,
    schema: &mut Schema,
    step: &str,
    name: &str,
    came: &mut String,
) {
    let shown = match step {
        "add_flag" => return add(rt, schema, flag(alloc, name), came),
        "add_skip" => return add(rt, schema, bare_skip(alloc), came),
        "directives" => return show_directives(rt, alloc, schema, came),
        "arguments_of" => {
            let count = count_arguments(schema, name);
            write!(came, " {count}")
        }
        "describe" => {
            schema.set_description(name).expect(rt, "memory");
            came.push_str(" done")
        }
        _ => {
            let description = schema.description().unwrap_or("none");
            write!(came, " {description}")
        }
    };
    shown.expect(rt, "memory");
}

#[test]
fn changes_are_kept_or_refused(rt: HostRuntime) {
    let alloc = rt.alloc();
    let mut schema = pets_schema(&rt, alloc);
    for line in STEPS.lines() {
        let step = line.split_once(':').unwrap_or((line, "")).0;
        let (asked, name) = step.split_once(' ').unwrap_or((step, ""));
        let mut came = said(&rt, alloc, step);
        take(&rt, alloc, &mut schema, asked, name, &mut came);
        assert_eq!(rt; came.as_str(), line);
    }
}
