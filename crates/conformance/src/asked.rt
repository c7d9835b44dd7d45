//! What is asked of documents besides all errors: what a rule reports alone, or the rules that a linter chose, what is
//! said of values, and how much work a document makes.
use crate::found::found;
use crate::texts::written;
use crate::usages::{undefined, unused};
use language::shorten::shorten;
use sample_reader::{ReadError, read_document, read_type, read_value};
use std::alloc::Global;
use validation::ast::Definition;
use validation::rules::{
    default_values_of_correct_type, disable_introspection, known_directives, no_fragment_cycles,
    unique_directive_names, variables_are_input_types,
};
use validation::{
    DefaultScalarValue, MultiVisitorNil, OutOfMemory, SchemaType, ValidatorContext, Variables,
    visit,
};
use validation_examples::linter::{try_spreads, try_spreads_and_operations};
use validation_examples::made_types::fault_of;
use validation_examples::told::{lines, told_by_all, told_by_one};
use validation_examples::values_after::values_after;

type Schema = SchemaType<DefaultScalarValue>;

type Document<'a, 't> = &'a [Definition<'t, DefaultScalarValue>];

/// What is told of a text, in lines.
///
/// - `sized`: the fault of a value against the type on the line before it;
/// - `no definitions`: how many pairs of fragments are compared in a document without definitions;
/// - else what is told of a document.
///
/// # Errors
///
/// A text can't be parsed, or out of memory.
pub fn told_of_text(
    alloc: Global,
    schema: &Schema,
    asked: &str,
    text: &str,
) -> Result<String, ReadError> {
    match asked {
        "sized" => told_of_value(alloc, schema, text),
        "no definitions" => Ok(told_of_none(alloc, schema)?),
        _ => {
            let text = written(alloc, text)?;
            told_of_written(alloc, schema, asked, text.as_bytes())
        }
    }
}

fn told_of_written(
    alloc: Global,
    schema: &Schema,
    asked: &str,
    text: &[u8],
) -> Result<String, ReadError> {
    let document = read_document(alloc, text)?;
    Ok(told(alloc, schema, asked, document.as_slice())?)
}

fn told_of_value(alloc: Global, schema: &Schema, text: &str) -> Result<String, ReadError> {
    let (wanted, value) = text.split_once('\n').unwrap_or((text, ""));
    let wanted = read_type(alloc, wanted.as_bytes())?.item;
    let value = read_value(alloc, value.as_bytes())?.item;
    Ok(ended(fault_of(alloc, schema, &wanted, &value)?)?)
}

fn told_of_none(alloc: Global, schema: &Schema) -> Result<String, OutOfMemory> {
    ended(told_by_all(alloc, schema, &[])?)
}

fn ended(mut line: String) -> Result<String, OutOfMemory> {
    line.push('\n')?;
    Ok(line)
}

// What is told of a document, in lines.
//
// - `linter`: how many errors two walks of a linter append: with one rule, and with two;
// - `no values`: the faults of the values for the first operation where none is given;
// - `looked`: how many spreads the search for cycles looks at, and whether it finds one; each spread inside a
//   fragment is
//   looked at once;
// - `graph`: what the search for conflicts finds in the document's graph;
// - `undefined`, `unused`: variables that are not defined, or not used;
// - `clashes LEAST MOST`: whether there are errors, if all tell of the clash, and a number of pairs of fragments is
//   compared between these;
// - a rule: what it reports alone.
fn told<'a>(
    alloc: Global,
    schema: &'a Schema,
    asked: &str,
    document: Document<'a, '_>,
) -> Result<String, OutOfMemory> {
    match asked {
        "linter" => linted(alloc, schema, document),
        "no values" => told_of_no_values(alloc, schema, document),
        "looked" => looked(alloc, schema, document),
        "graph" => found(alloc, schema, shorten(document)),
        "undefined" => undefined(alloc, shorten(document)),
        "unused" => unused(alloc, shorten(document)),
        _ => match asked.strip_prefix("clashes ") {
            Some(bounds) => clashes(alloc, schema, bounds, document),
            None => told_by_rule(alloc, schema, asked, document),
        },
    }
}

fn told_by_rule<'a>(
    alloc: Global,
    schema: &'a Schema,
    name: &str,
    document: Document<'a, '_>,
) -> Result<String, OutOfMemory> {
    match name {
        "known_directives" => {
            told_by_one(alloc, schema, known_directives::factory(alloc), document)
        }
        "variables_are_input_types" => {
            let rule = variables_are_input_types::factory(alloc);
            told_by_one(alloc, schema, rule, document)
        }
        "disable_introspection" => {
            let rule = disable_introspection::factory(alloc);
            told_by_one(alloc, schema, rule, document)
        }
        "default_values_of_correct_type" => {
            let rule = default_values_of_correct_type::factory(alloc);
            told_by_one(alloc, schema, rule, document)
        }
        "unique_directive_names" => {
            let rule = unique_directive_names::factory(alloc);
            told_by_one(alloc, schema, rule, document)
        }
        _ => Ok(String::from_str(alloc, "no such rule\n")?),
    }
}

fn linted<'a>(
    alloc: Global,
    schema: &'a Schema,
    document: Document<'a, '_>,
) -> Result<String, OutOfMemory> {
    let alone = spreads(alloc, schema, document)?;
    let both = spreads_and_operations(alloc, schema, document)?;
    Ok(format!(in alloc; "{alone} {both}\n")?)
}

fn spreads<'a>(
    alloc: Global,
    schema: &'a Schema,
    document: Document<'a, '_>,
) -> Result<usize, OutOfMemory> {
    let mut ctx = ValidatorContext::new(alloc, schema, document)?;
    try_spreads(&mut ctx, document)?;
    Ok(ctx.into_errors()?.len())
}

fn spreads_and_operations<'a>(
    alloc: Global,
    schema: &'a Schema,
    document: Document<'a, '_>,
) -> Result<usize, OutOfMemory> {
    let mut ctx = ValidatorContext::new(alloc, schema, document)?;
    try_spreads_and_operations(&mut ctx, document)?;
    Ok(ctx.into_errors()?.len())
}

fn told_of_no_values(
    alloc: Global,
    schema: &Schema,
    document: Document<'_, '_>,
) -> Result<String, OutOfMemory> {
    match values_after(alloc, schema, document, &Variables::new(alloc))? {
        Some(errors) => lines(alloc, errors),
        None => Ok(String::from_str(alloc, "it has errors\n")?),
    }
}

fn clashes<'a>(
    alloc: Global,
    schema: &'a Schema,
    bounds: &str,
    document: Document<'a, '_>,
) -> Result<String, OutOfMemory> {
    let told = told_by_all(alloc, schema, document)?;
    let answer = clashes_told(told.as_str(), bounds);
    Ok(format!(in alloc; "{answer}\n")?)
}

// Whether there are errors, if the number behind them is between the bounds.
fn clashes_told<'t>(told: &'t str, bounds: &str) -> &'t str {
    let (errors, compared) = told.rsplit_once('\n').unwrap_or(("", told));
    if is_between(compared, bounds) {
        clashes_of(errors)
    } else {
        compared
    }
}

fn clashes_of(errors: &str) -> &str {
    let mut answer = "no error";
    for error in errors.lines() {
        if !error.contains("name and iq are different fields") {
            return error;
        }
        answer = "each error tells of the clash";
    }
    answer
}

fn is_between(number: &str, bounds: &str) -> bool {
    let (least, most) = bounds.split_once(' ').unwrap_or((bounds, ""));
    match (
        number.parse::<u128>(),
        least.parse::<u128>(),
        most.parse::<u128>(),
    ) {
        (Ok(number), Ok(least), Ok(most)) => least <= number && number <= most,
        _ => false,
    }
}

fn looked<'a>(
    alloc: Global,
    schema: &'a Schema,
    document: Document<'a, '_>,
) -> Result<String, OutOfMemory> {
    let mut ctx = ValidatorContext::new(alloc, schema, document)?;
    let looked = count_looked(alloc, &mut ctx, document)?;
    let cycle = if ctx.has_errors() { "a" } else { "no" };
    Ok(format!(in alloc; "{looked}, {cycle} cycle\n")?)
}

fn count_looked<'a>(
    alloc: Global,
    ctx: &mut ValidatorContext<'a, DefaultScalarValue>,
    document: Document<'a, '_>,
) -> Result<u128, OutOfMemory> {
    let mut rules = MultiVisitorNil.with(no_fragment_cycles::factory(alloc));
    visit(&mut rules, ctx, document)?;
    Ok(rules.newest().looked())
}
