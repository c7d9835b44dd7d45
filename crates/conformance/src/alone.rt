//! What single rules report of documents, against schemas that are read from texts.
use graphql_reader::{SourceScalar, read_document};
use rules_specified::single_root_field;
use rules_specified_fields::typename_leafs;
use rules_specified_positions::variables_in_allowed_position;
use rules_specified_values::default_values_of_correct_type;
use rules_values::arguments_of_correct_type;
use sdl_reader::read_schema;
use sdl_scalars::SourceCheck;
use std::alloc::{AllocError, Global};
use validation::walk::visit_rules;
use validation::{Definition, Dialect, OutOfMemory, Rule, SchemaType, ValidatorContext, Visitor};
use validation_examples::told::lines;

/// The schema of subscriptions.
const STREAMS: &str = "
type Query { a: Int }
interface Source { a: Int }
type Subscription implements Source { a: Int b: Int }
type Other { a: Int }
union Streams = Subscription | Other
";

/// The schema of the rules on values.
const INPUTS: &str = "
scalar JSON
input O { a: Int! = 3 b: Int! c: [O!] d: [[O]!]! = [] e: JSON }
union U = Query | Other
type Other { q: Query }
type Query {
  any(v: JSON): Int
  many(v: [JSON!]): Int
  obj(o: O): Int
  req(x: Int! = 3): Int
  i(x: Int): Int
  lo(x: [O!]): Int
  lists(x: [[O]]): Int
  deep(x: [[Int!]]): Int
  u: U
  q: Query
}
directive @on(x: Int! = 3, y: Int!) on FIELD | QUERY
";

/// Appends the errors of the rule of this name, or those of the rules on values, one per line. There a dialect may
/// follow.
///
/// # Errors
///
/// Out of memory.
pub fn tell_alone(
    alloc: Global,
    rule: &str,
    text: &str,
    came: &mut String,
) -> Result<(), AllocError> {
    let schema = match rule {
        "single_root_field" => STREAMS,
        _ => INPUTS,
    };
    let Ok(mut schema) = read_schema(alloc, schema) else {
        return came.push_str("no schema\n");
    };
    if rule.ends_with("october2021") {
        schema.set_dialect(Dialect::October2021);
    }
    tell(alloc, &schema, rule, text, came)
}

fn tell(
    alloc: Global,
    schema: &SchemaType<SourceScalar>,
    rule: &str,
    text: &str,
    came: &mut String,
) -> Result<(), AllocError> {
    let Ok(document) = read_document(alloc, text) else {
        return came.push_str("no document\n");
    };
    match told_by(alloc, schema, document.as_slice(), rule) {
        Ok(told) => came.push_str(told.as_str()),
        Err(_) => came.push_str("out of memory\n"),
    }
}

// What a rule says of a document.
fn told<'a, R: Visitor<'a, SourceScalar> + Rule<SourceScalar, SourceCheck> + Drop>(
    alloc: Global,
    schema: &'a SchemaType<SourceScalar>,
    document: &'a [Definition<'_, SourceScalar>],
    mut rule: R,
) -> Result<String, OutOfMemory>
    requires { R.fresh rule }
{
    let mut ctx = ValidatorContext::new(alloc, schema, document)?;
    visit_rules(&mut rule, &mut ctx, document)?;
    lines(alloc, ctx.into_errors()?)
}

// What the rules on values say of a document.
fn told_of_values(
    alloc: Global,
    schema: &SchemaType<SourceScalar>,
    document: &[Definition<'_, SourceScalar>],
) -> Result<String, OutOfMemory> {
    let mut text = told(
        alloc,
        schema,
        document,
        arguments_of_correct_type::factory(alloc),
    )?;
    let defaults = told(
        alloc,
        schema,
        document,
        default_values_of_correct_type::factory(alloc),
    )?;
    text.push_str(defaults.as_str())?;
    Ok(text)
}

// What the rule of this name says of a document, or what the rules on values say.
fn told_by(
    alloc: Global,
    schema: &SchemaType<SourceScalar>,
    document: &[Definition<'_, SourceScalar>],
    rule: &str,
) -> Result<String, OutOfMemory> {
    match rule {
        "single_root_field" => told(alloc, schema, document, single_root_field::factory(alloc)),
        "variables_in_allowed_position" => {
            let rule = variables_in_allowed_position::factory(alloc);
            told(alloc, schema, document, rule)
        }
        "default_values_of_correct_type" => {
            let rule = default_values_of_correct_type::factory(alloc);
            told(alloc, schema, document, rule)
        }
        "typename_leafs" => told(alloc, schema, document, typename_leafs::factory()),
        _ => told_of_values(alloc, schema, document),
    }
}
