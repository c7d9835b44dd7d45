//! The command line of the program.
ghost use Rattle.std.specs.Prelude.{◌≡◌, IfOk, false};
ghost use Rattle.clap.specs.Words.{rule_of};
ghost use Rattle.lint_args.specs.CommandLine.{HasDialects, HasForms, IsLint, closed_rule, depth_rule};
ghost use Rattle.lint_args.specs.CommandLine.{dialect_rule, errors_rule, format_rule, query_rule, schema_rule};
ghost use Rattle.lint_args.specs.CommandLine.{together_rule, variables_rule};

use clap::{Arg, ArgAction, Command, value_parser};
use std::alloc::{AllocError, Global};

static FORMATS: [&str; 3] = ["text", "json", "github"];

static DIALECTS: [&str; 2] = ["october2021", "juniper"];

const VERSION: &str = "0.1.0";

const ABOUT: &str = "Validates GraphQL queries (October 2021) against a schema.";

const AFTER: &str =
    "A file may be - for the standard input, which can be named once. A directory stands for all .graphql and .gql files
below it, in ascending order of their paths; links to directories are not followed. A file that is named twice is
judged once. On a terminal text is coloured, unless the environment variable NO_COLOR is set and not empty.
Lines and columns count from 1, columns in characters. In a file of variables a string may also be an enum value,
and a number without fraction and exponent is an integer.
Of an error with locations in several files, JSON has only those in the file of its first one.

Exit status: 0 for no errors, 1 for errors, 2 for invalid arguments, a file that can't be read, a syntax error,
an invalid schema, or out of memory. What ends with 2 is reported on the standard error. With --format json or github,
faults of files are in the report instead.";

/// The command line of the program.
///
/// # Errors
///
/// Out of memory.
pub fn command_line<'w>(alloc: Global) -> Result<Command<'w>, AllocError>
    ensures { IfOk result IsLint }
{
    Command::new(alloc, "lint")
        .version(VERSION)
        .about(ABOUT)
        .after_help(AFTER)
        .arg(schema_argument(alloc))?
        .arg(format_argument(alloc))?
        .arg(closed_argument(alloc))?
        .arg(variables_argument(alloc))?
        .arg(together_argument(alloc))?
        .arg(depth_argument(alloc))?
        .arg(errors_argument(alloc))?
        .arg(dialect_argument(alloc))?
        .arg(query_argument(alloc))
}

fn schema_argument<'w>(alloc: Global) -> Arg<'w>
    ensures rule { rule_of result ≡ schema_rule }
    ensures local { result.global ≡ false }
{
    Arg::new(alloc, "schema")
        .long("schema")
        .value_name("FILE")
        .help(
            "Type definitions or the JSON result of an introspection query; several files make one schema",
        )
        .action(ArgAction::Append)
        .required(true)
}

fn format_argument<'w>(alloc: Global) -> Arg<'w>
    ensures rule { (forms : _) × HasForms forms × (rule_of result ≡ format_rule forms) }
    ensures local { result.global ≡ false }
{
    Arg::new(alloc, "format")
        .long("format")
        .value_name("FORM")
        .help("How errors are printed")
        .value_parser(FORMATS.as_slice())
        .default_value("text")
}

fn closed_argument<'w>(alloc: Global) -> Arg<'w>
    ensures rule { rule_of result ≡ closed_rule }
    ensures local { result.global ≡ false }
{
    Arg::new(alloc, "closed")
        .long("no-introspection")
        .help("Report introspection as an error")
        .action(ArgAction::SetTrue)
}

fn variables_argument<'w>(alloc: Global) -> Arg<'w>
    ensures rule { rule_of result ≡ variables_rule }
    ensures local { result.global ≡ false }
{
    Arg::new(alloc, "variables")
        .long("variables")
        .value_name("FILE")
        .help(
            "A JSON object with values of variables, checked for each operation of each document without errors",
        )
}

fn together_argument<'w>(alloc: Global) -> Arg<'w>
    ensures rule { rule_of result ≡ together_rule }
    ensures local { result.global ≡ false }
{
    Arg::new(alloc, "together")
        .long("together")
        .help("Take all query files as one document")
        .action(ArgAction::SetTrue)
}

fn depth_argument<'w>(alloc: Global) -> Arg<'w>
    ensures rule { rule_of result ≡ depth_rule }
    ensures local { result.global ≡ false }
{
    Arg::new(alloc, "depth")
        .long("max-depth")
        .value_name("N")
        .help("Refuse query files nested more than N levels deep")
        .value_parser(value_parser!(usize))
}

fn errors_argument<'w>(alloc: Global) -> Arg<'w>
    ensures rule { rule_of result ≡ errors_rule }
    ensures local { result.global ≡ false }
{
    Arg::new(alloc, "errors")
        .long("max-errors")
        .value_name("N")
        .help("Report at most N errors of each document, or all for 0")
        .value_parser(value_parser!(usize))
        .default_value("1000")
}

fn dialect_argument<'w>(alloc: Global) -> Arg<'w>
    ensures rule { (dialects : _) × HasDialects dialects × (rule_of result ≡ dialect_rule dialects) }
    ensures local { result.global ≡ false }
{
    Arg::new(alloc, "dialect")
        .long("dialect")
        .value_name("NAME")
        .help("By whose rules queries are judged")
        .value_parser(DIALECTS.as_slice())
        .default_value("october2021")
}

fn query_argument<'w>(alloc: Global) -> Arg<'w>
    ensures rule { rule_of result ≡ query_rule }
    ensures local { result.global ≡ false }
{
    Arg::new(alloc, "query")
        .value_name("QUERY_FILE")
        .help(
            "Operations and fragments; each file is a document of its own; without one the schema alone is judged",
        )
        .action(ArgAction::Append)
        .num_args(1..)
}
