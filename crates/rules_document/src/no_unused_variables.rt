//! Each variable that an operation defines is used by the operation (GraphQL, October 2021, section 5.8.4).

ghost use Rattle.std.specs.Prelude.{◌≡◌, ◌∷◌, [], List, Some, IfOk, OnOk, OnErr, map, option_map, string_bytes};
ghost use Rattle.walk.specs.ContextState.{with_errors};
ghost use Rattle.walk.specs.Rule.{any_value};
ghost use Rattle.walk.specs.Step.{KeepsPlace};
ghost use Rattle.variable_usages.specs.DocumentIndex.{IsDocumentIndex};
ghost use Rattle.variable_usages.specs.Unused.{Unused, UnusedVariables, unused_of};
ghost use Rattle.rules_document.specs.AtDocument.{document_step, given_at_end};
ghost use Rattle.rules_document.specs.AtDocumentLaws.{document_keeps};
ghost use Rattle.rules_document.specs.NoUnusedVariablesLaws.{unused_variables_silent};
ghost use Rattle.rules_document.specs.NoUnusedVariables.{unused_variable_error, unused_variable_errors};
ghost use Rattle.rules_document.specs.NoUnusedVariables.{unused_variable_message};
ghost use Rattle.rules_document.specs.UsedVariables.{AllUsed};

use language::error::OutOfMemory;
use language::tree::Document;
use meta::check::CheckedScalar;
pub use operation_scopes::scope::Scope;
use std::alloc::{AllocError, Global};
use std::marker::PhantomData;
use variable_usages::document_index::{DocumentIndex, index_document};
use variable_usages::unused::{UnusedVariable, unused_in};
use walk::{Criterion, Event, Fresh, Machine, Rule, SettledRule, ValidatorContext, Visitor};

/// Reports, where the document ends, each variable that is defined and not used, at its name in the definition.
///
/// Operations of the same name count as one: it reaches all that they reach, and has the variables of the last of them.
#[derive(Drop)]
pub struct NoUnusedVariables<'a> {
    alloc: Global,
    document: PhantomData<&'a str>,
}

/// Makes the rule, for one document.
pub fn factory<'a>(alloc: Global) -> NoUnusedVariables<'a>
    ensures { ⟦<NoUnusedVariables<'a> as Fresh>⟧.fresh result }
{
    NoUnusedVariables {
        alloc,
        document: PhantomData,
    }
}

impl<'a> Fresh for NoUnusedVariables<'a> {
    ghost fresh = { any_value };
}

impl<'a, S, C> Machine<S, C> for NoUnusedVariables<'a> {
    ghost step = { document_step unused_variable_errors };
}

impl<'a, S, C> Rule<S, C> for NoUnusedVariables<'a> {
    ghost allows = { given_at_end unused_variable_errors };

    ghost keeps = { document_keeps unused_variable_errors };
}

impl<'a, S, C> Criterion<S, C> for NoUnusedVariables<'a> {
    ghost finds_nothing = { λ scope t doc. AllUsed doc };
}

impl<'a, S, C> SettledRule<S, C> for NoUnusedVariables<'a> {
    ghost silent = { unused_variables_silent };
}

impl<'a, S: CheckedScalar> Visitor<'a, S> for NoUnusedVariables<'a> {
    fn on(
        &mut self,
        ctx: &mut ValidatorContext<'a, S>,
        event: &Event<'a, S>,
    ) -> Result<(), OutOfMemory> {
        match *event {
            Event::ExitDocument(document) => {
                let names = ctx.numbered_names(document)?;
                let index = index_document(self.alloc, document, names)?;
                report_unused(self.alloc, ctx, document, &index)
            }
            _ => Ok(()),
        }
    }
}

// Reports each of these.
fn report_all<'a, S: CheckedScalar>(
    alloc: Global,
    ctx: &mut ValidatorContext<'a, S>,
    found: &[UnusedVariable<'_>],
) -> Result<(), OutOfMemory>
    ensures ok { OnOk result (ctx.new ≡ with_errors ctx.old (map unused_variable_error (map unused_of found.now))) }
    ensures err { OnErr result (KeepsPlace ctx.old ctx.new) }
{
    for variable in found {
        report(alloc, ctx, variable)?;
    }
    Ok(())
}

// Reports a variable, unless no more errors are kept.
fn report<'a, S: CheckedScalar>(
    alloc: Global,
    ctx: &mut ValidatorContext<'a, S>,
    variable: &UnusedVariable<'_>,
) -> Result<(), OutOfMemory>
    ensures ok { OnOk result (ctx.new ≡ with_errors ctx.old (unused_variable_error (unused_of variable.now) ∷ [])) }
    ensures err { OnErr result (KeepsPlace ctx.old ctx.new) }
{
    if ctx.is_full() {
        return Ok(());
    }
    let message = error_message(alloc, variable.name, variable.operation)?;
    ctx.report_error(message.as_str(), &[variable.span.start])
}

/// Reports each variable that is not used, by the document's index.
///
/// # Errors
///
/// Out of memory. The types at hand stay; some of the errors may be reported then.
pub fn report_unused<'a, 'd, S: CheckedScalar>(
    alloc: Global,
    ctx: &mut ValidatorContext<'a, S>,
    document: Document<'d, S>,
    index: &DocumentIndex<'d>,
) -> Result<(), OutOfMemory>
    requires { IsDocumentIndex document.now index.now }
    ensures ok { OnOk result ((found : List Unused) × UnusedVariables document.now found
        × (ctx.new ≡ with_errors ctx.old (map unused_variable_error found))) }
    ensures err { OnErr result (KeepsPlace ctx.old ctx.new) }
{
    let found = unused_in(alloc, document, index)?;
    report_all(alloc, ctx, found.as_slice())
}

fn named_message(alloc: Global, name: &str, called: &str) -> Result<String, AllocError>
    ensures { IfOk result (λ message. string_bytes message ≡ unused_variable_message name.now (Some called.now)) }
{
    format!(in alloc; "Variable \"${name}\" is not used by operation \"{called}\"")
}

fn error_message(alloc: Global, name: &str, operation: Option<&str>) -> Result<String, AllocError>
    ensures { IfOk result (λ message. string_bytes message ≡
        unused_variable_message name.now (option_map (λ n. n.now) operation.entry)) }
{
    match operation {
        Some(called) => named_message(alloc, name, called),
        None => format!(in alloc; "Variable \"${name}\" is not used"),
    }
}
