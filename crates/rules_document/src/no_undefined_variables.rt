//! Each variable that an operation uses is defined by the operation (GraphQL, October 2021, section 5.8.3).

ghost use Rattle.std.specs.Prelude.{◌≡◌, ◌<◌, ◌∷◌, [], List, Some, IfOk, OnOk, OnErr, map, option_map, string_bytes, vec_len};
ghost use Rattle.walk.specs.ContextState.{with_errors};
ghost use Rattle.walk.specs.Rule.{any_value};
ghost use Rattle.walk.specs.Step.{KeepsPlace};
ghost use Rattle.operation_scopes.specs.Searches.{IsReady};
ghost use Rattle.variable_usages.specs.DocumentIndex.{IsDocumentIndex};
ghost use Rattle.variable_usages.specs.Undefined.{Undefined, UndefinedNumbered, UndefinedVariables, undefined_of};
ghost use Rattle.rules_document.specs.AtDocument.{document_step, given_at_end};
ghost use Rattle.rules_document.specs.AtDocumentLaws.{document_keeps};
ghost use Rattle.rules_document.specs.NoUndefinedVariablesLaws.{undefineds_silent};
ghost use Rattle.rules_document.specs.NoUndefinedVariables.{undefined_error, undefined_errors, undefined_message};
ghost use Rattle.rules_document.specs.UsedVariables.{AllDefined};

use language::error::OutOfMemory;
use language::tree::Document;
use meta::check::CheckedScalar;
pub use operation_scopes::scope::Scope;
use std::alloc::{AllocError, Global};
use std::marker::PhantomData;
use variable_usages::document_index::{DocumentIndex, index_document};
use variable_usages::undefined::{UndefinedVariable, is_any_used, undefined_by};
use variable_usages::uses::{UseSearch, new_use_search};
use walk::{Criterion, Event, Fresh, Machine, Rule, SettledRule, ValidatorContext, Visitor};

/// Reports, where the document ends, each use of a variable that is not defined: at the argument's value, and at the
/// operation.
///
/// Operations of the same name count as one: it reaches all that they reach, and has the variables of the last of them.
#[derive(Drop)]
pub struct NoUndefinedVariables<'a> {
    alloc: Global,
    document: PhantomData<&'a str>,
}

/// Makes the rule, for one document.
pub fn factory<'a>(alloc: Global) -> NoUndefinedVariables<'a>
    ensures { ⟦<NoUndefinedVariables<'a> as Fresh>⟧.fresh result }
{
    NoUndefinedVariables {
        alloc,
        document: PhantomData,
    }
}

impl<'a> Fresh for NoUndefinedVariables<'a> {
    ghost fresh = { any_value };
}

impl<'a, S, C> Machine<S, C> for NoUndefinedVariables<'a> {
    ghost step = { document_step undefined_errors };
}

impl<'a, S, C> Rule<S, C> for NoUndefinedVariables<'a> {
    ghost allows = { given_at_end undefined_errors };

    ghost keeps = { document_keeps undefined_errors };
}

impl<'a, S, C> Criterion<S, C> for NoUndefinedVariables<'a> {
    ghost finds_nothing = { λ scope t doc. AllDefined doc };
}

impl<'a, S, C> SettledRule<S, C> for NoUndefinedVariables<'a> {
    ghost silent = { undefineds_silent };
}

impl<'a, S: CheckedScalar> Visitor<'a, S> for NoUndefinedVariables<'a> {
    fn on(
        &mut self,
        ctx: &mut ValidatorContext<'a, S>,
        event: &Event<'a, S>,
    ) -> Result<(), OutOfMemory> {
        match *event {
            Event::ExitDocument(document) => {
                let names = ctx.numbered_names(document)?;
                let index = index_document(self.alloc, document, names)?;
                report_undefined(self.alloc, ctx, document, &index)
            }
            _ => Ok(()),
        }
    }
}

// Reports each of these.
fn report_all<'a, S: CheckedScalar>(
    alloc: Global,
    ctx: &mut ValidatorContext<'a, S>,
    found: &[UndefinedVariable<'_>],
) -> Result<(), OutOfMemory>
    ensures ok { OnOk result (ctx.new ≡ with_errors ctx.old (map undefined_error (map undefined_of found.now))) }
    ensures err { OnErr result (KeepsPlace ctx.old ctx.new) }
{
    for variable in found {
        report(alloc, ctx, variable)?;
    }
    Ok(())
}

// Reports a variable, unless no more errors are kept.
fn report<'a, S: CheckedScalar>(
    alloc: Global,
    ctx: &mut ValidatorContext<'a, S>,
    variable: &UndefinedVariable<'_>,
) -> Result<(), OutOfMemory>
    ensures ok { OnOk result (ctx.new ≡ with_errors ctx.old (undefined_error (undefined_of variable.now) ∷ [])) }
    ensures err { OnErr result (KeepsPlace ctx.old ctx.new) }
{
    if ctx.is_full() {
        return Ok(());
    }
    let message = error_message(alloc, variable.name, variable.operation)?;
    ctx.report_error(
        message.as_str(),
        &[variable.place, variable.operation_place],
    )
}

// Reports those of the name with this number, unless no more errors are kept. Their list is dropped here: the lists of
// all names together can be far longer than the document.
fn report_numbered<'a, 'd, S: CheckedScalar>(
    alloc: Global,
    ctx: &mut ValidatorContext<'a, S>,
    document: Document<'d, S>,
    index: &DocumentIndex<'d>,
    number: usize,
    search: &mut UseSearch<'d>,
) -> Result<(), OutOfMemory>
    requires indexed { IsDocumentIndex document.now index.now }
    requires ready { IsReady index.now.scopes search.old.search }
    requires numbered { number < vec_len index.now.scopes.names }
    ensures ok { OnOk result ((found : List Undefined) × UndefinedNumbered document.now index.now.scopes number found
        × (ctx.new ≡ with_errors ctx.old (map undefined_error found))) }
    ensures ready { OnOk result (IsReady index.now.scopes search.new.search) }
    ensures err { OnErr result (KeepsPlace ctx.old ctx.new) }
{
    if ctx.is_full() {
        return Ok(());
    }
    let found = undefined_by(alloc, document, index, number, search)?;
    report_all(alloc, ctx, found.as_slice())
}

/// Reports each use of a variable that is not defined, by the document's index.
///
/// # Errors
///
/// Out of memory. The types at hand stay; some of the errors may be reported then.
pub fn report_undefined<'a, 'd, S: CheckedScalar>(
    alloc: Global,
    ctx: &mut ValidatorContext<'a, S>,
    document: Document<'d, S>,
    index: &DocumentIndex<'d>,
) -> Result<(), OutOfMemory>
    requires { IsDocumentIndex document.now index.now }
    ensures ok { OnOk result ((found : List Undefined) × UndefinedVariables document.now found
        × (ctx.new ≡ with_errors ctx.old (map undefined_error found))) }
    ensures err { OnErr result (KeepsPlace ctx.old ctx.new) }
{
    if !is_any_used(index.uses.as_slice()) {
        return Ok(());
    }
    let mut search = new_use_search(alloc, &index.scopes)?;
    for number in 0..index.scopes.names.len() {
        report_numbered(alloc, ctx, document, index, number, &mut search)?;
    }
    Ok(())
}

fn named_message(alloc: Global, name: &str, called: &str) -> Result<String, AllocError>
    ensures { IfOk result (λ message. string_bytes message ≡ undefined_message name.now (Some called.now)) }
{
    format!(in alloc; "Variable \"${name}\" is not defined by operation \"{called}\"")
}

fn error_message(alloc: Global, name: &str, operation: Option<&str>) -> Result<String, AllocError>
    ensures { IfOk result (λ message. string_bytes message ≡
        undefined_message name.now (option_map (λ n. n.now) operation.entry)) }
{
    match operation {
        Some(called) => named_message(alloc, name, called),
        None => format!(in alloc; "Variable \"${name}\" is not defined"),
    }
}
