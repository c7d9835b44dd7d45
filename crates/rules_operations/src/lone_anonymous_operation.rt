//! An operation without a name is the only operation of its document (GraphQL, October 2021, section 5.2.2.1).

ghost use Rattle.std.specs.Prelude.{◌≡◌, OnErr, OnOk, length};
ghost use Rattle.walk.specs.ContextState.{with_errors};
ghost use Rattle.walk.specs.Entering.{everywhere_by, found_by, prepared_step};
ghost use Rattle.walk.specs.Rule.{always, any_value, exactly};
ghost use Rattle.walk.specs.RuleLaws.{everywhere_by_silent};
ghost use Rattle.walk.specs.Step.{KeepsPlace};
ghost use Rattle.walk.proofs.Entering.{prepared_keeps};
ghost use Rattle.rules_operations.specs.LoneAnonymousOperation.{anonymous, anonymous_among, has_several, operations};
ghost use Rattle.rules_operations.specs.LoneAnonymousOperation.{HasNameAmong};
ghost use Rattle.rules_operations.specs.LoneAnonymousOperationLaws.{none_anonymous};

use language::error::OutOfMemory;
use language::position::Spanning;
use language::tree::{Definition, Operation};
use meta::check::CheckedScalar;
use std::alloc::Global;
use walk::{Criterion, Event, Fresh, Machine, Rule, SettledRule, ValidatorContext, Visitor};

/// Reports each operation without a name in a document of two or more operations, at the operation's start.
#[derive(Drop)]
pub struct LoneAnonymousOperation {
    has_several: bool,
}

/// Makes the rule, for one document.
pub fn factory(_alloc: Global) -> LoneAnonymousOperation
    ensures { ⟦<LoneAnonymousOperation as Fresh>⟧.fresh result }
{
    LoneAnonymousOperation { has_several: false }
}

impl Fresh for LoneAnonymousOperation {
    ghost fresh = { any_value };
}

impl<S, C> Machine<S, C> for LoneAnonymousOperation {
    ghost step = { prepared_step (λ a. a.has_several) has_several anonymous_among };
}

impl<S, C> Rule<S, C> for LoneAnonymousOperation {
    ghost allows = { always (exactly (found_by has_several anonymous_among)) };

    ghost keeps = { prepared_keeps (λ a. a.has_several) has_several anonymous_among };
}

impl<S, C> Criterion<S, C> for LoneAnonymousOperation {
    ghost finds_nothing = { everywhere_by has_several HasNameAmong };
}

impl<S, C> SettledRule<S, C> for LoneAnonymousOperation {
    ghost silent = { everywhere_by_silent has_several anonymous_among HasNameAmong none_anonymous };
}

impl<'a, S: CheckedScalar> Visitor<'a, S> for LoneAnonymousOperation {
    fn on(
        &mut self,
        ctx: &mut ValidatorContext<'a, S>,
        event: &Event<'a, S>,
    ) -> Result<(), OutOfMemory> {
        match *event {
            Event::EnterDocument(document) => {
                self.has_several = operation_count(document) > 1;
            }
            Event::EnterOperationDefinition(operation) => {
                if self.has_several {
                    report_nameless(ctx, operation)?;
                }
            }
            _ => {}
        }
        Ok(())
    }
}

// Reports an operation without a name.
fn report_nameless<'a, S: CheckedScalar>(
    ctx: &mut ValidatorContext<'a, S>,
    operation: &Spanning<Operation<'_, S>>,
) -> Result<(), OutOfMemory>
    ensures ok { OnOk result (ctx.new ≡ with_errors ctx.old (anonymous operation.now)) }
    ensures err { OnErr result (KeepsPlace ctx.old ctx.new) }
{
    match &operation.item.name {
        Some(_) => Ok(()),
        None => ctx.report_error(
            "This anonymous operation must be the only defined operation",
            &[operation.span.start],
        ),
    }
}

// How many operations there are.
fn operation_count<S>(document: &[Definition<S>]) -> usize
    ensures { result ≡ length (operations document.now) }
{
    let mut count = 0;
    for definition in document {
        if let Definition::Operation(_) = definition {
            count += 1;
        }
    }
    count
}
