//! A field of a leaf type has no selection set, and a field of any other type has one (GraphQL, October 2021, section
//! 5.3.3).

ghost use Rattle.std.specs.Prelude.{◌≡◌, IfOk, OnOk, OnErr, is_some, string_bytes};
ghost use Rattle.language_types.specs.Types.{borrowed_shape, printed};
ghost use Rattle.walk.specs.ContextState.{typing, with_errors};
ghost use Rattle.walk.specs.Entering.{everywhere, finding_step, found};
ghost use Rattle.walk.specs.Rule.{always, any_value, exactly};
ghost use Rattle.walk.specs.RuleLaws.{everywhere_silent};
ghost use Rattle.walk.specs.Step.{KeepsPlace};
ghost use Rattle.walk.proofs.Entering.{finding_keeps};
ghost use Rattle.rules_fields.specs.ScalarLeafs.{wrong_set, wrong_set_of, wrong_sets, no_subfields_message};
ghost use Rattle.rules_fields.specs.ScalarLeafs.{subfields_needed_message, HasRightSet};
ghost use Rattle.rules_fields.specs.ScalarLeafsLaws.{none_wrong_set};

use language::error::OutOfMemory;
use language::position::Spanning;
use language::tree::Field;
use language::types::BorrowedType;
use meta::check::CheckedScalar;
use rules_support::texts::between;
use std::alloc::{AllocError, Global};
use walk::{Criterion, Event, Fresh, Machine, Rule, SettledRule, ValidatorContext, Visitor};

/// Reports each field of a leaf type that has a selection set, and each field of another known type that has none, at
/// its start.
#[derive(Drop)]
pub struct ScalarLeafs {
    alloc: Global,
}

/// Makes the rule, for one document.
pub fn factory(alloc: Global) -> ScalarLeafs
    ensures { ⟦<ScalarLeafs as Fresh>⟧.fresh result }
{
    ScalarLeafs { alloc }
}

impl Fresh for ScalarLeafs {
    ghost fresh = { any_value };
}

impl<S, C> Machine<S, C> for ScalarLeafs {
    ghost step = { finding_step wrong_sets };
}

impl<S, C> Rule<S, C> for ScalarLeafs {
    ghost allows = { always (exactly (found wrong_sets)) };

    ghost keeps = { finding_keeps wrong_sets };
}

impl<S, C> Criterion<S, C> for ScalarLeafs {
    ghost finds_nothing = { everywhere (λ scope o. HasRightSet o.node o.types.current o.types.literal) };
}

impl<S, C> SettledRule<S, C> for ScalarLeafs {
    ghost silent = { everywhere_silent wrong_sets
        (λ scope o. HasRightSet o.node o.types.current o.types.literal) none_wrong_set };
}

impl<'a, S: CheckedScalar> Visitor<'a, S> for ScalarLeafs {
    fn on(
        &mut self,
        ctx: &mut ValidatorContext<'a, S>,
        event: &Event<'a, S>,
    ) -> Result<(), OutOfMemory> {
        match event {
            Event::EnterField(field) => report(self.alloc, ctx, field),
            _ => Ok(()),
        }
    }
}

// Reports a field whose type is known, if it has a selection set that it may not have, or lacks one that it needs.
fn report<'a, S: CheckedScalar>(
    alloc: Global,
    ctx: &mut ValidatorContext<'a, S>,
    field: &Spanning<Field<'_, S>>,
) -> Result<(), OutOfMemory>
    ensures ok { OnOk result (ctx.new ≡ with_errors ctx.old
        (wrong_set (typing ctx.old).current (typing ctx.old).literal field.now)) }
    ensures err { OnErr result (KeepsPlace ctx.old ctx.new) }
{
    if let Some(t) = ctx.current_type() {
        if let Some(written) = ctx.current_type_literal() {
            report_set(alloc, ctx, field, t.is_leaf(), written)?;
        }
    }
    Ok(())
}

// Reports a field of a type that is a leaf or is not.
fn report_set<'a, S: CheckedScalar>(
    alloc: Global,
    ctx: &mut ValidatorContext<'a, S>,
    field: &Spanning<Field<'_, S>>,
    is_leaf: bool,
    t: BorrowedType<'_>,
) -> Result<(), OutOfMemory>
    ensures ok { OnOk result (ctx.new ≡ with_errors ctx.old
        (wrong_set_of is_leaf (is_some field.now.item.selection_set) (printed (borrowed_shape t.entry)) field.now)) }
    ensures err { OnErr result (KeepsPlace ctx.old ctx.new) }
{
    let name = field.item.name.item;
    match &field.item.selection_set {
        Some(_) => {
            if is_leaf {
                let message = no_subfields_message(alloc, name, t)?;
                ctx.report_error(message.as_str(), &[field.span.start])?;
            }
        }
        None => {
            if !is_leaf {
                let message = subfields_needed_message(alloc, name, t)?;
                ctx.report_error(message.as_str(), &[field.span.start])?;
            }
        }
    }
    Ok(())
}

fn type_text(alloc: Global, t: BorrowedType<'_>) -> Result<String, AllocError>
    ensures { IfOk result (λ text. string_bytes text ≡ printed (borrowed_shape t.entry)) }
{
    format!(in alloc; "{t}")
}

fn no_subfields_message(
    alloc: Global,
    field: &str,
    t: BorrowedType<'_>,
) -> Result<String, AllocError>
    ensures { IfOk result (λ message. string_bytes message ≡
        no_subfields_message field.now (printed (borrowed_shape t.entry))) }
{
    let t = type_text(alloc, t)?;
    let before = between(
        alloc,
        "Field \"",
        field,
        "\" must not have a selection since type ",
    )?;
    between(alloc, before.as_str(), t.as_str(), " has no subfields")
}

fn subfields_needed_message(
    alloc: Global,
    field: &str,
    t: BorrowedType<'_>,
) -> Result<String, AllocError>
    ensures { IfOk result (λ message. string_bytes message ≡
        subfields_needed_message field.now (printed (borrowed_shape t.entry))) }
{
    let t = type_text(alloc, t)?;
    let before = between(alloc, "Field \"", field, "\" of type \"")?;
    let with_type = between(
        alloc,
        before.as_str(),
        t.as_str(),
        "\" must have a selection of subfields. Did you mean \"",
    )?;
    between(alloc, with_type.as_str(), field, " { ... }\"?")
}
