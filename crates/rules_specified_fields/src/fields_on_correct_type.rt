//! Each field is a field of the object, interface or union around it (GraphQL, October 2021, section 5.3.1). A leaf
//! with a selection set is a fault itself (section 5.3.3), so the fields of that set are not looked at.

ghost use Rattle.std.specs.Prelude.{◌≡◌, OnOk, OnErr, option_copied};
ghost use Rattle.walk.specs.ContextState.{typing, with_errors};
ghost use Rattle.walk.specs.Entering.{everywhere, finding_step, found};
ghost use Rattle.walk.specs.Rule.{always, any_value, exactly};
ghost use Rattle.walk.specs.RuleLaws.{everywhere_silent};
ghost use Rattle.walk.specs.Step.{KeepsPlace};
ghost use Rattle.walk.proofs.Entering.{finding_keeps};
ghost use Rattle.rules_specified_fields.specs.FieldsOnCorrectType.{is_composite, unknown_field_of, unknown_fields};
ghost use Rattle.rules_specified_fields.specs.FieldsOnCorrectType.{HasKnownField};
ghost use Rattle.rules_specified_fields.specs.FieldsOnCorrectTypeLaws.{none_unknown};

use language::error::OutOfMemory;
use language::position::Spanning;
use meta::MetaTypeOf;
use meta::check::CheckedScalar;
use rules_fields::fields_on_correct_type::report_unknown;
use std::alloc::Global;
use walk::{Criterion, Event, Fresh, Machine, Rule, SettledRule, ValidatorContext, Visitor};

/// Reports each field that the type around it does not have, at the field's name. Under a leaf or an unknown type it
/// reports nothing.
///
/// `__typename` is accepted on a union. Which fields a subscription may select is for `SingleRootField` to say.
#[derive(Drop)]
pub struct FieldsOnCorrectType {
    alloc: Global,
}

/// Makes the rule, for one document.
pub fn factory(alloc: Global) -> FieldsOnCorrectType
    ensures { ⟦<FieldsOnCorrectType as Fresh>⟧.fresh result }
{
    FieldsOnCorrectType { alloc }
}

impl Fresh for FieldsOnCorrectType {
    ghost fresh = { any_value };
}

impl<S, C> Machine<S, C> for FieldsOnCorrectType {
    ghost step = { finding_step unknown_fields };
}

impl<S, C> Rule<S, C> for FieldsOnCorrectType {
    ghost allows = { always (exactly (found unknown_fields)) };

    ghost keeps = { finding_keeps unknown_fields };
}

impl<S, C> Criterion<S, C> for FieldsOnCorrectType {
    ghost finds_nothing = { everywhere (λ scope o. HasKnownField o.types.parent o.node) };
}

impl<S, C> SettledRule<S, C> for FieldsOnCorrectType {
    ghost silent = { everywhere_silent unknown_fields
        (λ scope o. HasKnownField o.types.parent o.node) none_unknown };
}

impl<'a, S: CheckedScalar> Visitor<'a, S> for FieldsOnCorrectType {
    fn on(
        &mut self,
        ctx: &mut ValidatorContext<'a, S>,
        event: &Event<'a, S>,
    ) -> Result<(), OutOfMemory> {
        match event {
            Event::EnterField(field) => report(self.alloc, ctx, &field.item.name),
            _ => Ok(()),
        }
    }
}

// Reports the name of a field, where the type around it is an object, an interface or a union and does not have the
// field.
fn report<'a, S: CheckedScalar>(
    alloc: Global,
    ctx: &mut ValidatorContext<'a, S>,
    name: &Spanning<&str>,
) -> Result<(), OutOfMemory>
    ensures ok { OnOk result (ctx.new
        ≡ with_errors ctx.old (unknown_field_of (typing ctx.old).parent name.now)) }
    ensures err { OnErr result (KeepsPlace ctx.old ctx.new) }
{
    let parent = ctx.parent_type();
    if is_composite(parent) {
        report_unknown(alloc, ctx, name)?;
    }
    Ok(())
}

// Whether a type is known, and is an object, an interface or a union.
fn is_composite<S, C>(parent: Option<&MetaTypeOf<S, C>>) -> bool
    ensures { result ≡ is_composite (option_copied parent.entry) }
{
    match parent {
        Some(parent) => parent.is_composite(),
        None => false,
    }
}
