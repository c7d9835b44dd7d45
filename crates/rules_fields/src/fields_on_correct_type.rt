//! Each field is a field of the type around it (GraphQL, October 2021, section 5.3.1), and no subscription selects
//! `__typename` itself (section 5.2.3.1).

ghost use Rattle.std.specs.Prelude.{◌≡◌, IfOk, OnOk, OnErr, string_bytes};
ghost use Rattle.walk.specs.ContextState.{typing, with_errors};
ghost use Rattle.walk.specs.Entering.{everywhere, finding_step, found};
ghost use Rattle.walk.specs.Rule.{always, any_value, exactly};
ghost use Rattle.walk.specs.RuleLaws.{everywhere_silent};
ghost use Rattle.walk.specs.Step.{KeepsPlace};
ghost use Rattle.walk.proofs.Entering.{finding_keeps};
ghost use Rattle.std.specs.List.{flat_map};
ghost use Rattle.rules_fields.specs.FieldsOnCorrectType.{has_field, is_union_meta, root_typename, root_typenames};
ghost use Rattle.rules_fields.specs.FieldsOnCorrectType.{unknown_field, unknown_field_message, fields_of_wrong_type};
ghost use Rattle.rules_fields.specs.FieldsOnCorrectType.{HasRightFields};
ghost use Rattle.rules_fields.specs.FieldsOnCorrectTypeLaws.{none_of_wrong_type};

use language::error::OutOfMemory;
use language::position::Spanning;
use language::tree::{Operation, OperationType, Selection};
use meta::MetaTypeOf;
use meta::check::CheckedScalar;
use rules_support::texts::between;
use std::alloc::{AllocError, Global};
use walk::{Criterion, Event, Fresh, Machine, Rule, SettledRule, ValidatorContext, Visitor};

/// Reports each field that the type around it does not have, at the field's name. Under an unknown type it reports
/// nothing.
///
/// `__typename` is accepted on a union. In a subscription's own selection set it is reported.
#[derive(Drop)]
pub struct FieldsOnCorrectType {
    alloc: Global,
}

/// Makes the rule, for one document.
pub fn factory(alloc: Global) -> FieldsOnCorrectType
    ensures { ⟦<FieldsOnCorrectType as Fresh>⟧.fresh result }
{
    FieldsOnCorrectType { alloc }
}

impl Fresh for FieldsOnCorrectType {
    ghost fresh = { any_value };
}

impl<S, C> Machine<S, C> for FieldsOnCorrectType {
    ghost step = { finding_step fields_of_wrong_type };
}

impl<S, C> Rule<S, C> for FieldsOnCorrectType {
    ghost allows = { always (exactly (found fields_of_wrong_type)) };

    ghost keeps = { finding_keeps fields_of_wrong_type };
}

impl<S, C> Criterion<S, C> for FieldsOnCorrectType {
    ghost finds_nothing = { everywhere (λ scope o. HasRightFields o.types.parent o.node) };
}

impl<S, C> SettledRule<S, C> for FieldsOnCorrectType {
    ghost silent = { everywhere_silent fields_of_wrong_type
        (λ scope o. HasRightFields o.types.parent o.node) none_of_wrong_type };
}

impl<'a, S: CheckedScalar> Visitor<'a, S> for FieldsOnCorrectType {
    fn on(
        &mut self,
        ctx: &mut ValidatorContext<'a, S>,
        event: &Event<'a, S>,
    ) -> Result<(), OutOfMemory> {
        match event {
            Event::EnterOperationDefinition(operation) => {
                report_root_typenames(ctx, &operation.item)
            }
            Event::EnterField(field) => report_unknown(self.alloc, ctx, &field.item.name),
            _ => Ok(()),
        }
    }
}

// Reports each `__typename` that is a field of a subscription itself.
fn report_root_typenames<'a, S: CheckedScalar>(
    ctx: &mut ValidatorContext<'a, S>,
    operation: &Operation<'_, S>,
) -> Result<(), OutOfMemory>
    ensures ok { OnOk result (ctx.new ≡ with_errors ctx.old
        (root_typenames operation.now.operation_type operation.now.selection_set.items)) }
    ensures err { OnErr result (KeepsPlace ctx.old ctx.new) }
{
    match operation.operation_type {
        OperationType::Subscription => report_typenames(ctx, &operation.selection_set),
        _ => Ok(()),
    }
}

// Reports each `__typename` that is a field of the set itself.
fn report_typenames<'a, S: CheckedScalar>(
    ctx: &mut ValidatorContext<'a, S>,
    set: &Vec<Selection<'_, S>>,
) -> Result<(), OutOfMemory>
    ensures ok { OnOk result (ctx.new ≡ with_errors ctx.old (flat_map root_typename set.now.items)) }
    ensures err { OnErr result (KeepsPlace ctx.old ctx.new) }
{
    for selection in set {
        report_typename(ctx, selection)?;
    }
    Ok(())
}

// Reports a `__typename`.
fn report_typename<'a, S: CheckedScalar>(
    ctx: &mut ValidatorContext<'a, S>,
    selection: &Selection<'_, S>,
) -> Result<(), OutOfMemory>
    ensures ok { OnOk result (ctx.new ≡ with_errors ctx.old (root_typename selection.now)) }
    ensures err { OnErr result (KeepsPlace ctx.old ctx.new) }
{
    if let Selection::Field(field) = selection {
        let name = &field.item.name;
        if name.item == "__typename" {
            ctx.report_error(
                "`__typename` may not be included as a root field in a subscription operation",
                &[name.span.start],
            )?;
        }
    }
    Ok(())
}

/// Reports the name of a field, where the type around it is known and does not have the field.
///
/// # Errors
///
/// Out of memory. The types at hand stay.
pub fn report_unknown<'a, S: CheckedScalar>(
    alloc: Global,
    ctx: &mut ValidatorContext<'a, S>,
    name: &Spanning<&str>,
) -> Result<(), OutOfMemory>
    ensures ok { OnOk result (ctx.new ≡ with_errors ctx.old (unknown_field (typing ctx.old).parent name.now)) }
    ensures err { OnErr result (KeepsPlace ctx.old ctx.new) }
{
    if let Some(parent) = ctx.parent_type() {
        if !has_field(parent, name.item) {
            let message = error_message(alloc, name.item, parent.name().unwrap_or(""))?;
            ctx.report_error(message.as_str(), &[name.span.start])?;
        }
    }
    Ok(())
}

// Whether the field may be asked of the type.
fn has_field<S, C>(t: &MetaTypeOf<S, C>, name: &str) -> bool
    ensures { result ≡ has_field t.now name.now }
{
    t.field_by_name(name).is_some() || is_union(t) && name == "__typename"
}

fn is_union<S, C>(t: &MetaTypeOf<S, C>) -> bool
    ensures { result ≡ is_union_meta t.now }
{
    matches!(t, MetaTypeOf::Union(_))
}

fn error_message(alloc: Global, field: &str, t: &str) -> Result<String, AllocError>
    ensures { IfOk result (λ message. string_bytes message ≡ unknown_field_message field.now t.now) }
{
    let before = between(alloc, "Unknown field \"", field, "\" on type \"")?;
    between(alloc, before.as_str(), t, "\"")
}
