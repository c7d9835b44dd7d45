//! `__typename` has the type `String!`, so it has no selection set (GraphQL, October 2021, sections 4.1 and 5.3.3).
//! Where the metadata of a type lists the field, as that of objects and interfaces does, `ScalarLeafs` says so; this
//! rule says it elsewhere.

ghost use Rattle.std.specs.Prelude.{◌≡◌, OnOk, OnErr, is_some, option_copied, option_map};
ghost use Rattle.language_types.specs.Types.{borrowed_shape};
ghost use Rattle.walk.specs.ContextState.{typing, with_errors};
ghost use Rattle.walk.specs.Entering.{everywhere, finding_step, found};
ghost use Rattle.walk.specs.Rule.{always, any_value, exactly};
ghost use Rattle.walk.specs.RuleLaws.{everywhere_silent};
ghost use Rattle.walk.specs.Step.{KeepsPlace};
ghost use Rattle.walk.proofs.Entering.{finding_keeps};
ghost use Rattle.rules_specified_fields.specs.TypenameLeafs.{is_implicit_typename, set_of_leaf, typename_set};
ghost use Rattle.rules_specified_fields.specs.TypenameLeafs.{typename_sets, HasNoTypenameSet};
ghost use Rattle.rules_specified_fields.specs.TypenameLeafsLaws.{none_of_typename};

use language::error::OutOfMemory;
use language::position::Spanning;
use language::tree::Field;
use language::types::BorrowedType;
use meta::MetaTypeOf;
use meta::check::CheckedScalar;
use walk::{Criterion, Event, Fresh, Machine, Rule, SettledRule, ValidatorContext, Visitor};

/// Reports each `__typename` of an object, an interface or a union that has a selection set, at its start, where the
/// metadata of the type does not list the field.
#[derive(Drop)]
pub struct TypenameLeafs;

/// Makes the rule, for one document.
pub fn factory() -> TypenameLeafs
    ensures { ⟦<TypenameLeafs as Fresh>⟧.fresh result }
{
    TypenameLeafs
}

impl Fresh for TypenameLeafs {
    ghost fresh = { any_value };
}

impl<S, C> Machine<S, C> for TypenameLeafs {
    ghost step = { finding_step typename_sets };
}

impl<S, C> Rule<S, C> for TypenameLeafs {
    ghost allows = { always (exactly (found typename_sets)) };

    ghost keeps = { finding_keeps typename_sets };
}

impl<S, C> Criterion<S, C> for TypenameLeafs {
    ghost finds_nothing = { everywhere (λ scope o. HasNoTypenameSet o.types.parent o.types.literal o.node) };
}

impl<S, C> SettledRule<S, C> for TypenameLeafs {
    ghost silent = { everywhere_silent typename_sets
        (λ scope o. HasNoTypenameSet o.types.parent o.types.literal o.node) none_of_typename };
}

impl<'a, S: CheckedScalar> Visitor<'a, S> for TypenameLeafs {
    fn on(
        &mut self,
        ctx: &mut ValidatorContext<'a, S>,
        event: &Event<'a, S>,
    ) -> Result<(), OutOfMemory> {
        match event {
            Event::EnterField(field) => report(ctx, field),
            _ => Ok(()),
        }
    }
}

// Reports a field, if it is such a `__typename` with a selection set.
fn report<'a, S: CheckedScalar>(
    ctx: &mut ValidatorContext<'a, S>,
    field: &Spanning<Field<'_, S>>,
) -> Result<(), OutOfMemory>
    ensures ok { OnOk result (ctx.new ≡ with_errors ctx.old
        (typename_set (typing ctx.old).parent (typing ctx.old).literal field.now)) }
    ensures err { OnErr result (KeepsPlace ctx.old ctx.new) }
{
    let parent = ctx.parent_type();
    let written = ctx.current_type_literal();
    if is_implicit_typename(parent, written, field.item.name.item) {
        report_set(ctx, field)?;
    }
    Ok(())
}

// Reports a field that has a selection set, as a leaf of the type `String!`.
fn report_set<'a, S: CheckedScalar>(
    ctx: &mut ValidatorContext<'a, S>,
    field: &Spanning<Field<'_, S>>,
) -> Result<(), OutOfMemory>
    ensures ok { OnOk result (ctx.new
        ≡ with_errors ctx.old (set_of_leaf (is_some field.now.item.selection_set) field.now)) }
    ensures err { OnErr result (KeepsPlace ctx.old ctx.new) }
{
    match &field.item.selection_set {
        Some(_) => ctx.report_error(
            "Field \"__typename\" must not have a selection since type String! has no subfields",
            &[field.span.start],
        ),
        None => Ok(()),
    }
}

// Whether a field is `__typename`, of a type that has it without listing it.
fn is_implicit_typename<S, C>(
    parent: Option<&MetaTypeOf<S, C>>,
    written: Option<BorrowedType<'_>>,
    name: &str,
) -> bool
    ensures { result
        ≡ is_implicit_typename (option_copied parent.entry) (option_map borrowed_shape written.entry) name.now }
{
    match (parent, written) {
        (Some(parent), None) => parent.is_composite() && name == "__typename",
        _ => false,
    }
}
